//! The line of a row.
ghost use Rattle.std.specs.Prelude.{◌≡◌, ◌++◌, IfOk, OnOk};
ghost use Rattle.bl_columns.specs.Columns.{is_told, row_line, row_texts, tells_any};

use crate::cell::Cell;
use crate::column::{Column, put_aligned, put_ending};
use std::alloc::{AllocError, Global};

/// Whether a cell has a text.
fn is_told(cell: &Cell) -> bool
    ensures { result ≡ is_told cell.now }
{
    !cell.bytes().is_empty()
}

/// Whether one of these cells has a text.
fn tells_any(cells: &[Cell]) -> bool
    ensures { result ≡ tells_any cells.now }
{
    cells.iter().any(is_told)
}

/// Puts the cells of a row behind a text, each in its column.
fn put_cells(text: &mut Vec<u8>, columns: &[Column], cells: &[Cell]) -> Result<(), AllocError>
    ensures { OnOk result (text.new.items ≡ text.old.items ++ row_texts columns.now cells.now) }
{
    let [cell, later @ ..] = cells else {
        return Ok(());
    };
    let [column, others @ ..] = columns else {
        return Ok(());
    };
    text.extend_from_slice(b"  ")?;
    if !tells_any(later) {
        return put_ending(text, *column, cell);
    }
    put_aligned(text, *column, cell)?;
    put_cells(text, others, later)
}

/// The line of a row, with its end. Two blanks stand before each text, and none at the end of the line. Texts without a
/// column are left out. An error comes only where a growth is refused.
pub fn row_line(alloc: Global, columns: &[Column], cells: &[Cell]) -> Result<Vec<u8>, AllocError>
    ensures { IfOk result (λ line. line.items ≡ row_line columns.now cells.now) }
{
    let mut line = Vec::new(alloc);
    put_cells(&mut line, columns, cells)?;
    line.extend_from_slice(b"\n")?;
    Ok(line)
}
