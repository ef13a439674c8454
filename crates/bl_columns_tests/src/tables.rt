//! Tables with their due text.
use bl_columns::cell::Cell;
use bl_columns::column::{columns_under, columns_with};
use bl_columns::row::row_line;
use std::alloc::{AllocError, Global};
use std::test::Fail;

/// A row of these texts.
fn row(alloc: Global, texts: [&str; 3]) -> Result<Vec<Cell>, AllocError> {
    let mut cells = Vec::new(alloc);
    for text in texts {
        cells.push(Cell::of(alloc, text.as_bytes())?)?;
    }
    Ok(cells)
}

#[test]
fn the_first_column_stands_at_the_right(rt: HostRuntime) -> Result<(), Fail> {
    let heads = row(rt.alloc(), ["from", "who", "note"])?;
    let first = row(rt.alloc(), ["8", "ann", ""])?;
    let second = row(rt.alloc(), ["12345", "beatrice", "lost"])?;
    let columns = columns_under(rt.alloc(), &heads)?;
    let columns = columns_with(rt.alloc(), &columns, &first)?;
    let columns = columns_with(rt.alloc(), &columns, &second)?;
    let top = row_line(rt.alloc(), &columns, &heads)?;
    let upper = row_line(rt.alloc(), &columns, &first)?;
    let lower = row_line(rt.alloc(), &columns, &second)?;
    assert!(rt; top.as_slice() == b"   from  who       note\n".as_slice());
    assert!(rt; upper.as_slice() == b"      8  ann\n".as_slice());
    assert!(rt; lower.as_slice() == b"  12345  beatrice  lost\n".as_slice());
    Ok(())
}

#[test]
fn a_number_and_more(rt: HostRuntime) -> Result<(), Fail> {
    let mut cell = Cell::number(rt.alloc(), 97)?;
    cell.add(b" events")?;
    assert!(rt; cell.bytes() == b"97 events".as_slice());
    Ok(())
}
