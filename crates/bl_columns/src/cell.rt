//! A text in a table.
ghost use Rattle.std.specs.Prelude.{◌≡◌, ◌++◌, decimal, IfOk, OnOk};

use itoa::Buffer;
use std::alloc::{AllocError, Global};
use std::marker::Model;

/// A text in a table, on one line.
#[derive(Drop)]
pub struct Cell {
    bytes: Vec<u8>,
}

impl Model for Cell {
    ghost use Rattle.std.specs.Prelude.{List, ℕ};

    ghost Value = { List ℕ };

    ghost view = { λ c. c.bytes.items };
}

impl Cell {
    /// The cell of a text.
    pub fn new(bytes: Vec<u8>) -> Cell
        ensures { result ≡ bytes.items }
    {
        Cell { bytes }
    }

    /// The cell of a copy of a text. An error comes only where a growth is refused.
    pub fn of(alloc: Global, text: &[u8]) -> Result<Cell, AllocError>
        ensures { IfOk result (λ cell. cell ≡ text.now) }
    {
        let mut bytes = Vec::new(alloc);
        bytes.extend_from_slice(text)?;
        Ok(Cell { bytes })
    }

    /// The cell of a number, in decimal. An error comes only where a growth is refused.
    pub fn number(alloc: Global, number: u64) -> Result<Cell, AllocError>
        ensures { IfOk result (λ cell. cell ≡ decimal number) }
    {
        let mut digits = Buffer::new();
        Cell::of(alloc, digits.format(number).as_bytes())
    }

    /// The text.
    pub fn bytes(&self) -> &[u8]
        ensures { result.now ≡ self.now }
    {
        &self.bytes
    }

    /// Puts a text behind it. An error comes only where a growth is refused; then it may be anything.
    pub fn add(&mut self, text: &[u8]) -> Result<(), AllocError>
        ensures { OnOk result (self.new ≡ self.old ++ text.now) }
    {
        self.bytes.extend_from_slice(text)
    }
}
