//! What is due in a setup file, and in a line of it.

use bl_level::token::{Keyword, Sign};

/// Which declarations are due: a setup file has three sections.
#[derive(Clone, Copy, PartialEq, Eq, Debug)]
pub enum Section {
    /// The ranks: nothing was declared yet.
    Ranks,
    /// The categories: the ranks were declared.
    Categories,
    /// A subject, a document or a right: the scheme was declared.
    Entries,
}

/// What a line may go on with.
#[derive(Clone, Copy, PartialEq, Eq, Debug)]
pub enum Due {
    /// This word.
    Word(Keyword),
    /// Any name.
    Name,
    /// The letter of a mode: `r`, `a` or `w`.
    Letter,
    /// Any text in quotes.
    Text,
    /// This sign.
    Sign(Sign),
    /// Nothing: the line may end.
    End,
}
