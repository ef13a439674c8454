//! What is told of a fault of a setup file.

use bl_due::due::Section;
use bl_due::misfit::Misfit;
use bl_level::name::Name;

/// What a name is of.
#[derive(Clone, Copy, PartialEq, Eq, Debug)]
pub enum Named {
    Rank,
    Category,
    Subject,
    Document,
}

/// What a setup file has too much of.
#[derive(Clone, Copy, PartialEq, Eq, Debug)]
pub enum Excess {
    /// Names of this: more than 16 ranks, 32 categories, 256 subjects or 1,024 documents.
    Names(Named),
    /// A document's content has more than 65,536 bytes.
    Content,
}

/// Why a word is at fault.
#[derive(Drop, Debug)]
pub enum Reason {
    /// No name of this was declared so; the nearest that was, where one is near.
    Unknown(Named, Option<Name>),
    /// A name of this was declared so before, or a category stands twice in its level.
    Repeated(Named),
    /// The word is a subject's current level, and its greatest one does not dominate it.
    CurrentAboveGreatest,
    /// With the word there is too much of this.
    TooMany(Excess),
}

/// The word at fault of a line that is spelled as a declaration that is due.
#[derive(Drop, Debug)]
pub struct Spot {
    /// How many bytes of the line stand before it.
    pub at: usize,
    /// How many bytes it has.
    pub len: usize,
    pub reason: Reason,
}

/// Where a setup file is at fault.
#[derive(Drop, Debug)]
pub enum Located {
    /// In no line: the file has more than 16,777,216 bytes.
    File,
    /// Behind its last line: it ends before this section.
    End(Section),
    /// In its line, where no declaration that is due goes on.
    Misfit(Misfit),
    /// In its line, at this word.
    Word(Spot),
}
