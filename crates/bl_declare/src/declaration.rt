//! The declarations of a setup file as their lines spell them, with names that nothing has looked up.

use bl_policy::access::Mode;

/// A level: the name of a rank, and those of its categories.
#[derive(Drop)]
pub struct LevelWords<'a> {
    pub rank: &'a [u8],
    pub categories: Vec<&'a [u8]>,
}

/// A subject with its levels.
#[derive(Drop)]
pub struct SubjectWords<'a> {
    pub name: &'a [u8],
    pub greatest: LevelWords<'a>,
    pub current: LevelWords<'a>,
    pub trusted: bool,
    pub admin: bool,
}

/// A document with its level and its content. A document that is not present has no content.
#[derive(Drop)]
pub struct DocumentWords<'a> {
    pub name: &'a [u8],
    pub level: LevelWords<'a>,
    pub content: Option<&'a [u8]>,
}

/// Modes that are added to a cell of the matrix: one, and any others.
#[derive(Drop)]
pub struct AllowWords<'a> {
    pub subject: &'a [u8],
    pub document: &'a [u8],
    pub mode: Mode,
    pub modes: Vec<Mode>,
}

/// One line of a setup file.
#[derive(Drop)]
pub enum Words<'a> {
    /// The lowest rank, and the others in their order.
    Ranks(&'a [u8], Vec<&'a [u8]>),
    Categories(Vec<&'a [u8]>),
    Subject(SubjectWords<'a>),
    Document(DocumentWords<'a>),
    Allow(AllowWords<'a>),
}
