//! How far a line was read, and what may come there.
ghost use Rattle.std.specs.Prelude.{◌≡◌, IfOk};
ghost use Rattle.bl_level.specs.Token.{tok};
ghost use Rattle.bl_due.specs.Items as items;
ghost use Rattle.bl_due.specs.Points as points;
ghost use Rattle.bl_due.specs.Points.{point};

use crate::due::{Due, Section};
use crate::item::items_behind;
use crate::left::Left;
use bl_level::token::{Keyword, Token};
use std::alloc::{AllocError, Global};

/// How far a line was read.
#[derive(Clone, Copy)]
pub enum Point {
    /// Nothing was read, and a declaration of this section is due.
    Start(Section),
    /// These items are left of a declaration.
    Within(Left),
}

/// The point behind the first token of a line.
fn behind_first(section: Section, token: &Token<'_>) -> Option<Point>
    ensures { points.behind_of result ≡ points.first section (tok token.now) }
{
    let Token::Reserved(word) = token else {
        return None;
    };
    let rest = items_behind(section, *word)?;
    Some(Point::Within(Left { head: None, rest }))
}

/// The first words of a section's declarations.
fn first_words(alloc: Global, section: Section) -> Result<Vec<Due>, AllocError>
    ensures { IfOk result (λ due. due.items ≡ points.first_words section) }
{
    let mut due = Vec::new(alloc);
    match section {
        Section::Ranks => due.push(Due::Word(Keyword::Ranks))?,
        Section::Categories => due.push(Due::Word(Keyword::Categories))?,
        Section::Entries => {
            due.push(Due::Word(Keyword::Subject))?;
            due.push(Due::Word(Keyword::Document))?;
            due.push(Due::Word(Keyword::Reserve))?;
            due.push(Due::Word(Keyword::Allow))?;
        }
    }
    Ok(due)
}

impl Point {
    /// The point behind a token. None where it may not stand there.
    pub fn next(&self, token: &Token<'_>) -> Option<Point>
        ensures { points.behind_of result ≡ points.next (point self.now) (tok token.now) }
    {
        match self {
            Point::Start(section) => behind_first(*section, token),
            Point::Within(left) => Some(Point::Within(left.next(token)?)),
        }
    }

    /// Whether the line may end there.
    pub fn may_end(&self) -> bool
        ensures { result ≡ points.may_stop (point self.now) }
    {
        match self {
            Point::Start(_) => false,
            Point::Within(left) => left.may_end(),
        }
    }

    /// What is due there.
    pub fn due(&self, alloc: Global) -> Result<Vec<Due>, AllocError>
        ensures { IfOk result (λ due. due.items ≡ points.due_at (point self.now)) }
    {
        match self {
            Point::Start(section) => first_words(alloc, *section),
            Point::Within(left) => left.due(alloc),
        }
    }
}
