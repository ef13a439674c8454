//! The lines of a setup in their order: those of the ranks and the categories, one for each subject, one for each
//! document, and one for each cell that has a mode.
ghost use Rattle.std.specs.Prelude.{◌≡◌, ◌↔◌, ◌<◌, [], length, IsTrue, MatchOption};
ghost use Rattle.bl_state.specs.declared.line.Line.TheVariants as lines;
ghost use Rattle.bl_state.specs.Lines.{AreLeft, IsLineOf, StandsBehind, cells_from, documents_from, row_from, subjects_from};
ghost use Rattle.bl_state.specs.Texts.{modes_at, modes_where};
ghost use Rattle.bl_state.specs.Whole.{IsWhole};

use bitflags::Flags;
use bl_policy::access::ModeSet;
use bl_policy::id::{DocId, SubjectId};
use bl_setup::setup::Setup;

/// A line of a setup, by what it declares.
#[derive(Clone, Copy)]
pub(crate) enum Line {
    /// The ranks.
    Ranks,
    /// The categories.
    Categories,
    /// A subject with its levels.
    Subject(SubjectId),
    /// A document with its level, and its content where it is present.
    Document(DocId),
    /// The modes of a cell.
    Allow(SubjectId, DocId),
}

/// Which modes a cell has.
#[derive(Clone, Copy)]
pub(crate) struct Modes {
    pub(crate) read: bool,
    pub(crate) append: bool,
    pub(crate) write: bool,
}

impl Modes {
    /// Those of a subject's cell for a document.
    pub(crate) fn of(setup: &Setup, subject: SubjectId, doc: DocId) -> Modes
        requires known { subject < length setup.now.names.subjects }
        requires there { doc < length setup.now.names.documents }
        ensures { modes_where result.read result.append result.write ≡ modes_at setup.now.policy.matrix subject doc }
    {
        let modes = setup.policy().cell(subject, doc);
        let read = modes.contains(ModeSet::READ);
        let append = modes.contains(ModeSet::APPEND);
        let write = modes.contains(ModeSet::WRITE);
        Modes {
            read,
            append,
            write,
        }
    }

    /// Whether there is none.
    fn are_none(self) -> bool
        ensures { IsTrue result ↔ (modes_where self.read self.append self.write ≡ []) }
    {
        !(self.read || self.append || self.write)
    }
}

/// The first document, from a place on, for which a subject has a mode.
fn next_in_row(setup: &Setup, whose: SubjectId, from: usize) -> Option<DocId>
    requires { whose < length setup.now.names.subjects }
    ensures { MatchOption result (row_from setup.now whose from ≡ [])
        (λ doc. IsLineOf setup.now (lines.Allow whose doc) × (row_from setup.now whose from ≡ row_from setup.now whose doc)) }
{
    for place in from..setup.names().documents() {
        let doc = DocId::new(place as u16);
        if !Modes::of(setup, whose, doc).are_none() {
            return Some(doc);
        }
    }
    None
}

/// The first cell with a mode among those of the subjects from a place on.
fn cell_from(setup: &Setup, from: usize) -> Option<Line>
    ensures { AreLeft setup.now (cells_from setup.now from) result }
{
    for place in from..setup.names().subjects() {
        let whose = SubjectId::new(place as u16);
        if let Some(doc) = next_in_row(setup, whose, 0) {
            return Some(Line::Allow(whose, doc));
        }
    }
    None
}

/// The line of the document at a place, or of the first cell where there is no such document.
fn document_from(setup: &Setup, place: usize) -> Option<Line>
    ensures { AreLeft setup.now (documents_from setup.now place) result }
{
    if place < setup.names().documents() {
        return Some(Line::Document(DocId::new(place as u16)));
    }
    cell_from(setup, 0)
}

/// The line of the subject at a place, or of the first document where there is no such subject.
fn subject_from(setup: &Setup, place: usize) -> Option<Line>
    ensures { AreLeft setup.now (subjects_from setup.now place) result }
{
    if place < setup.names().subjects() {
        return Some(Line::Subject(SubjectId::new(place as u16)));
    }
    document_from(setup, 0)
}

/// The next cell with a mode behind one.
fn cell_behind(setup: &Setup, whose: SubjectId, doc: DocId) -> Option<Line>
    requires { IsLineOf setup.now (lines.Allow whose doc) }
    ensures { StandsBehind setup.now (lines.Allow whose doc) result }
{
    match next_in_row(setup, whose, usize::from(doc.position()) + 1) {
        Some(next) => Some(Line::Allow(whose, next)),
        None => cell_from(setup, usize::from(whose.position()) + 1),
    }
}

/// The line behind one.
pub(crate) fn line_behind(setup: &Setup, line: &Line) -> Option<Line>
    requires whole { IsWhole setup.now }
    requires there { IsLineOf setup.now line.now }
    ensures { StandsBehind setup.now line.now result }
{
    match *line {
        Line::Ranks => Some(Line::Categories),
        Line::Categories => subject_from(setup, 0),
        Line::Subject(subject) => subject_from(setup, usize::from(subject.position()) + 1),
        Line::Document(doc) => document_from(setup, usize::from(doc.position()) + 1),
        Line::Allow(whose, doc) => cell_behind(setup, whose, doc),
    }
}
