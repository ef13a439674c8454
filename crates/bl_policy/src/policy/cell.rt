// The cells of a policy. The cell of a subject and a document has the modes that the matrix has for them, and the
// first property that each mode fails (Bell and La Padula 1976, the three properties; own choice: their order).
//
// A decision reads cells and asks nothing else. So what changes a level or the matrix mends each cell that it touches.
ghost use Rattle.std.specs.Prelude.{◌≡◌, ◌+◌, ◌*◌, ◌≤◌, ◌<◌, length, map};
ghost use Rattle.bl_policy.specs.Cells.{modes_of, failed_in, no_cell, cell_of, clause_of, clearance_from, place_of_modes, cell_from, AreFailuresOf, HasMendedRow, HasMendedColumn, HasEmptiedColumn};
ghost use Rattle.bl_policy.specs.Limits.{most_subjects, most_documents};

use super::{MOST_DOCUMENTS, Subject};
use crate::access::{Mode, ModeSet};
use crate::denial::Clause;
use bitflags::Flags;
use bl_level::level::Level;

/// The first property that an access fails, if any. This takes one byte, and an `Option` of three would take two.
#[derive(Clone, Copy)]
pub(super) enum Failed {
    Nothing,
    Simple,
    Star,
    Discretionary,
}

impl Failed {
    /// The property as a refusal names it.
    pub(super) fn clause(self) -> Option<Clause>
        ensures { result ≡ clause_of self }
    {
        match self {
            Failed::Nothing => None,
            Failed::Simple => Some(Clause::Simple),
            Failed::Star => Some(Clause::Star),
            Failed::Discretionary => Some(Clause::Discretionary),
        }
    }
}

/// What is kept of one subject and one document.
#[derive(Clone, Copy)]
pub(super) struct Cell {
    /// The modes that the matrix has.
    pub(super) modes: ModeSet,
    read: Failed,
    append: Failed,
    write: Failed,
}

impl Cell {
    /// The cell of a subject and a document that is not there yet.
    pub(super) fn empty() -> Cell
        ensures { result ≡ no_cell }
    {
        Cell {
            modes: ModeSet::empty(),
            read: Failed::Discretionary,
            append: Failed::Discretionary,
            write: Failed::Discretionary,
        }
    }

    /// The first property that an access in this mode fails.
    pub(super) fn failed(&self, mode: Mode) -> Failed
        ensures { result ≡ failed_in self.now mode }
    {
        match mode {
            Mode::Read => self.read,
            Mode::Append => self.append,
            Mode::Write => self.write,
        }
    }
}

/// The first property that each mode fails.
#[derive(Clone, Copy)]
struct Failures {
    read: Failed,
    append: Failed,
    write: Failed,
}

/// What the modes fail, one item for each set of modes that the matrix may have, at the place of that set. It is made of
/// what each mode fails where the matrix does not have it, and where it has.
macro_rules! failures {
    ($no_read:ident $read:ident, $no_append:ident $append:ident, $no_write:ident $write:ident) => {
        [
            failures!($no_read, $no_append, $no_write),
            failures!($read, $no_append, $no_write),
            failures!($no_read, $append, $no_write),
            failures!($read, $append, $no_write),
            failures!($no_read, $no_append, $write),
            failures!($read, $no_append, $write),
            failures!($no_read, $append, $write),
            failures!($read, $append, $write),
        ]
    };
    ($read:ident, $append:ident, $write:ident) => {
        Failures {
            read: Failed::$read,
            append: Failed::$append,
            write: Failed::$write,
        }
    };
}

/// What the modes fail at a level of a subject who observes it and is trusted, or whose current level is this one.
static SAME: [Failures; 8] =
    failures!(Discretionary Nothing, Discretionary Nothing, Discretionary Nothing);

/// The same of a subject whose current level is above this one.
static ABOVE: [Failures; 8] = failures!(Discretionary Nothing, Star Star, Star Star);

/// The same of one whose current level is below this one, and who observes it.
static BELOW: [Failures; 8] = failures!(Star Star, Discretionary Nothing, Star Star);

/// The same of one whose current level is neither, and who observes it.
static BESIDE: [Failures; 8] = failures!(Star Star, Star Star, Star Star);

/// The same of one who does not observe it, and to whom the star property lets append.
static BLIND: [Failures; 8] = failures!(Simple Simple, Discretionary Nothing, Simple Simple);

/// The same of one who does not observe it, and to whom the star property does not.
static APART: [Failures; 8] = failures!(Simple Simple, Star Star, Simple Simple);

/// The place of a set of modes among all of them.
fn place_of_modes(modes: ModeSet) -> usize
    ensures place { result ≡ place_of_modes modes }
    ensures within { result < 8 }
{
    let read = modes.contains(ModeSet::READ);
    let append = modes.contains(ModeSet::APPEND);
    let write = modes.contains(ModeSet::WRITE);
    read as usize + 2 * (append as usize) + 4 * (write as usize)
}

/// The cell of these modes.
fn cell_from(failures: &[Failures; 8], modes: ModeSet) -> Cell
    ensures { result ≡ cell_from failures.now modes }
{
    let failed = failures[place_of_modes(modes)];
    Cell {
        modes,
        read: failed.read,
        append: failed.append,
        write: failed.write,
    }
}

/// A level, and what the modes of one subject fail at it.
#[derive(Clone, Copy)]
struct LevelFailures {
    level: Level,
    failures: [Failures; 8],
}

impl Subject {
    /// What the modes fail at this level. Levels that dominate each other are one, so the star property holds of a write
    /// where it holds of a read and of an append.
    fn failures(&self, level: &Level) -> &'static [Failures; 8]
        ensures { AreFailuresOf (clearance_from self.now) level.now result.now }
    {
        let observes = self.greatest.dominates(level);
        if self.trusted {
            return if observes { &SAME } else { &BLIND };
        }
        let alters = level.dominates(&self.current);
        if !observes {
            if alters { &BLIND } else { &APART }
        } else if self.current.dominates(level) {
            if alters { &SAME } else { &ABOVE }
        } else if alters {
            &BELOW
        } else {
            &BESIDE
        }
    }

    /// What the modes fail at this level, with the level.
    fn failures_at(&self, level: &Level) -> LevelFailures
        ensures level { result.level ≡ level.now }
        ensures failures { AreFailuresOf (clearance_from self.now) level.now result.failures }
    {
        LevelFailures {
            level: *level,
            failures: *self.failures(level),
        }
    }

    /// Goes on to what the modes fail at this level, which is asked only where the level before was another.
    fn turn_to(&self, last: &mut LevelFailures, level: &Level)
        requires { AreFailuresOf (clearance_from self.now) last.old.level last.old.failures }
        ensures level { last.new.level ≡ level.now }
        ensures failures { AreFailuresOf (clearance_from self.now) level.now last.new.failures }
    {
        if last.level != *level {
            *last = self.failures_at(level);
        }
    }

    /// The cell of this subject and a document of this level, where the matrix has these modes.
    pub(super) fn cell(&self, level: &Level, modes: ModeSet) -> Cell
        ensures { result ≡ cell_of (clearance_from self.now) level.now modes }
    {
        cell_from(self.failures(level), modes)
    }
}

/// Mends the cells of one subject and the documents of these levels, from the first of its cells on. Their modes stay,
/// and so do all other cells. Documents that follow each other often have one level: what it fails is asked once.
pub(super) fn mend_row(cells: &mut [Cell], first: usize, subject: &Subject, levels: &[Level])
    requires within { first + length levels.now ≤ length cells.old }
    ensures modes { modes_of cells.new ≡ modes_of cells.old }
    ensures mended { HasMendedRow first (clearance_from subject.now) levels.now cells.old cells.new }
{
    let mut last = subject.failures_at(&subject.greatest);
    for (column, level) in levels.iter().enumerate() {
        subject.turn_to(&mut last, level);
        let modes = cells[first + column].modes;
        cells[first + column] = cell_from(&last.failures, modes);
    }
}

/// Empties the cells of these subjects and one document, which has this level: they have no modes. All other cells stay.
pub(super) fn empty_column(cells: &mut [Cell], column: usize, subjects: &[Subject], level: &Level)
    requires column { column < most_documents }
    requires rows { length subjects.now ≤ most_subjects }
    requires within { length subjects.now * most_documents ≤ length cells.old }
    ensures emptied { HasEmptiedColumn column (map clearance_from subjects.now) level.now cells.old cells.new }
{
    for (row, subject) in subjects.iter().enumerate() {
        cells[row * MOST_DOCUMENTS + column] = subject.cell(level, ModeSet::empty());
    }
}

/// Mends the cells of these subjects and one document, which has this level. Their modes stay, and so do all other cells.
pub(super) fn mend_column(cells: &mut [Cell], column: usize, subjects: &[Subject], level: &Level)
    requires column { column < most_documents }
    requires rows { length subjects.now ≤ most_subjects }
    requires within { length subjects.now * most_documents ≤ length cells.old }
    ensures modes { modes_of cells.new ≡ modes_of cells.old }
    ensures mended { HasMendedColumn column (map clearance_from subjects.now) level.now cells.old cells.new }
{
    for (row, subject) in subjects.iter().enumerate() {
        let place = row * MOST_DOCUMENTS + column;
        let modes = cells[place].modes;
        cells[place] = subject.cell(level, modes);
    }
}
