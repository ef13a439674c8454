//! What is long to run, by what a script may make of its documents.
ghost use Rattle.std.specs.Prelude.{◌<◌, length};

use bl_core::machine::Core;
use bl_core::origin::Origin;
use bl_policy::id::DocId;
use bl_work::document::MOST_BYTES;
use bl_work::script::{Script, Stmt};
use bl_work::work::Work;

/// An entry whose behaviour may look at so many bytes is long to run.
const LONG: usize = 16_384;

/// How many entries stand at most between an entry that may be short to run and its line.
const MOST_PARENTS: u32 = 8;

/// So often a byte is doubled until it is as long as a document may be.
const MOST_DOUBLINGS: u32 = 16;

/// What statements do to documents: how many of them take one up, how many of those pour one into another, and how many
/// bytes of text they bring. Of an `if` both bodies count.
#[derive(Clone, Copy, Debug, Default)]
struct Reach {
    taken_up: usize,
    poured: u32,
    text: usize,
}

impl Reach {
    /// With one more statement that takes up a document.
    fn take_up(&mut self) {
        self.taken_up = self.taken_up.saturating_add(1);
    }

    /// With one more that pours a document into another.
    fn pour(&mut self) {
        self.take_up();
        self.poured = self.poured.saturating_add(1);
    }

    /// With one more that brings a text to a document.
    fn bring(&mut self, text: &[u8]) {
        self.take_up();
        self.text = self.text.saturating_add(text.len());
    }

    /// Of two behaviours of a line: each runs by itself, and finds what the other has made of documents.
    fn beside(&self, other: &Reach) -> Reach {
        Reach {
            taken_up: self.taken_up.max(other.taken_up),
            poured: self.poured.saturating_add(other.poured),
            text: self.text.saturating_add(other.text),
        }
    }

    /// How many bytes a behaviour may look at, where the longest document has so many at first: each pour makes the
    /// longest at most twice as long, and no document is longer than 65,536 bytes.
    fn bytes(&self, longest: usize) -> usize {
        let doublings = self.poured.min(MOST_DOUBLINGS);
        let grown = longest
            .saturating_add(self.text)
            .saturating_mul(1 << doublings);
        self.taken_up.saturating_mul(grown.min(MOST_BYTES))
    }
}

/// Counts what statements do, beside what was counted before.
#[cycle(reach)]
fn count_all(statements: &[Stmt], reach: &mut Reach) {
    for statement in statements {
        count_one(statement, reach);
    }
}

/// Counts what a statement does, beside what was counted before.
#[cycle(reach)]
fn count_one(statement: &Stmt, reach: &mut Reach) {
    match statement {
        Stmt::Show(_) | Stmt::Copy(_, _) => reach.take_up(),
        Stmt::Pour(_, _) => reach.pour(),
        Stmt::Add(_, text) | Stmt::Set(_, text) => reach.bring(text.bytes()),
        Stmt::If(choice) => {
            reach.take_up();
            count_all(choice.then_body.statements(), reach);
            count_all(choice.else_body.statements(), reach);
        }
        Stmt::Say(_) | Stmt::Spawn(_) => {}
    }
}

/// What the behaviours of a script do.
fn reach_of(script: &Script) -> Reach {
    let mut reach = Reach::default();
    for index in 0..script.weight() {
        let mut own = Reach::default();
        count_all(script.body(index), &mut own);
        reach = reach.beside(&own);
    }
    reach
}

/// The line that an entry comes from, by its place; none where there are many entries in between.
fn line_of(core: &Core, n: u32) -> Option<u32> {
    let mut at = n;
    for _ in 0..MOST_PARENTS {
        match core.origin(at)? {
            Origin::Line { .. } => return Some(at),
            Origin::Child { parent, .. } => at = parent,
        }
    }
    None
}

/// How many bytes a document has, if it is not lent.
fn length_of(core: &Core, doc: DocId) -> usize {
    if doc.position() as usize >= core.setup().contents().len() {
        return 0;
    }
    match core.content(doc) {
        Some(content) => content.bytes().len(),
        None => 0,
    }
}

/// How many bytes the longest document has of a behaviour's.
fn longest_of(core: &Core, script: &Script, index: usize) -> usize
    requires { index < length script.now }
{
    let mut longest = 0;
    for access in script.accesses(index) {
        longest = length_of(core, access.doc).max(longest);
    }
    longest
}

/// How many bytes the longest document has of a script's.
fn longest_in(core: &Core, script: &Script) -> usize {
    let mut longest = 0;
    for index in 0..script.weight() {
        longest = longest_of(core, script, index).max(longest);
    }
    longest
}

/// Whether some entry of the line that this one comes from may look at much, by what its script may make of its
/// documents, so that it is worth a thread of its own.
pub(crate) fn is_long(core: &Core, n: u32) -> bool {
    let Some(line) = line_of(core, n) else {
        return true;
    };
    match core.work(line) {
        Some(Work::Behaviour(script)) => reach_of(script).bytes(longest_in(core, script)) >= LONG,
        Some(Work::Rule(_)) | None => false,
    }
}
