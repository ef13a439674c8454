//! What may come of the work of a line, in bytes.
ghost use Rattle.std.specs.Prelude.{◌≡◌, ◌<◌, ◌+◌, length, [], ◌∷◌};
ghost use Rattle.bl_work.specs.Body.{statements_of};
ghost use Rattle.bl_work.specs.Readable.{IsReadable};
ghost use Rattle.bl_work.specs.Script.{IsScript};
ghost use Rattle.bl_order.specs.Order.{Line};
ghost use Rattle.bl_order.specs.Past.{first_task};
ghost use Rattle.bl_sizes.specs.Counts.{in_word};
ghost use Rattle.bl_sizes.specs.Sizes.{NamesBelow, coming_in, entry_size, most_of, work_size};
ghost use Rattle.bl_sizes.specs.Sizes as size;

use bl_work::names::Names;
use bl_work::script::{Script, Stmt};
use bl_work::work::Work;
use bl_write::line_len::line_len;

/// How many bytes a line has at most beside its work.
const LINE: u64 = 21;

/// How many bytes the line of a start has at most that runs.
pub const RUN: u64 = 16;

/// How many bytes a denial takes at most beside that. An end without what is shown takes no more.
pub const DENIED: u64 = 83;

/// How many bytes stand round a text that is shown.
const MARKS: u64 = 3;

/// How many bytes a document takes at most that is shown.
const SHOWN: u64 = 65_539;

/// What a text takes that is shown.
pub fn shown_size(text: &[u8]) -> u64
    ensures { result ≡ in_word (size.shown_size text.now) }
{
    (text.len() as u64).saturating_add(MARKS)
}

/// What statements may show and spawn at most.
#[cycle(most)]
fn most_of(script: &Script, statements: &[Stmt]) -> u64
    requires script { IsScript script.now }
    requires within { NamesBelow (length script.now) (statements_of statements.now) }
    ensures { result ≡ in_word (most_of (coming_in script.now) (statements_of statements.now)) }
{
    let mut most = 0u64;
    for statement in statements {
        most = most.saturating_add(most_of_one(script, statement));
    }
    most
}

/// What a statement may show and spawn at most.
#[cycle(most)]
fn most_of_one(script: &Script, statement: &Stmt) -> u64
    requires script { IsScript script.now }
    requires within { NamesBelow (length script.now) (statements_of (statement.now ∷ [])) }
    ensures { result ≡ in_word (most_of (coming_in script.now) (statements_of (statement.now ∷ []))) }
{
    match statement {
        Stmt::Show(_) => SHOWN,
        Stmt::Say(text) => shown_size(text.bytes()),
        Stmt::Add(_, _) | Stmt::Set(_, _) => 0,
        Stmt::Copy(_, _) | Stmt::Pour(_, _) => 0,
        Stmt::If(choice) => {
            let then_most = most_of(script, choice.then_body.statements());
            let else_most = most_of(script, choice.else_body.statements());
            then_most.max(else_most)
        }
        Stmt::Spawn(behaviour) => coming_in(script, usize::from(*behaviour)).saturating_add(RUN),
    }
}

/// What may come of a behaviour, by its number, once its start is written.
#[cycle(most)]
fn coming_in(script: &Script, index: usize) -> u64
    requires script { IsScript script.now }
    requires index { index < length script.now }
    ensures { result ≡ in_word (coming_in script.now index) }
{
    let statements = script.body(index);
    most_of(script, statements).saturating_add(DENIED)
}

/// What may come of a behaviour of a script, by its number, once its start is written: its end or its denial, what it
/// may show, and all that it may spawn. It takes no memory.
pub fn coming(script: &Script, index: usize) -> u64
    requires { index < length script.now }
    ensures { result ≡ in_word (size.coming_in script.now index) }
{
    // asked for the proof alone: it is a script
    let _ = script.weight();
    coming_in(script, index)
}

/// What the line of a work takes at most that some text reads as by these names.
pub fn line_size(names: &Names, work: &Work) -> u64
    requires { IsReadable names.now work.now }
    ensures { result ≡ in_word (entry_size names.now (Line 0 0 0 work.now)) }
{
    (line_len(names, work) as u64).saturating_add(LINE)
}

/// What may come of a work, beside its line.
fn work_most(work: &Work) -> u64
    ensures { result ≡ in_word (size.run_most + size.coming_of (first_task work.now)) }
{
    match work {
        Work::Behaviour(script) => {
            // asked for the proof alone: a script has a behaviour
            let _ = script.weight();
            coming(script, 0).saturating_add(RUN)
        }
        Work::Rule(_) => RUN + DENIED,
    }
}

/// What a line adds with this work, which some text reads as by these names, with all that may come of it. It takes no
/// memory.
pub fn work_size(names: &Names, work: &Work) -> u64
    requires { IsReadable names.now work.now }
    ensures { result ≡ in_word (work_size names.now work.now) }
{
    line_size(names, work).saturating_add(work_most(work))
}
