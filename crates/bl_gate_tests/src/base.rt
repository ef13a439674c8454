//! A gate over the base setup, and what the tests ask of it.
ghost use Rattle.std.specs.Prelude.{◌≡◌, Ok};
ghost use Rattle.bl_gate.specs.Gates.{Follows, HasLoanInHand, KeepsInHand};

use bl_core::machine::Started;
use bl_core::session::SessionNo;
use bl_eval::evaluate::eval;
use bl_eval::lent::{Done, Lent};
use bl_gate::gate::Gate;
use bl_gate::pass::Pass;
use bl_hall::event::Event;
use bl_hall::hall::Hall;
use bl_hall::reply::Reply;
use bl_policy::id::SubjectId;
use bl_read::line::read_line;
use bl_setup::reader::read_setup;
use bl_work::answer::Answer;
use bl_work::asked::Line;
use bl_work::work::Work;
use std::alloc::AllocGlobal;
use std::process::Abort;
use std::sync::Wait;

/// The base setup.
pub(super) const BASE: &[u8] = b"ranks u c s t\n\
categories nato crypto\n\
subject ann greatest s{nato} current s{nato}\n\
subject bob greatest s{nato} current u\n\
subject cat greatest s{crypto} current s{crypto}\n\
subject root greatest t{nato,crypto} current u trusted admin\n\
document memo s{nato} \"m1\"\n\
document note u \"n1\"\n\
document log t{nato,crypto} \"\"\n\
allow ann memo r w\n\
allow ann note r w\n\
allow ann log r a\n\
allow bob memo r w a\n\
allow bob note r w\n\
allow cat memo r\n\
allow root note r w\n";

/// The subject `ann`.
pub(super) const ANN: u16 = 0;

/// A line that shows memo.
pub(super) const SHOW_MEMO: &[u8] = b"when read memo do show memo; end";

/// What came where no fault may come.
pub(super) fn right<T, E>(rt: &impl Abort, outcome: Result<T, E>) -> T
    ensures { outcome ≡ Ok result }
{
    match outcome {
        Ok(value) => value,
        Err(_fault) => panic!(rt; "a fault"),
    }
}

/// A gate over the base setup for lines up to a weight of 10,000, and the pass with all its parts.
pub(super) fn base_gate<R: AllocGlobal + Abort>(rt: &R) -> (Gate, Pass)
    ensures gate { result.1.gate ≡ result.0 }
    ensures parts { result.1.parts ≡ 64 }
{
    let setup = right(rt, read_setup(rt.alloc(), BASE));
    let hall = right(rt, Hall::new(rt.alloc(), setup, 10_000));
    right(rt, Gate::new(hall))
}

/// The work of a line that shows memo.
pub(super) fn show_memo<R: AllocGlobal + Abort>(rt: &R, gate: &Gate) -> Work {
    match right(rt, read_line(rt.alloc(), gate.names(), SHOW_MEMO)) {
        Line::Work(work) => work,
        Line::Hello(_) | Line::Wait => panic!(rt; "no work"),
    }
}

/// Admits a line of a session that shows memo, and gives its place.
pub(super) fn admit<R: AllocGlobal + Abort + Wait>(
    rt: &R,
    gate: &Gate,
    pass: &mut Pass,
    session: SessionNo,
    ordinal: u32,
) -> u32
    requires { pass.old.gate ≡ gate.now }
    ensures { Follows pass.old pass.new }
{
    let work = show_memo(rt, gate);
    right(rt, gate.line(rt, pass, session, ordinal, work))
}

/// Opens a session of `ann` and admits a line that shows memo, by one pass; gives the session and the line's place.
pub(super) fn ask<R: AllocGlobal + Abort + Wait>(
    rt: &R,
    gate: &Gate,
    pass: &mut Pass,
) -> (SessionNo, u32)
    requires { pass.old.gate ≡ gate.now }
    ensures { Follows pass.old pass.new }
{
    let session = right(rt, gate.open(rt, pass, SubjectId::new(ANN)));
    let place = admit(rt, gate, pass, session, 1);
    (session, place)
}

/// What is lent where an entry runs.
pub(super) fn lent_of(rt: &impl Abort, begun: Started) -> Lent
    ensures { begun ≡ Started.Run result }
{
    match begun {
        Started::Run(lent) => lent,
        Started::Denied(_) | Started::RuleDone => panic!(rt; "it does not run"),
    }
}

/// What is done with what was lent.
pub(super) fn done_of<R: AllocGlobal + Abort>(rt: &R, lent: Lent) -> Done
    ensures { result ≡ lent }
{
    right(rt, eval(rt.alloc(), lent))
}

/// Starts an entry, which runs, and does what it does. The pass has it in hand, and what it had before.
pub(super) fn begin<R: AllocGlobal + Abort + Wait>(
    rt: &R,
    gate: &Gate,
    pass: &mut Pass,
    n: u32,
) -> Done
    requires { pass.old.gate ≡ gate.now }
    ensures follows { Follows pass.old pass.new }
    ensures in_hand { KeepsInHand pass.old pass.new }
    ensures held { HasLoanInHand pass.new result }
    ensures entry { result.entry ≡ n }
{
    let begun = right(rt, gate.start(rt, pass, n));
    done_of(rt, lent_of(rt, begun))
}

/// Whether these replies are one, to the first line, and it shows `m1`.
pub(super) fn is_memo(replies: &[Reply]) -> bool {
    if replies.len() != 1 || replies[0].label.as_slice() != [1].as_slice() {
        return false;
    }
    match &replies[0].answer {
        Answer::Done(outputs) => {
            let texts = outputs.texts();
            texts.len() == 1 && texts[0].bytes() == b"m1".as_slice()
        }
        Answer::RuleDone | Answer::Denied(_) | Answer::Lost => false,
    }
}

/// Whether a session is answered with one reply to its first line, which shows `m1`.
pub(super) fn is_answered<R: Abort + Wait>(
    rt: &R,
    gate: &Gate,
    pass: &mut Pass,
    session: SessionNo,
) -> bool
    requires { pass.old.gate ≡ gate.now }
    ensures { Follows pass.old pass.new }
{
    let answered = right(rt, gate.answers(rt, pass, session, 0));
    let shown = match &answered {
        Some(replies) => is_memo(replies.as_slice()),
        None => false,
    };
    drop(answered);
    shown
}

/// Asserts that a session is answered so.
pub(super) fn assert_answered<R: Abort + Wait>(
    rt: &R,
    gate: &Gate,
    pass: &mut Pass,
    session: SessionNo,
)
    requires { pass.old.gate ≡ gate.now }
    ensures { Follows pass.old pass.new }
{
    assert!(rt; is_answered(rt, gate, pass, session));
}

/// Asserts that these are the first session and the first line.
pub(super) fn assert_first(rt: &impl Abort, session: SessionNo, place: u32) {
    assert!(rt; session.number() == 0 && place == 0);
}

/// Asserts that a pass has all parts.
pub(super) fn assert_all_parts(rt: &impl Abort, pass: &Pass) {
    assert!(rt; pass.parts() == 64);
}

/// Asserts what has happened in a hall.
pub(super) fn assert_trail(rt: &impl Abort, hall: &Hall, events: &[Event]) {
    assert!(rt; hall.trail() == events);
}
