//! A core over the base setup, and what the tests ask of it. A core is let go by `drop`, which is proved once for all
//! tests, and not at the end of a scope, where the proof takes it apart each time.
ghost use Rattle.std.specs.Prelude.{◌≡◌, Ok};

use bitflags::Flags;
use bl_core::machine::{Core, Started};
use bl_core::refusal::StartFault;
use bl_core::session::SessionNo;
use bl_eval::evaluate::eval;
use bl_eval::lent::{Done, Lent};
use bl_policy::access::{Mode, ModeSet};
use bl_policy::denial::{Clause, Denial};
use bl_policy::id::{DocId, SubjectId};
use bl_read::line::read_line;
use bl_setup::reader::read_setup;
use bl_setup::setup::Setup;
use bl_work::answer::Answer;
use bl_work::asked::Line;
use bl_work::document::Document;
use bl_work::work::Work;
use std::alloc::{AllocError, AllocGlobal, Global};
use std::process::Abort;

/// The subjects of the base setup, in order, and one that a further line may add.
pub(super) const ANN: u16 = 0;

pub(super) const BOB: u16 = 1;

pub(super) const ROOT: u16 = 3;

pub(super) const DAN: u16 = 4;

/// The documents of the base setup, in order.
pub(super) const MEMO: u16 = 0;

pub(super) const NOTE: u16 = 1;

pub(super) const LOG: u16 = 2;

/// The base setup around the memo's name and its content, which stand between these parts.
const RANKS_AND_SUBJECTS: &[u8] = b"ranks u c s t\n\
categories nato crypto\n\
subject ann greatest s{nato} current s{nato}\n\
subject bob greatest s{nato} current u\n\
subject cat greatest s{crypto} current s{crypto}\n\
subject root greatest t{nato,crypto} current u trusted admin\n\
document ";

const LEVEL: &[u8] = b" s{nato} \"";

const DOCUMENTS: &[u8] =
    b"\"\ndocument note u \"n1\"\ndocument log t{nato,crypto} \"\"\nallow ann ";

const MODES_OF_ANN: &[u8] = b" r w\nallow ann note r w\nallow ann log r a\nallow bob ";

const MODES_OF_BOB: &[u8] = b" r w a\nallow bob note r w\nallow cat ";

const MODES_OF_CAT_AND_ROOT: &[u8] = b" r\nallow root note r w\n";

/// `when read memo do show memo; end`
pub(super) const SHOW_MEMO: &str = "when read memo do show memo; end";

/// A line that spawns a reader of what it added to.
pub(super) const ADD_AND_SPAWN: &str =
    "when write memo do add memo \"a\"; spawn when read memo do show memo; end; end";

/// A line, behind the number of its subject.
pub(super) type Said<'a> = (u16, &'a str);

/// What came where no fault may come.
pub(super) fn right<T, E>(rt: &impl Abort, outcome: Result<T, E>) -> T
    ensures { outcome ≡ Ok result }
{
    match outcome {
        Ok(value) => value,
        Err(_fault) => panic!(rt; "a fault"),
    }
}

/// The text of the base setup with this name of the memo and this content, and with further lines.
pub(super) fn setup_text(
    alloc: Global,
    name: &[u8],
    content: &[u8],
    more: &[u8],
) -> Result<Vec<u8>, AllocError> {
    let parts = [
        RANKS_AND_SUBJECTS,
        name,
        LEVEL,
        content,
        DOCUMENTS,
        name,
        MODES_OF_ANN,
        name,
        MODES_OF_BOB,
        name,
        MODES_OF_CAT_AND_ROOT,
        more,
    ];
    let mut text = Vec::new(alloc);
    for part in parts {
        text.extend_from_slice(part)?;
    }
    Ok(text)
}

/// The base setup; none where a growth is refused.
pub(super) fn base_or_none(alloc: Global) -> Option<Setup> {
    let text = setup_text(alloc, b"memo", b"m1", b"").ok()?;
    read_setup(alloc, &text).ok()
}

/// The base setup with this name of the memo and this content, and with further lines.
pub(super) fn setup_with<R: AllocGlobal + Abort>(
    rt: &R,
    name: &[u8],
    content: &[u8],
    more: &[u8],
) -> Setup {
    let text = right(rt, setup_text(rt.alloc(), name, content, more));
    right(rt, read_setup(rt.alloc(), &text))
}

/// The base setup.
pub(super) fn base<R: AllocGlobal + Abort>(rt: &R) -> Setup {
    setup_with(rt, b"memo", b"m1", b"")
}

/// A core over a setup, where each subject has a session of its number.
pub(super) fn core_over<R: AllocGlobal + Abort>(rt: &R, setup: Setup) -> Core {
    let mut core = right(rt, Core::new(rt.alloc(), setup, 100));
    open_for_all(&mut core);
    core
}

/// A core over the base setup, where each subject has a session of its number.
pub(super) fn base_core<R: AllocGlobal + Abort>(rt: &R) -> Core {
    core_over(rt, base(rt))
}

/// Opens a session for each subject.
pub(super) fn open_for_all(core: &mut Core) {
    let subjects = core.setup().policy().subjects() as u16;
    for subject in 0..subjects {
        let _session = core.open(SubjectId::new(subject));
    }
}

/// What a line of a setup asks.
pub(super) fn work_of<R: AllocGlobal + Abort>(rt: &R, setup: &Setup, text: &[u8]) -> Work {
    match right(rt, read_line(rt.alloc(), setup.names(), text)) {
        Line::Work(work) => work,
        Line::Hello(_) | Line::Wait => panic!(rt; "no work"),
    }
}

/// Admits a line in the session of a number, and gives its place.
pub(super) fn admit<R: AllocGlobal + Abort>(
    rt: &R,
    core: &mut Core,
    session: u16,
    ordinal: u32,
    text: &str,
) -> u32 {
    let work = work_of(rt, core.setup(), text.as_bytes());
    right(
        rt,
        core.line(SessionNo::new(u32::from(session)), ordinal, work),
    )
}

/// Admits lines, each in the session of its subject, and gives how many they are.
pub(super) fn admit_all<R: AllocGlobal + Abort>(
    rt: &R,
    core: &mut Core,
    lines: &[Said<'_>],
) -> u32 {
    let mut ordinal = 0_u32;
    for (subject, text) in lines {
        ordinal = ordinal.saturating_add(1);
        admit(rt, core, *subject, ordinal, text);
    }
    ordinal
}

/// Starts an entry that may start.
pub(super) fn started(rt: &impl Abort, core: &mut Core, n: u32) -> Started {
    right(rt, core.start(n))
}

/// What an entry that may run is lent.
pub(super) fn lent_to(rt: &impl Abort, core: &mut Core, n: u32) -> Lent {
    match started(rt, core, n) {
        Started::Run(lent) => lent,
        Started::Denied(_) | Started::RuleDone => panic!(rt; "nothing lent"),
    }
}

/// What is done with what was lent.
pub(super) fn done_of<R: AllocGlobal + Abort>(rt: &R, lent: Lent) -> Done {
    match eval(rt.alloc(), lent) {
        Ok(done) => done,
        Err(_unrun) => panic!(rt; "no memory"),
    }
}

/// Ends an entry with what was done.
pub(super) fn finish(rt: &impl Abort, core: &mut Core, done: Done) {
    match core.finish(done) {
        Ok(()) => {}
        Err(_foreign) => panic!(rt; "foreign"),
    }
}

/// Starts an entry that may start, and ends it where it runs.
pub(super) fn run<R: AllocGlobal + Abort>(rt: &R, core: &mut Core, n: u32) {
    match started(rt, core, n) {
        Started::Run(lent) => finish(rt, core, done_of(rt, lent)),
        Started::Denied(_) | Started::RuleDone => {}
    }
}

/// Whether an entry may not start, as its start says.
pub(super) fn is_not_ready(rt: &impl Abort, core: &mut Core, n: u32) -> bool {
    match core.start(n) {
        Ok(_started) => panic!(rt; "started"),
        Err(StartFault::NotReady) => true,
        Err(StartFault::Memory(_)) => false,
    }
}

/// Whether just these texts were shown.
fn are_shown(shown: &[Document], texts: &[&str]) -> bool {
    for (n, text) in texts.iter().enumerate() {
        match shown.get(n) {
            Some(shown) if shown.bytes() == text.as_bytes() => {}
            _ => return false,
        }
    }
    shown.len() == texts.len()
}

/// Whether an answer is that of an entry that is done, and showed these texts.
pub(super) fn has_shown(answer: &Answer, texts: &[&str]) -> bool {
    match answer {
        Answer::Done(outputs) => are_shown(outputs.texts(), texts),
        _ => false,
    }
}

/// Whether an entry is done, and showed these texts.
pub(super) fn is_done(core: &Core, n: u32, texts: &[&str]) -> bool {
    match core.answer(n) {
        Some(answer) => has_shown(answer, texts),
        None => false,
    }
}

/// Whether an entry is lost.
pub(super) fn is_lost(core: &Core, n: u32) -> bool {
    matches!(core.answer(n), Some(Answer::Lost))
}

/// Whether an entry is a rule that is done.
pub(super) fn is_made(core: &Core, n: u32) -> bool {
    matches!(core.answer(n), Some(Answer::RuleDone))
}

/// Whether an entry is denied so.
pub(super) fn is_denied(core: &Core, n: u32, clause: Clause, subject: u16, doc: u16) -> bool {
    let denial = Denial {
        clause,
        subject: SubjectId::new(subject),
        object: Some(DocId::new(doc)),
    };
    match core.answer(n) {
        Some(Answer::Denied(said)) => *said == denial,
        _ => false,
    }
}

/// Whether a document is not lent exclusively, and has this content.
pub(super) fn has(core: &Core, doc: u16, content: &str) -> bool {
    if doc as usize >= core.setup().contents().len() {
        return false;
    }
    match core.content(DocId::new(doc)) {
        Some(kept) => kept.bytes() == content.as_bytes(),
        None => false,
    }
}

/// The set of these modes.
fn set_of(modes: &[Mode]) -> ModeSet {
    let mut set = ModeSet::empty();
    for mode in modes {
        set = set.union((*mode).into());
    }
    set
}

/// Whether the policy has just these modes of a subject and a document.
pub(super) fn has_modes(core: &Core, subject: u16, doc: u16, modes: &[Mode]) -> bool {
    let policy = core.policy();
    if subject as usize >= policy.subjects() || doc as usize >= policy.documents() {
        return false;
    }
    policy.cell(SubjectId::new(subject), DocId::new(doc)) == set_of(modes)
}

/// Whether a document is present now.
pub(super) fn is_there(core: &Core, doc: u16) -> bool {
    let policy = core.policy();
    (doc as usize) < policy.documents() && policy.is_present(DocId::new(doc))
}
