//! Which entries may start.
use super::base::{
    ANN, MEMO, ROOT, SHOW_MEMO, Said, admit, admit_all, base_core, done_of, finish, has, is_done,
    lent_to, right, run,
};
use bl_core::machine::Core;
use bl_policy::access::Mode;
use bl_policy::id::SubjectId;
use std::alloc::AllocGlobal;
use std::process::Abort;

/// Memo is read, written and read again; note is read; then comes a rule.
const READERS_AND_A_WRITER: &[Said<'_>] = &[
    (ANN, SHOW_MEMO),
    (ANN, "when write memo do end"),
    (ANN, SHOW_MEMO),
    (ANN, "when read note do show note; end"),
    (ROOT, "current u"),
];

/// Whether just the entries of these numbers may start, of which one is named.
fn may_start(core: &Core, ready: &[u32]) -> bool {
    for n in 0..6 {
        if core.is_ready(n) != ready.contains(&n) {
            return false;
        }
    }
    match core.ready() {
        Some(n) => ready.contains(&n),
        None => ready.is_empty(),
    }
}

/// Runs these entries in turn.
fn run_each<R: AllocGlobal + Abort>(rt: &R, core: &mut Core, entries: &[u32]) {
    for n in entries {
        run(rt, core, *n);
    }
}

/// Runs entries, and asserts which may start then, turn after turn.
fn assert_turns<R: AllocGlobal + Abort>(rt: &R, core: &mut Core, turns: &[(&[u32], &[u32])]) {
    for (n, (entries, ready)) in turns.iter().enumerate() {
        run_each(rt, core, entries);
        assert!(rt; may_start(core, ready), "turn {n}");
    }
}

#[test]
fn who_may_start(rt: HostRuntime) {
    // Entries that run, and those that may start then.
    const TURNS: &[(&[u32], &[u32])] = &[
        (&[], &[0, 3]),
        (&[0], &[1, 3]),
        (&[1, 3], &[2]),
        (&[2], &[4]),
    ];
    let mut core = base_core(&rt);
    admit_all(&rt, &mut core, READERS_AND_A_WRITER);
    assert_turns(&rt, &mut core, TURNS);
    drop(core);
}

/// Two readers of memo hold it together, and the second ends before the first.
#[test]
fn two_readers_hold_together(rt: HostRuntime) {
    const LINES: &[Said<'_>] = &[(ANN, SHOW_MEMO), (ANN, SHOW_MEMO)];
    let mut core = base_core(&rt);
    admit_all(&rt, &mut core, LINES);
    let first = lent_to(&rt, &mut core, 0);
    let second = lent_to(&rt, &mut core, 1);
    assert!(rt; has(&core, MEMO, "m1"));
    finish(&rt, &mut core, done_of(&rt, second));
    assert!(rt; is_done(&core, 1, &["m1"]));
    finish(&rt, &mut core, done_of(&rt, first));
    assert!(rt; is_done(&core, 0, &["m1"]));
    drop(core);
}

/// Whether just so many reads of memo by ann are held.
fn are_held(core: &Core, count: usize) -> bool {
    let mut found = 0_usize;
    for (subject, doc, mode) in core.held() {
        if subject.position() != ANN || doc.position() != MEMO || mode != Mode::Read {
            return false;
        }
        found = found.saturating_add(1);
    }
    found == count
}

/// Two sessions of ann read memo side by side: both hold it while both run.
#[test]
fn two_sessions_read_together(rt: HostRuntime) {
    let mut core = base_core(&rt);
    let other = right(&rt, core.open(SubjectId::new(ANN))).number() as u16;
    admit(&rt, &mut core, ANN, 1, SHOW_MEMO);
    admit(&rt, &mut core, other, 1, SHOW_MEMO);
    let first = lent_to(&rt, &mut core, 0);
    assert!(rt; are_held(&core, 1));
    let second = lent_to(&rt, &mut core, 1);
    assert!(rt; are_held(&core, 2));
    finish(&rt, &mut core, done_of(&rt, first));
    finish(&rt, &mut core, done_of(&rt, second));
    assert!(rt; are_held(&core, 0));
    drop(core);
}
