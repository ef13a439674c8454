//! What a behaviour carries: nothing goes below the levels at which its parents ran.
use super::base::{BOB, NOTE, ROOT};
use super::entries::{Answered, Entry, Fact, assert_entries};
use bl_policy::denial::Clause;

/// The ranks of the base setup, and its categories as sets.
const U: u8 = 0;

const S: u8 = 2;

const T: u8 = 3;

const NATO: u32 = 1;

const NATO_AND_CRYPTO: u32 = 3;

#[test]
fn child_may_not_carry_down(rt: HostRuntime) {
    const ENTRIES: &[Entry] = &[
        Entry::Line(BOB, "current s{nato}", Answered::Rules),
        Entry::Line(
            BOB,
            "when read memo do spawn when write note do add note \"x\"; end; end",
            Answered::Shows(&[]),
        ),
        Entry::Line(BOB, "current u", Answered::Rules),
        Entry::Child(BOB, Answered::Denied(Clause::Carry, NOTE)),
    ];
    const FACTS: &[Fact] = &[Fact::Content(NOTE, "n1")];
    assert_entries(&rt, ENTRIES, FACTS);
}

#[test]
fn grandchild_may_not_carry_down(rt: HostRuntime) {
    const ENTRIES: &[Entry] = &[
        Entry::Line(BOB, "current s{nato}", Answered::Rules),
        Entry::Line(
            BOB,
            "when read memo do spawn when read note do spawn when write note do end; end; end",
            Answered::Shows(&[]),
        ),
        Entry::Line(BOB, "current u", Answered::Rules),
        Entry::Child(BOB, Answered::Shows(&[])),
        Entry::Child(BOB, Answered::Denied(Clause::Carry, NOTE)),
    ];
    assert_entries(&rt, ENTRIES, &[]);
}

#[test]
fn trusted_may_carry_down(rt: HostRuntime) {
    const ENTRIES: &[Entry] = &[
        Entry::Line(ROOT, "current t", Answered::Rules),
        Entry::Line(
            ROOT,
            "when read note do spawn when write note do add note \"x\"; end; end",
            Answered::Shows(&[]),
        ),
        Entry::Line(ROOT, "current u", Answered::Rules),
        Entry::Child(ROOT, Answered::Shows(&[])),
    ];
    const FACTS: &[Fact] = &[Fact::Carries(3, T, 0), Fact::Content(NOTE, "n1x")];
    assert_entries(&rt, ENTRIES, FACTS);
}

/// The child runs at another level than its parent did, and neither dominates the other: the grandchild carries the
/// least level that dominates both.
#[test]
fn grandchild_carries_both_levels(rt: HostRuntime) {
    const ENTRIES: &[Entry] = &[
        Entry::Line(ROOT, "current s{nato}", Answered::Rules),
        Entry::Line(
            ROOT,
            "when read note do spawn when read note do spawn when read note do end; end; end",
            Answered::Shows(&[]),
        ),
        Entry::Line(ROOT, "current c{crypto}", Answered::Rules),
        Entry::Child(ROOT, Answered::Shows(&[])),
    ];
    const FACTS: &[Fact] = &[
        Fact::Carries(1, U, 0),
        Fact::Carries(3, S, NATO),
        Fact::Carries(4, S, NATO_AND_CRYPTO),
        Fact::NoEntry(5),
    ];
    assert_entries(&rt, ENTRIES, FACTS);
}
