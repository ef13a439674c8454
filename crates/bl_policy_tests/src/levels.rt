//! Levels, and which dominates which.
use bl_level::level::Level;
use std::process::Abort;

/// A rank and a bit for each category.
type Label = (u8, u32);

const SECRET: Label = (2, 0b01);

const TOP: Label = (15, 0b10);

/// The rank of top, and each category.
const BOTH: Label = (15, 0b11);

/// What holds of levels.
#[derive(Clone, Copy)]
enum Fact {
    /// There is no level of this rank.
    NoRank(u8),
    /// A level has this rank and these categories.
    Has(Label),
    /// The first dominates the second.
    Dominates(Label, Label),
    /// The first does not dominate the second.
    DoesNotDominate(Label, Label),
    /// The last is the least that dominates the others.
    Join(Label, Label, Label),
}

fn level_of(label: Label) -> Option<Level> {
    Level::new(label.0, label.1)
}

/// Whether a level has the rank and the categories that it was made of.
fn has(label: Label) -> bool {
    match level_of(label) {
        Some(level) => (level.rank(), level.categories()) == label,
        None => false,
    }
}

/// Whether the first dominates the second; none where one is no level.
fn dominates(label: Label, other: Label) -> Option<bool> {
    Some(level_of(label)?.dominates(&level_of(other)?))
}

/// The least level that dominates both.
fn join(label: Label, other: Label) -> Option<Level> {
    Some(level_of(label)?.join(&level_of(other)?))
}

fn holds(fact: Fact) -> bool {
    match fact {
        Fact::NoRank(rank) => level_of((rank, 0)).is_none(),
        Fact::Has(label) => has(label),
        Fact::Dominates(label, other) => dominates(label, other) == Some(true),
        Fact::DoesNotDominate(label, other) => dominates(label, other) == Some(false),
        Fact::Join(label, other, both) => {
            level_of(both).is_some() && join(label, other) == level_of(both)
        }
    }
}

fn assert_facts(rt: &impl Abort, facts: &[Fact]) {
    for (n, fact) in facts.iter().enumerate() {
        assert!(rt; holds(*fact), "fact {n}");
    }
}

/// Top lacks a category of secret, and secret is below it.
#[test]
fn levels(rt: HostRuntime) {
    const FACTS: &[Fact] = &[
        Fact::NoRank(16),
        Fact::Has(TOP),
        Fact::DoesNotDominate(TOP, SECRET),
        Fact::DoesNotDominate(SECRET, TOP),
        Fact::Join(SECRET, TOP, BOTH),
        Fact::Dominates(BOTH, SECRET),
        Fact::Dominates(BOTH, TOP),
        Fact::Dominates(BOTH, BOTH),
    ];
    assert_facts(&rt, FACTS);
}
