//! The texts of rules, and which rules have one.
use super::fixtures::{Asks, base_names, is_known_by, rule_of};
use super::write::assert_written;
use bl_policy::access::Mode;
use bl_script::work::Work;
use std::alloc::Global;
use std::process::Abort;

/// Whether some text reads as the rule; none where a growth is refused.
fn is_known(alloc: Global, asks: Asks) -> Option<bool> {
    let work = Work::Rule(rule_of(asks)?);
    Some(is_known_by(base_names(alloc)?, &work))
}

/// Asserts of each rule whether some text reads as it.
fn assert_known(rt: &impl Abort, alloc: Global, rules: &[(Asks, bool)]) {
    for (n, (asks, known)) in rules.iter().enumerate() {
        assert!(rt; is_known(alloc, *asks) == Some(*known), "rule {n}");
    }
}

#[test]
fn writes_a_right(rt: HostRuntime) {
    const LINES: &[(&str, &str)] = &[
        (" give ann\tmemo  r ", "give ann memo r"),
        ("rescind bob memo a", "rescind bob memo a"),
    ];
    assert_written(&rt, rt.alloc(), LINES);
}

/// The scheme has nato before crypto.
#[test]
fn writes_categories_in_order(rt: HostRuntime) {
    const LINES: &[(&str, &str)] = &[("current s { crypto , nato }", "current s{nato,crypto}")];
    assert_written(&rt, rt.alloc(), LINES);
}

#[test]
fn writes_a_level(rt: HostRuntime) {
    const LINES: &[(&str, &str)] = &[
        ("classify memo u", "classify memo u"),
        ("classify log t{crypto }", "classify log t{crypto}"),
    ];
    assert_written(&rt, rt.alloc(), LINES);
}

#[test]
fn writes_what_creates_and_deletes(rt: HostRuntime) {
    const LINES: &[(&str, &str)] = &[
        (" create\tmemo ", "create memo"),
        ("delete  log", "delete log"),
    ];
    assert_written(&rt, rt.alloc(), LINES);
}

/// There are four subjects and three documents.
#[test]
fn knows_rights_whose_names_are_there(rt: HostRuntime) {
    const RULES: &[(Asks, bool)] = &[
        (Asks::Give(3, 2, Mode::Write), true),
        (Asks::Give(4, 2, Mode::Write), false),
        (Asks::Give(3, 3, Mode::Write), false),
    ];
    assert_known(&rt, rt.alloc(), RULES);
}

/// There are three documents.
#[test]
fn knows_documents_that_come_and_go(rt: HostRuntime) {
    const RULES: &[(Asks, bool)] = &[
        (Asks::Create(2), true),
        (Asks::Create(3), false),
        (Asks::Delete(2), true),
        (Asks::Delete(3), false),
    ];
    assert_known(&rt, rt.alloc(), RULES);
}

/// There are four ranks and two categories.
#[test]
fn knows_levels_that_are_held(rt: HostRuntime) {
    const RULES: &[(Asks, bool)] = &[
        (Asks::Current(3, 0b11), true),
        (Asks::Current(4, 0), false),
        (Asks::Current(0, 0b100), false),
        (Asks::Classify(2, 0, 0), true),
        (Asks::Classify(3, 0, 0), false),
    ];
    assert_known(&rt, rt.alloc(), RULES);
}
