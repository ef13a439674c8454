//! What the lines of rules ask, and what is wrong with them.
use super::fixtures::{Asks, Fault, assert_asked, assert_refused};
use bl_policy::access::Mode;

#[test]
fn rules_and_their_checks(rt: HostRuntime) {
    const LINES: &[(&str, Asks)] = &[
        ("give cat memo r", Asks::Give(2, 0, Mode::Read)),
        ("current s", Asks::Current(2, 0)),
        ("current t", Asks::Current(3, 0)),
    ];
    assert_asked(&rt, rt.alloc(), LINES);
}

/// The lines of rules of the other worked examples.
#[test]
fn reads_the_rules_of_the_examples(rt: HostRuntime) {
    const LINES: &[(&str, Asks)] = &[
        ("current s{nato}", Asks::Current(2, 0b01)),
        ("rescind bob memo a", Asks::Rescind(1, 0, Mode::Append)),
        ("rescind ann memo r", Asks::Rescind(0, 0, Mode::Read)),
        ("classify note c", Asks::Classify(1, 1, 0)),
    ];
    assert_asked(&rt, rt.alloc(), LINES);
}

/// A letter is a name in every other place, and categories may come in any order.
#[test]
fn reads_rules_with_blanks(rt: HostRuntime) {
    const LINES: &[(&str, Asks)] = &[
        ("\tgive  root log w ", Asks::Give(3, 2, Mode::Write)),
        (
            "classify memo t { crypto ,nato } ",
            Asks::Classify(0, 3, 0b11),
        ),
    ];
    assert_asked(&rt, rt.alloc(), LINES);
    const REFUSED: &[(&str, Fault)] = &[("give r w a", Fault::Unknown("r"))];
    assert_refused(&rt, rt.alloc(), REFUSED);
}

#[test]
fn reads_what_creates_and_deletes(rt: HostRuntime) {
    const LINES: &[(&str, Asks)] = &[
        ("create memo", Asks::Create(0)),
        ("delete memo", Asks::Delete(0)),
        ("\tcreate  note ", Asks::Create(1)),
        ("delete\tlog", Asks::Delete(2)),
    ];
    assert_asked(&rt, rt.alloc(), LINES);
}

/// By the line's end, by a reserved word or a text for a name, by what stands behind the line, and by a word of setups
/// alone.
#[test]
fn places_a_fault_where_a_document_comes_or_goes(rt: HostRuntime) {
    const LINES: &[(&str, Fault)] = &[
        ("create", Fault::Syntax(6)),
        ("delete ", Fault::Syntax(7)),
        ("create delete", Fault::Syntax(7)),
        ("delete reserve", Fault::Syntax(7)),
        ("create \"memo\"", Fault::Syntax(7)),
        ("create memo note", Fault::Syntax(12)),
        ("delete memo u", Fault::Syntax(12)),
        ("delete memo;", Fault::Syntax(11)),
        ("give ann create r", Fault::Syntax(9)),
        ("reserve memo u", Fault::Syntax(0)),
    ];
    assert_refused(&rt, rt.alloc(), LINES);
}

/// By what is no letter, by a reserved word for a letter, by the line's end, and by what stands behind the line.
#[test]
fn places_a_fault_in_a_rule(rt: HostRuntime) {
    const LINES: &[(&str, Fault)] = &[
        ("give cat memo x", Fault::Syntax(14)),
        ("give cat memo read", Fault::Syntax(14)),
        ("rescind cat memo", Fault::Syntax(16)),
        ("give cat memo r w", Fault::Syntax(16)),
        ("give cat memo ra", Fault::Syntax(14)),
    ];
    assert_refused(&rt, rt.alloc(), LINES);
}

#[test]
fn places_a_fault_in_a_level(rt: HostRuntime) {
    const LINES: &[(&str, Fault)] = &[
        ("current", Fault::Syntax(7)),
        ("current s{}", Fault::Syntax(10)),
        ("current s{nato", Fault::Syntax(14)),
        ("current s{nato crypto}", Fault::Syntax(15)),
        ("classify note s nato", Fault::Syntax(16)),
        ("current s{nato}{nato}", Fault::Syntax(15)),
    ];
    assert_refused(&rt, rt.alloc(), LINES);
}

#[test]
fn tells_the_first_unknown_name_of_a_rule(rt: HostRuntime) {
    const LINES: &[(&str, Fault)] = &[
        ("give zed zip r", Fault::Unknown("zed")),
        ("give ann ann r", Fault::Unknown("ann")),
        ("classify memo nato{s}", Fault::Unknown("nato")),
        ("create zed", Fault::Unknown("zed")),
        ("delete ann", Fault::Unknown("ann")),
        ("current s{nato,nato,zed}", Fault::Unknown("zed")),
    ];
    assert_refused(&rt, rt.alloc(), LINES);
}

#[test]
fn tells_the_first_category_named_twice(rt: HostRuntime) {
    const LINES: &[(&str, Fault)] = &[
        ("current s{nato,crypto,crypto,nato}", Fault::Twice("crypto")),
        ("classify note u{nato,nato}", Fault::Twice("nato")),
    ];
    assert_refused(&rt, rt.alloc(), LINES);
}
