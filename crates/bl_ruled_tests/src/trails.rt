//! Trails with rules, and others.
use bl_explain::since::Applied;
use bl_level::level::Level;
use bl_policy::access::Mode;
use bl_policy::id::{DocId, SubjectId};
use bl_policy::rule::Rule;
use bl_ruled::ruled::{Front, rules_before, rules_by};
use bl_setup::reader::read_setup;
use bl_setup::setup::Setup;
use bl_trail::verdict::Verdict;
use std::alloc::{AllocGlobal, Global};
use std::process::Abort;
use std::test::Fail;

/// A setup with an administrator.
const SETUP: &[u8] = b"ranks u s\ncategories nato\n\
    subject bob greatest s{nato} current u\n\
    subject root greatest s{nato} current u trusted admin\n\
    document memo s{nato} \"m1\"\n\
    allow bob memo r\n";

/// Bob is denied, raises his level, and is no administrator; root takes his right: three rules, of which one is refused.
const THREE_RULES: &str = "trail 2\nlimit 9\nopen bob\nopen root\n\
    line 0 1 when read memo do show memo;end\nstart 0 denied star bob memo\n\
    line 0 2 current s{nato}\nstart 1 rule\n\
    line 0 3 give bob memo w\nline 1 1 rescind bob memo r\nstart 2 denied admin bob memo\nstart 3 rule\n\
    line 0 4 when read memo do show memo;end\nstart 4 denied discretionary bob memo\nstop\n";

fn setup(alloc: Global) -> Result<Setup, Fail> {
    match read_setup(alloc, SETUP) {
        Ok(setup) => Ok(setup),
        Err(_fault) => Err(Fail::new("no setup")),
    }
}

/// Asserts the verdict on a trail, and the rules of its run.
fn assert_rules<R: AllocGlobal + Abort>(
    rt: &R,
    trail: &str,
    verdict: Verdict,
    rules: &[Applied],
) -> Result<(), Fail> {
    let setup = setup(rt.alloc())?;
    let ruled = rules_by(rt.alloc(), &setup, trail.as_bytes());
    drop(setup);
    let ruled = ruled?;
    assert_eq!(rt; ruled.verdict, verdict);
    assert!(rt; ruled.rules.as_slice() == rules);
    Ok(())
}

/// Asserts the rules of the first so many events of a trail.
fn assert_front<R: AllocGlobal + Abort>(
    rt: &R,
    trail: &str,
    events: u64,
    rules: &[Applied],
) -> Result<(), Fail> {
    let setup = setup(rt.alloc())?;
    let front = rules_before(rt.alloc(), &setup, trail.as_bytes(), events);
    drop(setup);
    match front? {
        Front::Right(found) => assert!(rt; found.as_slice() == rules, "{events}"),
        Front::Fewer => assert!(rt; false, "fewer than {events}"),
        Front::Wrong(line) => assert!(rt; false, "wrong at line {line}"),
    }
    Ok(())
}

/// Asserts that a trail is accepted and has fewer events.
fn assert_fewer<R: AllocGlobal + Abort>(rt: &R, trail: &str, events: u64) -> Result<(), Fail> {
    let setup = setup(rt.alloc())?;
    let front = rules_before(rt.alloc(), &setup, trail.as_bytes(), events);
    drop(setup);
    assert!(rt; matches!(front?, Front::Fewer), "{events}");
    Ok(())
}

/// Asserts at which line a trail is wrong that is asked for so many events.
fn assert_wrong<R: AllocGlobal + Abort>(
    rt: &R,
    trail: &str,
    events: u64,
    line: u64,
) -> Result<(), Fail> {
    let setup = setup(rt.alloc())?;
    let front = rules_before(rt.alloc(), &setup, trail.as_bytes(), events);
    drop(setup);
    match front? {
        Front::Wrong(found) => assert_eq!(rt; found, line),
        Front::Right(_) => assert!(rt; false, "{events} are right"),
        Front::Fewer => assert!(rt; false, "fewer than {events}"),
    }
    Ok(())
}

/// A rule of bob, who is the first subject, or of root, who is the second one.
fn applied(event: u64, speaker: u16, rule: Rule) -> Applied {
    Applied {
        event,
        speaker: SubjectId::new(speaker),
        rule,
    }
}

/// What the trail of two subjects applies.
fn three_rules() -> [Applied; 3] {
    let (subject, doc) = (SubjectId::new(0), DocId::new(0));
    let level = Level::new(1, 1).unwrap();
    [
        applied(6, 0, Rule::Current { level }),
        applied(
            9,
            0,
            Rule::Give {
                subject,
                doc,
                mode: Mode::Write,
            },
        ),
        applied(
            10,
            1,
            Rule::Rescind {
                subject,
                doc,
                mode: Mode::Read,
            },
        ),
    ]
}

#[test]
fn rules_of_two_subjects(rt: HostRuntime) -> Result<(), Fail> {
    assert_rules(&rt, THREE_RULES, Verdict::Accepted(12), &three_rules())
}

/// A rule is applied at its start: neither before it, nor as its line is admitted.
#[test]
fn rules_of_fronts(rt: HostRuntime) -> Result<(), Fail> {
    let rules = three_rules();
    assert_front(&rt, THREE_RULES, 0, &[])?;
    assert_front(&rt, THREE_RULES, 5, &[])?;
    assert_front(&rt, THREE_RULES, 6, &rules[..1])?;
    assert_front(&rt, THREE_RULES, 8, &rules[..1])?;
    assert_front(&rt, THREE_RULES, 9, &rules[..2])?;
    assert_front(&rt, THREE_RULES, 12, &rules)?;
    assert_fewer(&rt, THREE_RULES, 13)
}

/// What stands behind the events that are asked for is not looked at.
#[test]
fn fronts_of_wrong_trails(rt: HostRuntime) -> Result<(), Fail> {
    let level = Level::new(1, 1).unwrap();
    let rules = [applied(3, 0, Rule::Current { level })];
    let wrong =
        "trail 2\nlimit 9\nopen bob\nline 0 1 current s{nato}\nstart 0 rule\nopen nobody\nstop\n";
    assert_front(&rt, wrong, 3, &rules)?;
    assert_wrong(&rt, wrong, 4, 6)?;
    assert_wrong(&rt, wrong, 9, 6)?;
    let open = "trail 2\nlimit 9\nopen bob\nline 0 1 cur";
    assert_front(&rt, open, 1, &[])?;
    assert_wrong(&rt, open, 2, 4)?;
    let behind_stop = "trail 2\nlimit 9\nopen bob\nstop\nopen bob\n";
    assert_front(&rt, behind_stop, 1, &[])?;
    assert_wrong(&rt, behind_stop, 2, 5)?;
    assert_wrong(&rt, "trail 3\n", 0, 1)
}

#[test]
fn nothing_of_a_wrong_trail(rt: HostRuntime) -> Result<(), Fail> {
    let trail =
        "trail 2\nlimit 9\nopen bob\nline 0 1 current s{nato}\nstart 0 rule\nopen nobody\nstop\n";
    assert_rules(&rt, trail, Verdict::Rejected(6), &[])?;
    assert_rules(&rt, "trail 3\n", Verdict::Rejected(1), &[])
}

/// A child applies no rule, nor does a line that is lost before its start.
#[test]
fn lost_before_its_start(rt: HostRuntime) -> Result<(), Fail> {
    let trail = "trail 2\nlimit 9\nopen bob\nline 0 1 current s{nato}\nlost 0\nstop\n";
    assert_rules(&rt, trail, Verdict::Accepted(3), &[])
}
