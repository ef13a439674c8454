//! What comes of it where a growth is refused. With ample memory each test here passes by its rules alone. It passes
//! whatever single growth is refused too: `bench/checks/growths` refuses each in turn, and tells so by a file.
use bl_ruled::ruled::{Front, rules_before, rules_by};
use bl_setup::reader::read_setup;
use bl_trail::verdict::Verdict;
use std::fs;
use std::io::Print;
use std::rt::Files;

/// A setup of one subject.
const SETUP: &[u8] = b"ranks u s\ncategories\nsubject ann greatest s current u\n";

/// A trail with two rules.
const TRAIL: &[u8] = b"trail 2\nlimit 9\nopen ann\nline 0 1 current s\nline 0 2 current u\n\
    start 0 rule\nstart 1 rule\nstop\n";

/// Whether a growth was refused so far: who refuses one writes this file then, in the folder where the test runs.
fn was_refused(rt: &impl Files) -> bool {
    !matches!(fs::exists(rt, "refused"), Ok(false))
}

/// Says what came of a call.
fn say(rt: &impl Print, came: &str) {
    let _ = println!(rt; "{came}");
}

#[test]
fn two_rules(rt: HostRuntime) {
    let Ok(setup) = read_setup(rt.alloc(), SETUP) else {
        assert!(rt; was_refused(&rt), "no setup");
        return say(&rt, "before");
    };
    let before = was_refused(&rt);
    let ruled = rules_by(rt.alloc(), &setup, TRAIL);
    drop(setup);
    match ruled {
        Ok(ruled) => {
            assert_eq!(rt; ruled.verdict, Verdict::Accepted(5));
            assert_eq!(rt; ruled.rules.len(), 2);
            drop(ruled);
            say(&rt, "own");
        }
        Err(_refused) => {
            assert!(rt; !before && was_refused(&rt), "no growth was refused");
            say(&rt, "out of memory");
        }
    }
}

#[test]
fn one_front(rt: HostRuntime) {
    let Ok(setup) = read_setup(rt.alloc(), SETUP) else {
        assert!(rt; was_refused(&rt), "no setup");
        return say(&rt, "before");
    };
    let before = was_refused(&rt);
    let front = rules_before(rt.alloc(), &setup, TRAIL, 4);
    drop(setup);
    match front {
        Ok(Front::Right(rules)) => {
            assert_eq!(rt; rules.len(), 1);
            drop(rules);
            say(&rt, "own");
        }
        Ok(Front::Fewer | Front::Wrong(_)) => assert!(rt; false, "four events are right"),
        Err(_refused) => {
            assert!(rt; !before && was_refused(&rt), "no growth was refused");
            say(&rt, "out of memory");
        }
    }
}
