//! What is said where nothing is explained.
use crate::base::{BASE, asks, assert_says};
use bl_explaining::explain::explain_on;
use bl_question::question::Question;
use bl_wire::watched::Watched;
use std::io;
use std::io::Write;

/// The setup is read first, and its fault is told.
#[test]
fn no_setup(rt: HostRuntime) {
    let question = asks("nobody", &["read"]);
    assert_says(&rt, "rank u\n", &question, 3, "setup 1: syntax\n");
}

/// Then the subject is asked for.
#[test]
fn no_subject(rt: HostRuntime) {
    const QUESTION: Question<'static> = Question {
        path: "base.txt",
        carried: Some("v"),
        subject: "bop",
        wish: &["read"],
    };
    assert_says(&rt, BASE, &QUESTION, 2, "no subject `bop`\n");
}

/// Then the level that is carried.
#[test]
fn no_level(rt: HostRuntime) {
    const QUESTION: Question<'static> = Question {
        path: "base.txt",
        carried: Some("s{nat}"),
        subject: "bob",
        wish: &["read"],
    };
    assert_says(&rt, BASE, &QUESTION, 2, "no level `s{nat}`\n");
}

/// Then what is asked for: the place of a byte is one in its words.
#[test]
fn accesses_with_a_fault(rt: HostRuntime) {
    let words = "cannot say: unknown meno\n";
    assert_says(&rt, BASE, &asks("bob", &["read", "meno"]), 2, words);
    let words = "cannot say: syntax 9\n";
    assert_says(&rt, BASE, &asks("bob", &["read memo; show memo"]), 2, words);
    let words = "cannot say: syntax 4\n";
    assert_says(&rt, BASE, &asks("bob", &["read"]), 2, words);
}

#[test]
fn rules_with_a_fault(rt: HostRuntime) {
    let words = "cannot say: syntax 12\n";
    assert_says(&rt, BASE, &asks("root", &["create", "memo", "x"]), 2, words);
    let words = "cannot say: syntax 0\n";
    assert_says(&rt, BASE, &asks("root", &["wait"]), 2, words);
}

/// Takes no byte.
#[derive(Drop)]
struct TakesNothing {}

impl Write for TakesNothing {
    fn write(&mut self, _: &[u8]) -> io::Result<usize> {
        Ok(0)
    }

    fn flush(&mut self) -> io::Result<()> {
        Ok(())
    }
}

#[test]
fn names_a_fault_of_the_output(rt: HostRuntime) {
    let alloc = rt.alloc();
    let mut writer = Watched::new(TakesNothing {});
    let mut errors = Watched::new(Vec::new(alloc));
    let question = asks("bob", &["read memo"]);
    let status = explain_on(alloc, BASE.as_bytes(), &question, &mut writer, &mut errors);
    assert_eq!(rt; status, 3);
    assert!(rt; errors.into_inner().as_slice() == b"write fault\n".as_slice());
}
