//! What a session answers where a growth is refused. With ample memory each test here passes by the session's own
//! output alone. It passes whatever single growth is refused too: `bench/checks/growths` refuses each in turn, and
//! tells so by a file.
use crate::base;
use crate::base::{RESERVED, setup_or_none};
use bl_wire::fault::SessionFault;
use std::alloc::AllocGlobal;
use std::fs;
use std::io::Print;
use std::process::Abort;
use std::rt::Files;

/// How a session ended, what it wrote, and whether a growth was refused in it.
#[derive(Drop)]
struct Ended {
    result: Result<(), SessionFault>,
    written: Vec<u8>,
    refused: bool,
}

/// Whether a growth was refused so far: who refuses one writes this file then, in the folder where the test runs.
fn was_refused(rt: &impl Files) -> bool {
    !matches!(fs::exists(rt, "refused"), Ok(false))
}

/// Serves a session over the base setup, with these lines after it, to a writer that needs no growth; nothing where a
/// growth is refused before it begins.
fn serve<R: AllocGlobal + Files>(rt: &R, more: &str, input: &str) -> Option<Ended> {
    let room = Vec::with_capacity(rt.alloc(), 1_000).ok()?;
    let setup = setup_or_none(rt.alloc(), more)?;
    let before = was_refused(rt);
    let ended = base::serve(rt.alloc(), setup, 10_000, input.as_bytes(), room);
    Some(Ended {
        result: ended.result,
        written: ended.writer,
        refused: !before && was_refused(rt),
    })
}

/// Which one entry is lost, where the session wrote what it has to then.
fn lost_in<'a>(written: &[u8], one_lost: &[(&'a str, &str)]) -> Option<&'a str> {
    for (lost, text) in one_lost {
        if written == text.as_bytes() {
            return Some(*lost);
        }
    }
    None
}

/// What became of a session. It has its own output; or, where a growth was refused in it, it ended out of memory after
/// a first part of that, or just one entry is lost. Nothing where it is none of these.
fn came_of<'a>(ended: &Ended, whole: &str, one_lost: &[(&'a str, &str)]) -> Option<&'a str> {
    let written = ended.written.as_slice();
    match ended.result {
        Ok(()) if written == whole.as_bytes() => Some("own"),
        Ok(()) if ended.refused => lost_in(written, one_lost),
        Err(SessionFault::Memory) if ended.refused && whole.as_bytes().starts_with(written) => {
            Some("out of memory")
        }
        Ok(()) | Err(_) => None,
    }
}

/// What became of a session over the base setup, with these lines after it. Nothing where that may not be.
fn came<'a, R: AllocGlobal + Files>(
    rt: &R,
    more: &str,
    input: &str,
    whole: &str,
    one_lost: &[(&'a str, &str)],
) -> Option<&'a str> {
    match serve(rt, more, input) {
        Some(ended) => {
            let came = came_of(&ended, whole, one_lost);
            drop(ended);
            came
        }
        None if was_refused(rt) => Some("before"),
        None => None,
    }
}

/// Asserts that a session over the base setup, with these lines after it, writes this where nothing is lost, and one of
/// these where one growth is refused and loses an entry; says what became of it.
fn assert_outlasts<R: AllocGlobal + Abort + Files + Print>(
    rt: &R,
    more: &str,
    input: &str,
    whole: &str,
    one_lost: &[(&str, &str)],
) {
    match came(rt, more, input, whole, one_lost) {
        Some(came) => {
            let _ = println!(rt; "{came}");
        }
        None => panic!(rt; "another end"),
    }
}

#[test]
fn read_one(rt: HostRuntime) {
    let input = "hello ann\nwhen read memo do show memo; end\nwait\n";
    let whole = "ok\n1 done \"m1\"\nok\nbye\n";
    const ONE_LOST: &[(&str, &str)] = &[("1 lost", "ok\n1 lost\nok\nbye\n")];
    assert_outlasts(&rt, "", input, whole, ONE_LOST);
}

/// A parent that is lost has no child, and what is lost has added nothing. The child enters after the second line.
#[test]
fn child_enters_after_admitted_line(rt: HostRuntime) {
    let input = "hello ann\n\
        when write memo do add memo \"a\"; spawn when read memo do show memo; end; end\n\
        when write memo do add memo \"b\"; end\n\
        wait\n";
    let whole = "ok\n1 done\n1.1 done \"m1ab\"\n2 done\nok\nbye\n";
    const ONE_LOST: &[(&str, &str)] = &[
        ("1 lost", "ok\n1 lost\n2 done\nok\nbye\n"),
        ("1.1 lost", "ok\n1 done\n1.1 lost\n2 done\nok\nbye\n"),
        ("2 lost", "ok\n1 done\n1.1 done \"m1a\"\n2 lost\nok\nbye\n"),
    ];
    assert_outlasts(&rt, "", input, whole, ONE_LOST);
}

#[test]
fn choose_and_pour(rt: HostRuntime) {
    let input = "hello ann\n\
        when read note, write memo do \
        if note is \"n1\" then pour note to memo; else set memo \"no\"; end; \
        show memo; if memo has \"1n\" then say \"yes\"; end; end\n";
    let whole = "ok\n1 done \"m1n1\" \"yes\"\nbye\n";
    const ONE_LOST: &[(&str, &str)] = &[("1 lost", "ok\n1 lost\nbye\n")];
    assert_outlasts(&rt, "", input, whole, ONE_LOST);
}

/// A rule that is lost changes nothing: without the second the last line finds ann at the memo's level.
#[test]
fn rules_and_their_checks(rt: HostRuntime) {
    let input = "hello ann\ngive cat memo r\ncurrent s\ncurrent t\nwhen write memo do end\n";
    let whole =
        "ok\n1 denied admin ann memo\n2 done\n3 denied greatest ann\n4 denied star ann memo\nbye\n";
    const ONE_LOST: &[(&str, &str)] = &[
        (
            "1 lost",
            "ok\n1 lost\n2 done\n3 denied greatest ann\n4 denied star ann memo\nbye\n",
        ),
        (
            "2 lost",
            "ok\n1 denied admin ann memo\n2 lost\n3 denied greatest ann\n4 done\nbye\n",
        ),
        (
            "3 lost",
            "ok\n1 denied admin ann memo\n2 done\n3 lost\n4 denied star ann memo\nbye\n",
        ),
        (
            "4 lost",
            "ok\n1 denied admin ann memo\n2 done\n3 denied greatest ann\n4 lost\nbye\n",
        ),
    ];
    assert_outlasts(&rt, "", input, whole, ONE_LOST);
}

/// Without the first rule bob may not read the memo, and without the last the child runs at a level at which it may not
/// write the note.
#[test]
fn child_may_not_carry_down(rt: HostRuntime) {
    let input = "hello bob\n\
        current s{nato}\n\
        when read memo do spawn when write note do add note \"x\"; end; end\n\
        current u\n";
    let whole = "ok\n1 done\n2 done\n2.1 denied carry bob note\n3 done\nbye\n";
    const ONE_LOST: &[(&str, &str)] = &[
        (
            "1 lost",
            "ok\n1 lost\n2 denied star bob memo\n3 done\nbye\n",
        ),
        ("2 lost", "ok\n1 done\n2 lost\n3 done\nbye\n"),
        ("2.1 lost", "ok\n1 done\n2 done\n2.1 lost\n3 done\nbye\n"),
        (
            "3 lost",
            "ok\n1 done\n2 done\n2.1 denied star bob note\n3 lost\nbye\n",
        ),
    ];
    assert_outlasts(&rt, "", input, whole, ONE_LOST);
}

/// What each entry of `create-use-delete` leaves undone where it is lost, told by the entries after it.
const ONE_LOST_OF_DRAFT: &[(&str, &str)] = &[
    (
        "1 lost",
        "ok\n1 lost\n2 done\n3 done\n4 done \"d\"\n5 done\n6 denied absent root draft\n7 done\n\
8 denied discretionary root draft\n9 done\n10 done \"\"\n11 denied absent root top\nbye\n",
    ),
    (
        "2 lost",
        "ok\n1 done\n2 lost\n3 done\n4 done \"d\"\n5 done\n6 denied absent root draft\n7 done\n\
8 denied discretionary root draft\n9 done\n10 done \"\"\n11 denied absent root top\nbye\n",
    ),
    (
        "3 lost",
        "ok\n1 done\n2 denied present root draft\n3 lost\n4 denied discretionary root draft\n5 done\n\
6 denied absent root draft\n7 done\n8 denied discretionary root draft\n9 done\n10 done \"\"\n\
11 denied absent root top\nbye\n",
    ),
    (
        "4 lost",
        "ok\n1 done\n2 denied present root draft\n3 done\n4 lost\n5 done\n6 denied absent root draft\n\
7 done\n8 denied discretionary root draft\n9 done\n10 done \"\"\n11 denied absent root top\nbye\n",
    ),
    (
        "5 lost",
        "ok\n1 done\n2 denied present root draft\n3 done\n4 done \"d\"\n5 lost\n\
6 denied discretionary root draft\n7 denied present root draft\n8 done\n9 done\n10 done \"d\"\n\
11 denied absent root top\nbye\n",
    ),
    (
        "6 lost",
        "ok\n1 done\n2 denied present root draft\n3 done\n4 done \"d\"\n5 done\n6 lost\n7 done\n\
8 denied discretionary root draft\n9 done\n10 done \"\"\n11 denied absent root top\nbye\n",
    ),
    (
        "7 lost",
        "ok\n1 done\n2 denied present root draft\n3 done\n4 done \"d\"\n5 done\n\
6 denied absent root draft\n7 lost\n8 denied absent root draft\n9 done\n10 denied absent root draft\n\
11 denied absent root top\nbye\n",
    ),
    (
        "8 lost",
        "ok\n1 done\n2 denied present root draft\n3 done\n4 done \"d\"\n5 done\n\
6 denied absent root draft\n7 done\n8 lost\n9 done\n10 done \"\"\n11 denied absent root top\nbye\n",
    ),
    (
        "9 lost",
        "ok\n1 done\n2 denied present root draft\n3 done\n4 done \"d\"\n5 done\n\
6 denied absent root draft\n7 done\n8 denied discretionary root draft\n9 lost\n\
10 denied discretionary root draft\n11 denied absent root top\nbye\n",
    ),
    (
        "10 lost",
        "ok\n1 done\n2 denied present root draft\n3 done\n4 done \"d\"\n5 done\n\
6 denied absent root draft\n7 done\n8 denied discretionary root draft\n9 done\n10 lost\n\
11 denied absent root top\nbye\n",
    ),
    (
        "11 lost",
        "ok\n1 done\n2 denied present root draft\n3 done\n4 done \"d\"\n5 done\n\
6 denied absent root draft\n7 done\n8 denied discretionary root draft\n9 done\n10 done \"\"\n\
11 lost\nbye\n",
    ),
];

#[test]
fn create_use_delete(rt: HostRuntime) {
    let input = "hello root\n\
        create draft\n\
        create draft\n\
        give root draft w\n\
        when write draft do set draft \"d\"; show draft; end\n\
        delete draft\n\
        when read draft do show draft; end\n\
        create draft\n\
        when write draft do end\n\
        give root draft r\n\
        when read draft do show draft; end\n\
        delete top\n";
    let whole = "ok\n1 done\n2 denied present root draft\n3 done\n4 done \"d\"\n5 done\n\
        6 denied absent root draft\n7 done\n8 denied discretionary root draft\n9 done\n10 done \"\"\n\
        11 denied absent root top\nbye\n";
    assert_outlasts(&rt, RESERVED, input, whole, ONE_LOST_OF_DRAFT);
}

/// A session of two blocks and five entries: two readers, a child of the second, a line that adds to the memo, and one
/// that shows what it left. A lost parent has no child, and what is lost has added nothing; each other reply is as
/// where nothing is lost.
#[test]
fn two_blocks(rt: HostRuntime) {
    let input = "hello ann\n\
        when read memo do show memo; end\n\
        when read note do show note; spawn when read memo do show memo; end; end\n\
        wait\n\
        when write memo do add memo \"a\"; end\n\
        when read memo do show memo; end\n";
    let whole =
        "ok\n1 done \"m1\"\n2 done \"n1\"\n2.1 done \"m1\"\nok\n3 done\n4 done \"m1a\"\nbye\n";
    const ONE_LOST: &[(&str, &str)] = &[
        (
            "1 lost",
            "ok\n1 lost\n2 done \"n1\"\n2.1 done \"m1\"\nok\n3 done\n4 done \"m1a\"\nbye\n",
        ),
        (
            "2 lost",
            "ok\n1 done \"m1\"\n2 lost\nok\n3 done\n4 done \"m1a\"\nbye\n",
        ),
        (
            "2.1 lost",
            "ok\n1 done \"m1\"\n2 done \"n1\"\n2.1 lost\nok\n3 done\n4 done \"m1a\"\nbye\n",
        ),
        (
            "3 lost",
            "ok\n1 done \"m1\"\n2 done \"n1\"\n2.1 done \"m1\"\nok\n3 lost\n4 done \"m1\"\nbye\n",
        ),
        (
            "4 lost",
            "ok\n1 done \"m1\"\n2 done \"n1\"\n2.1 done \"m1\"\nok\n3 done\n4 lost\nbye\n",
        ),
    ];
    assert_outlasts(&rt, "", input, whole, ONE_LOST);
}
