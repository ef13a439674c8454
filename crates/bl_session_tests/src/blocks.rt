//! The replies of each block, and what stays from one block to the next.
use crate::base::{assert_said, assert_served, joined, right, setup_with};
use std::process::Abort;

/// The second block has its own replies alone, and finds what the first one left.
#[test]
fn two_blocks(rt: HostRuntime) {
    let input = "hello ann\n\
        when write memo do add memo \"a\"; spawn when read memo do show memo; end; end\n\
        when read memo do show memo; end\n\
        wait\n\
        when write memo do add memo \"b\"; spawn when read memo do show memo; end; end\n\
        when read memo do show memo; end\n\
        wait\n";
    let output = "ok\n\
        1 done\n1.1 done \"m1a\"\n2 done \"m1a\"\nok\n\
        3 done\n3.1 done \"m1ab\"\n4 done \"m1ab\"\nok\n\
        bye\n";
    assert_said(&rt, input, output);
}

/// Refused lines take ordinals, and stand among the replies of their block. A block may be empty.
#[test]
fn refused_lines_among_blocks(rt: HostRuntime) {
    let input = "hello ann\n\
        wait\n\
        wait now\n\
        when read note do spawn when read note do show note; end; end\n\
        hello ann\n\
        wait\n\
        \n\
        when read zed do end\n\
        when write note do end\n";
    let output = "ok\n\
        ok\n\
        1 refused syntax 5\n2 done\n2.1 done \"n1\"\n3 refused hello\nok\n\
        4 refused unknown zed\n5 denied star ann note\nbye\n";
    assert_said(&rt, input, output);
}

/// A content of 65,536 bytes, the most that one may have.
fn longest_content<R: AllocGlobal + Abort>(rt: &R) -> String {
    let mut content = String::new(rt.alloc());
    for _ in 0..4_096 {
        right(rt, content.push_str("0123456789abcdef"));
    }
    content
}

/// What is written where this content of the note is shown twice.
fn shown_twice<R: AllocGlobal + Abort>(rt: &R, note: &str) -> String {
    let parts = ["ok\n1 done \"", note, "\"\n2 done \"", note, "\"\nbye\n"];
    let bytes = right(rt, joined(rt.alloc(), parts.as_slice()));
    right(rt, String::from_utf8(bytes))
}

/// A content of 65,536 bytes, the most that one may have, is shown twice: a block of more than 131,072 bytes is written
/// whole, and its writer has not failed.
#[test]
fn long_block(rt: HostRuntime) {
    let note = longest_content(&rt);
    let output = shown_twice(&rt, note.as_str());
    let setup = setup_with(&rt, note.as_str());
    let input = b"hello ann\nwhen read note do show note; end\nwhen read note do show note; end\n";
    let _left = assert_served(&rt, setup, 10_000, input, output.as_str());
    drop(output);
    drop(note);
}
