//! What is visible of a line.
use crate::base::{assert_says, assert_says_of};

// A text's bytes are left out, also before the word at fault; a byte that a terminal would not show is told by its number.
#[test]
fn texts_and_bytes(rt: HostRuntime) {
    assert_says(
        &rt,
        "document plan s \"the plan\" \t secret\n",
        3,
        "base.txt:5:30: syntax: `secret`\n  document plan s \"..\" \\x09 secret\n                            ^^^^^^\n  the line's end was due\n",
    );
    assert_says(
        &rt,
        "document plan s \"the\tplan\" x\n",
        3,
        "base.txt:5:21: syntax: `\\x09`\n  document plan s \"..\\x09\" x\n                     ^^^^\n  `{` or a text was due\n",
    );
    assert_says_of(
        &rt,
        b"\x7fELF\x02\n",
        3,
        "base.txt:1:1: syntax: `\\x7f`\n  \\x7fELF\\x02\n  ^^^^\n  `ranks` was due\n",
    );
}

// Of a long line no more than a hundred bytes are told of each part.
#[test]
fn long_lines(rt: HostRuntime) {
    assert_says_of(
        &rt,
        b"rank aaaaaaaaaaaaaaaaaaaaaaaaaaaaaaaaaaaaaaaaaaaaaaaaaaaaaaaaaaaaaaaaaaaaaaaaaaaaaaaaaaaaaaaaaaaaaaaaaaaaaaaaaaaaaaaaaaaa\n",
        3,
        "base.txt:1:1: syntax: `rank`\n  rank aaaaaaaaaaaaaaaaaaaaaaaaaaaaaaaaaaaaaaaaaaaaaaaaaaaaaaaaaaaaaaaaaaaaaaaaaaaaaaaaaaaaaaaaaaaaaaaaaaa..\n  ^^^^\n  `ranks` was due\n",
    );
}
