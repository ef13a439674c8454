//! What is told of each kind of fault.
use crate::base::{assert_says, assert_says_of};

#[test]
fn a_current_level_above_the_greatest(rt: HostRuntime) {
    assert_says(
        &rt,
        "subject bob greatest u current s{crypto} trusted\n",
        3,
        "base.txt:5:32: current above greatest: `s{crypto}`\n  subject bob greatest u current s{crypto} trusted\n                                 ^^^^^^^^^\n  the greatest level does not dominate it\n",
    );
}

#[test]
fn an_unknown_document(rt: HostRuntime) {
    assert_says(
        &rt,
        "allow ann meno r w a\n",
        3,
        "base.txt:5:11: unknown: `meno`\n  allow ann meno r w a\n            ^^^^\n  no document has this name; did you mean `memo`?\n",
    );
}

#[test]
fn an_unknown_rank(rt: HostRuntime) {
    assert_says(
        &rt,
        "reserve plan public{nato}\n",
        3,
        "base.txt:5:14: unknown: `public`\n  reserve plan public{nato}\n               ^^^^^^\n  no rank has this name\n",
    );
}

#[test]
fn a_name_that_was_named_before(rt: HostRuntime) {
    assert_says(
        &rt,
        "document plan s{nato,nato} \"m2\"\n",
        3,
        "base.txt:5:22: repeated: `nato`\n  document plan s{nato,nato} \"..\"\n                       ^^^^\n  this category was named before\n",
    );
}

#[test]
fn what_was_due(rt: HostRuntime) {
    assert_says(
        &rt,
        "document plan s{nato,crypto,} \"m2\"\n",
        3,
        "base.txt:5:29: syntax: `}`\n  document plan s{nato,crypto,} \"..\"\n                              ^\n  a name was due\n",
    );
    assert_says(
        &rt,
        "subject bob greatest u trusted\r\n",
        3,
        "base.txt:5:24: syntax: `trusted`\n  subject bob greatest u trusted\n                         ^^^^^^^\n  `{` or `current` was due\n",
    );
    assert_says(
        &rt,
        "reserve plan\n",
        3,
        "base.txt:5:13: syntax: end of line\n  reserve plan\n              ^\n  a name was due\n",
    );
    assert_says(
        &rt,
        "ranks u\n",
        3,
        "base.txt:5:1: syntax: `ranks`\n  ranks u\n  ^^^^^\n  `subject`, `document`, `reserve` or `allow` was due\n",
    );
}

#[test]
fn ends_of_files(rt: HostRuntime) {
    assert_says_of(
        &rt,
        b"",
        3,
        "base.txt:1:1: syntax: end of file\n  `ranks` was due\n",
    );
    assert_says_of(
        &rt,
        b"ranks u\n# none\n",
        3,
        "base.txt:3:1: syntax: end of file\n  `categories` was due\n",
    );
}

#[test]
fn too_many_ranks(rt: HostRuntime) {
    assert_says_of(
        &rt,
        b"ranks a b c d e f g h i j k l m n o p q\n",
        3,
        "base.txt:1:39: too many: `q`\n  ranks a b c d e f g h i j k l m n o p q\n                                        ^\n  more than 16 ranks\n",
    );
}
