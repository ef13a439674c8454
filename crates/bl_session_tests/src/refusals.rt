//! Why a line is refused.
use crate::base::{SHOW_MEMO, assert_said, assert_said_under, joined};
use std::alloc::Global;
use std::test::Fail;

#[test]
fn refusals_of_a_line(rt: HostRuntime) {
    let input = "hello ann\n\
        when read memo, write memo do end\n\
        when read zed do show zed; end\n\
        when append log do show log; end\n\
        wait now\n\
        hello ann\n";
    let output = "ok\n1 refused twice memo\n2 refused unknown zed\n3 refused mode log\n\
        4 refused syntax 5\n5 refused hello\nbye\n";
    assert_said(&rt, input, output);
}

#[test]
fn syntax_offsets(rt: HostRuntime) {
    let input = "hello ann\n\
        when read memo show memo; end\n\
        when read memo do show memo;\n\
        when read memo do say \"a\\b\"; end\n";
    let output = "ok\n1 refused syntax 15\n2 refused syntax 28\n3 refused syntax 24\nbye\n";
    assert_said(&rt, input, output);
}

#[test]
fn weight_limit(rt: HostRuntime) {
    let input = b"hello ann\n\
        when read memo do spawn when read memo do end; spawn when read memo do end; end\n\
        when read memo do spawn when read memo do show memo; end; end\n\
        when read note do end\n";
    let output = "ok\n1 refused full\n2 done\n2.1 done \"m1\"\n3 refused full\nbye\n";
    assert_said_under(&rt, 2, input, output);
}

#[test]
fn limit_of_one(rt: HostRuntime) {
    let input = b"hello ann\nwhen read memo do show memo; end\nwhen read memo do show memo; end\n";
    let output = "ok\n1 done \"m1\"\n2 refused full\nbye\n";
    assert_said_under(&rt, 1, input, output);
}

/// Adds the line that reads the memo, filled with blanks to so many bytes.
fn add_filled(input: &mut Vec<u8>, length: usize) -> Result<(), Fail> {
    input.extend_from_slice(SHOW_MEMO.as_bytes())?;
    for _ in SHOW_MEMO.len()..length {
        input.push(b' ')?;
    }
    Ok(input.push(b'\n')?)
}

/// Adds a line of nine behaviours, each but the first spawned by the one before it.
fn add_nested(input: &mut Vec<u8>) -> Result<(), Fail> {
    input.extend_from_slice(b"when read memo do ")?;
    for _ in 0..8 {
        input.extend_from_slice(b"spawn when read memo do ")?;
    }
    input.extend_from_slice(b"end")?;
    for _ in 0..8 {
        input.extend_from_slice(b"; end")?;
    }
    Ok(input.push(b'\n')?)
}

/// A line that has as many bytes as it may, and three that have too much of something.
fn long_deep_many_lines(alloc: Global) -> Result<Vec<u8>, Fail> {
    let mut input = joined(alloc, ["hello ann\n"].as_slice())?;
    add_filled(&mut input, 8192)?;
    add_filled(&mut input, 8193)?;
    add_nested(&mut input)?;
    input.extend_from_slice(b"when read a, read b, read c, read d, read e, ")?;
    input.extend_from_slice(b"read f, read g, read h, read i do end\n")?;
    Ok(input)
}

#[test]
fn long_deep_many(rt: HostRuntime) -> Result<(), Fail> {
    let input = long_deep_many_lines(rt.alloc())?;
    let output = "ok\n1 done \"m1\"\n2 refused long\n3 refused deep\n4 refused many\nbye\n";
    assert_said_under(&rt, 10_000, &input, output);
    Ok(())
}
