//! Whole lines, long lines, the last line, and a run that no other follows.
use super::base::{AMPLE, MOST_READ, assert_answers, assert_gives, lines_of};
use super::script::Script;
use bl_allowance::allowance::Allowance;
use bl_allowance::lines::LineStream;
use bl_connection::stream::{Answer, Stream};
use std::process::Abort;
use std::test::Fail;

/// Lines come in parts that end anywhere: a read gives whole lines alone, and would block as long as none is whole.
#[test]
fn whole_lines_alone(rt: HostRuntime) {
    let allowance = Allowance::new(AMPLE, 0);
    let script = b"hello ann\nwai||t/\nbye\nw|ait\n";
    let mut stream = lines_of(&rt, script, &allowance);
    assert_gives(&rt, &mut stream, MOST_READ, b"hello ann\n");
    assert_answers(&rt, &mut stream, Answer::WouldBlock);
    assert_answers(&rt, &mut stream, Answer::WouldBlock);
    assert_gives(&rt, &mut stream, MOST_READ, b"wait\nbye\n");
    assert_answers(&rt, &mut stream, Answer::WouldBlock);
    assert_gives(&rt, &mut stream, MOST_READ, b"wait\n");
    assert_gives(&rt, &mut stream, MOST_READ, b"");
    assert_gives(&rt, &mut stream, MOST_READ, b"");
    assert!(rt; !allowance.is_over());
}

/// A room of one byte: the stream in it is read as often as a line needs, and a line goes out byte by byte. An empty
/// room is no end.
#[test]
fn small_rooms(rt: HostRuntime) {
    let allowance = Allowance::new(AMPLE, 0);
    let mut stream = lines_of(&rt, b"wait\nbye\n|x\n", &allowance);
    for byte in b"wait\nbye\n" {
        assert_gives(&rt, &mut stream, 0, b"");
        assert_gives(&rt, &mut stream, 1, &[*byte]);
    }
    assert_gives(&rt, &mut stream, 0, b"");
    assert_answers(&rt, &mut stream, Answer::WouldBlock);
    assert_gives(&rt, &mut stream, 2, b"x\n");
    assert_gives(&rt, &mut stream, 2, b"");
}

/// 300 lines come at once: 128 are given at a read at most, and room is set aside for as many.
#[test]
fn many_lines(rt: HostRuntime) -> Result<(), Fail> {
    let mut input = Vec::new(rt.alloc());
    input.resize(300, b'\n')?;
    let allowance = Allowance::new(AMPLE, 0);
    let mut stream = lines_of(&rt, &input, &allowance);
    assert_gives(&rt, &mut stream, MOST_READ, &input[..128]);
    assert!(rt; allowance.set_aside(872));
    assert!(rt; !allowance.set_aside(1));
    allowance.give_back(872);
    assert_gives(&rt, &mut stream, MOST_READ, &input[..128]);
    assert_gives(&rt, &mut stream, MOST_READ, &input[..44]);
    assert_gives(&rt, &mut stream, MOST_READ, b"");
    Ok(())
}

/// 8,194 bytes with no LF are given as they come, and so is what follows up to the LF, though there is no room for a
/// line.
#[test]
fn long_line(rt: HostRuntime) -> Result<(), Fail> {
    let mut long = Vec::new(rt.alloc());
    long.resize(8_194, b'x')?;
    let mut script = Vec::new(rt.alloc());
    script.extend_from_slice(&long)?;
    script.extend_from_slice(b"|yy/z\nwait\n")?;
    let allowance = Allowance::new(31, 0);
    let mut stream = lines_of(&rt, &script, &allowance);
    assert_gives(&rt, &mut stream, MOST_READ, &long);
    assert_answers(&rt, &mut stream, Answer::WouldBlock);
    assert_gives(&rt, &mut stream, MOST_READ, b"yy");
    assert_gives(&rt, &mut stream, MOST_READ, b"z\n");
    assert!(rt; !allowance.is_over());
    assert_gives(&rt, &mut stream, MOST_READ, b"");
    assert!(rt; allowance.is_over());
    Ok(())
}

/// 8,192 bytes and an LF are a line, which is given whole.
#[test]
fn longest_line(rt: HostRuntime) -> Result<(), Fail> {
    let mut line = Vec::new(rt.alloc());
    line.resize(8_192, b'x')?;
    let mut script = Vec::new(rt.alloc());
    script.extend_from_slice(&line)?;
    script.extend_from_slice(b"|\nw")?;
    let allowance = Allowance::new(AMPLE, 0);
    let mut stream = lines_of(&rt, &script, &allowance);
    assert_answers(&rt, &mut stream, Answer::WouldBlock);
    assert_gives(&rt, &mut stream, 8_192, &line);
    assert_gives(&rt, &mut stream, 8_192, b"\n");
    assert_gives(&rt, &mut stream, 8_192, b"w");
    assert_gives(&rt, &mut stream, 8_192, b"");
    Ok(())
}

/// 8,192 bytes, a CR and an LF are a line, since the CR is not counted: it waits for its LF, and is given whole.
#[test]
fn longest_line_with_cr(rt: HostRuntime) -> Result<(), Fail> {
    let mut line = Vec::new(rt.alloc());
    line.resize(8_192, b'x')?;
    line.extend_from_slice(b"\r")?;
    let mut script = Vec::new(rt.alloc());
    script.extend_from_slice(&line)?;
    script.extend_from_slice(b"|\n")?;
    let allowance = Allowance::new(AMPLE, 0);
    let mut stream = lines_of(&rt, &script, &allowance);
    assert_answers(&rt, &mut stream, Answer::WouldBlock);
    assert_gives(&rt, &mut stream, 8_193, &line);
    assert_gives(&rt, &mut stream, 8_193, b"\n");
    assert_gives(&rt, &mut stream, 8_193, b"");
    Ok(())
}

/// What stands behind the last LF is given as a line, once the input has ended, and then nothing for ever.
#[test]
fn last_line(rt: HostRuntime) {
    let allowance = Allowance::new(32, 0);
    let mut stream = lines_of(&rt, b"wait\nby|e", &allowance);
    assert_gives(&rt, &mut stream, MOST_READ, b"wait\n");
    assert_answers(&rt, &mut stream, Answer::WouldBlock);
    assert_gives(&rt, &mut stream, MOST_READ, b"bye");
    assert!(rt; !allowance.set_aside(1));
    assert_gives(&rt, &mut stream, MOST_READ, b"");
    assert!(rt; allowance.set_aside(1));
    assert_gives(&rt, &mut stream, MOST_READ, b"");
    assert!(rt; !allowance.is_over());
}

/// A read that failed loses nothing: it goes on where it was.
#[test]
fn failed_read(rt: HostRuntime) {
    let allowance = Allowance::new(AMPLE, 0);
    let mut stream = lines_of(&rt, b"wa!it\n", &allowance);
    assert_answers(&rt, &mut stream, Answer::Failed);
    assert_gives(&rt, &mut stream, MOST_READ, b"wait\n");
    assert_gives(&rt, &mut stream, MOST_READ, b"");
}

/// Where no run follows all goes through as it comes.
#[test]
fn no_run_follows(rt: HostRuntime) {
    let mut stream = LineStream::new(rt.alloc(), Script::new(b"wait\nby|!e"), None);
    assert_gives(&rt, &mut stream, 3, b"wai");
    assert_gives(&rt, &mut stream, MOST_READ, b"t\nby");
    assert_answers(&rt, &mut stream, Answer::WouldBlock);
    assert_answers(&rt, &mut stream, Answer::Failed);
    assert_gives(&rt, &mut stream, MOST_READ, b"e");
    assert_gives(&rt, &mut stream, MOST_READ, b"");
}

/// Writes go through, also of a run that takes no more.
#[test]
fn writes(rt: HostRuntime) {
    let allowance = Allowance::new(AMPLE, 0);
    let mut stream = lines_of(&rt, b"", &allowance);
    assert!(rt; stream.write(b"bye\n") == Answer::Moved(4));
    allowance.end();
    assert!(rt; stream.write(b"bye") == Answer::Moved(3));
    assert!(rt; stream.inner().written == 7);
    assert!(rt; stream.into_inner().written == 7);
}
