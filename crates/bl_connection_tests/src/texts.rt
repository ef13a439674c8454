//! What is written to the worked examples, however the stream goes.
use super::base::{Session, serve};
use super::streams::Manner;
use bl_engine::conversation::Opening;
use std::process::Abort;
use std::test::Fail;

/// An example: what comes in, and what is written.
#[derive(Clone, Copy)]
struct Example {
    input: &'static [u8],
    output: &'static [u8],
}

const READ_ONE: Example = Example {
    input: b"hello ann\nwhen read memo do show memo; end\nwait\n",
    output: b"ok\n1 done \"m1\"\nok\nbye\n",
};

const READ_WITHOUT_LINE_END: Example = Example {
    input: b"hello ann\nwhen read memo do show memo; end",
    output: b"ok\n1 done \"m1\"\nbye\n",
};

const GREET_AND_LEAVE: Example = Example {
    input: b"hello ann\n",
    output: b"ok\nbye\n",
};

const NOTHING: Example = Example {
    input: b"",
    output: b"bye\n",
};

const REFUSALS: Example = Example {
    input: b"hello ann\nwhen read memo, write memo do end\nwhen read zed do show zed; end\n\
        when append log do show log; end\nwait now\nhello ann\n",
    output: b"ok\n1 refused twice memo\n2 refused unknown zed\n3 refused mode log\n4 refused syntax 5\n\
        5 refused hello\nbye\n",
};

const BLOCKS: Example = Example {
    input: b"\nhello ann\r\nwait\nwhen read memo do show memo; end\nwait\nwait now\n\n\
        when read memo do show memo; end\n",
    output: b"ok\nok\n1 done \"m1\"\nok\n2 refused syntax 5\n3 done \"m1\"\nbye\n",
};

/// Serves an example by ends that go so, and asserts that it ends well and what is written.
fn assert_told<R: AllocGlobal + Abort>(
    rt: &R,
    example: &Example,
    reads: Manner,
    writes: Manner,
) -> Result<(), Fail> {
    let session = Session {
        input: example.input,
        reads,
        writes,
        shown: b"m1",
        opening: Opening::Open,
    };
    let ended = serve(rt, &session)?;
    assert!(rt; ended.result == Ok(()));
    assert!(rt; ended.written.as_slice() == example.output);
    assert!(rt; ended.unread == 0);
    Ok(())
}

/// Serves an example in each manner: at once, a byte at a time, and where each call of either end says once that it
/// would block.
fn assert_told_in_each_manner<R: AllocGlobal + Abort>(
    rt: &R,
    example: &Example,
) -> Result<(), Fail> {
    assert_told(rt, example, Manner::PLAIN, Manner::PLAIN)?;
    assert_told(rt, example, Manner::SLOW, Manner::SLOW)?;
    for call in 1..=200 {
        let slow = Manner {
            most: 1,
            blocks_at: call,
            fails_at: 0,
        };
        let short = Manner {
            most: 7,
            blocks_at: call,
            fails_at: 0,
        };
        assert_told(rt, example, slow, Manner::PLAIN)?;
        assert_told(rt, example, Manner::PLAIN, slow)?;
        assert_told(rt, example, short, short)?;
    }
    Ok(())
}

#[test]
fn read_one(rt: HostRuntime) -> Result<(), Fail> {
    assert_told_in_each_manner(&rt, &READ_ONE)
}

/// The input ends in the middle of a line, behind a short read.
#[test]
fn read_without_line_end(rt: HostRuntime) -> Result<(), Fail> {
    assert_told_in_each_manner(&rt, &READ_WITHOUT_LINE_END)
}

#[test]
fn greet_and_leave(rt: HostRuntime) -> Result<(), Fail> {
    assert_told_in_each_manner(&rt, &GREET_AND_LEAVE)
}

#[test]
fn empty_input(rt: HostRuntime) -> Result<(), Fail> {
    assert_told_in_each_manner(&rt, &NOTHING)
}

#[test]
fn refusals_of_a_line(rt: HostRuntime) -> Result<(), Fail> {
    assert_told_in_each_manner(&rt, &REFUSALS)
}

#[test]
fn several_blocks(rt: HostRuntime) -> Result<(), Fail> {
    assert_told_in_each_manner(&rt, &BLOCKS)
}

/// A first line that is no `hello` ends the session, and the second one is not heard.
#[test]
fn first_line_must_be_hello(rt: HostRuntime) -> Result<(), Fail> {
    let session = Session {
        input: b"wait\nhello ann\n",
        reads: Manner::SLOW,
        writes: Manner::PLAIN,
        shown: b"m1",
        opening: Opening::Open,
    };
    let ended = serve(&rt, &session)?;
    assert!(rt; ended.result == Ok(()));
    assert!(rt; ended.written.as_slice() == b"refused hello\nbye\n".as_slice());
    assert!(rt; ended.unread == 10);
    Ok(())
}

/// There are as many sessions as there may be.
#[test]
fn sessions_are_full(rt: HostRuntime) -> Result<(), Fail> {
    let session = Session {
        input: READ_ONE.input,
        reads: Manner::SLOW,
        writes: Manner::SLOW,
        shown: b"m1",
        opening: Opening::Full,
    };
    let ended = serve(&rt, &session)?;
    assert!(rt; ended.result == Ok(()));
    assert!(rt; ended.written.as_slice() == b"refused sessions\nbye\n".as_slice());
    Ok(())
}

/// A block of more than 131,072 bytes is told as it is written.
#[test]
fn long_block(rt: HostRuntime) -> Result<(), Fail> {
    let alloc = rt.alloc();
    let mut shown = Vec::new(alloc);
    shown.resize(65_536, b'x')?;
    let session = Session {
        input: b"hello ann\nwhen read memo do show memo; end\nwhen read memo do show memo; end\nwait\n\
            when read memo do show memo; end\n",
        reads: Manner::PLAIN,
        writes: Manner {
            most: 1_000,
            blocks_at: 70,
            fails_at: 0,
        },
        shown: &shown,
        opening: Opening::Open,
    };
    let ended = serve(&rt, &session)?;
    assert!(rt; ended.result == Ok(()));
    let mut output = Vec::new(alloc);
    output.extend_from_slice(b"ok\n1 done \"")?;
    output.extend_from_slice(&shown)?;
    output.extend_from_slice(b"\"\n2 done \"")?;
    output.extend_from_slice(&shown)?;
    output.extend_from_slice(b"\"\nok\n3 done \"")?;
    output.extend_from_slice(&shown)?;
    output.extend_from_slice(b"\"\nbye\n")?;
    assert!(rt; ended.written.as_slice() == output.as_slice());
    Ok(())
}
