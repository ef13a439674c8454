//! Streams that fail, and inputs that are too long.
use super::base::{Session, serve};
use super::streams::Manner;
use bl_engine::conversation::Opening;
use bl_wire::fault::SessionFault;
use std::process::Abort;
use std::test::Fail;

const INPUT: &[u8] =
    b"hello ann\nwhen read memo do show memo; end\nwait\nwhen read memo do show memo; end\n";

const OUTPUT: &[u8] = b"ok\n1 done \"m1\"\nok\n2 done \"m1\"\nbye\n";

fn session_of(input: &[u8], reads: Manner, writes: Manner) -> Session<'_> {
    Session {
        input,
        reads,
        writes,
        shown: b"m1",
        opening: Opening::Open,
    }
}

/// A manner that goes by so many bytes at a call, and fails at a call.
fn failing(most: usize, fails_at: usize) -> Manner {
    Manner {
        most,
        blocks_at: 0,
        fails_at,
    }
}

/// Asserts that a session ended by this fault, and that what was written begins the text and has so many bytes.
fn assert_cut<R: AllocGlobal + Abort>(
    rt: &R,
    session: &Session<'_>,
    fault: SessionFault,
    count: usize,
) -> Result<(), Fail> {
    let ended = serve(rt, session)?;
    assert!(rt; ended.result == Err(fault));
    assert!(rt; ended.written.len() == count);
    assert!(rt; OUTPUT.starts_with(&ended.written));
    Ok(())
}

/// Reading fails at each call in turn, the one that would find the end too: each block whose `wait` came is written
/// whole, and nothing else.
#[test]
fn read_fails_at_each_call(rt: HostRuntime) -> Result<(), Fail> {
    for call in 1..=82 {
        let told = if call <= 10 {
            0
        } else if call <= 48 {
            3
        } else {
            18
        };
        let session = session_of(INPUT, failing(1, call), Manner::PLAIN);
        assert_cut(&rt, &session, SessionFault::Read, told)?;
    }
    let ended = serve(&rt, &session_of(INPUT, failing(1, 83), Manner::PLAIN))?;
    assert!(rt; ended.result == Ok(()));
    assert!(rt; ended.written.as_slice() == OUTPUT);
    Ok(())
}

/// Writing fails at each call in turn: what was written before begins the text.
#[test]
fn write_fails_at_each_call(rt: HostRuntime) -> Result<(), Fail> {
    for call in 1..=34 {
        let session = session_of(INPUT, Manner::PLAIN, failing(1, call));
        assert_cut(&rt, &session, SessionFault::Write, call - 1)?;
    }
    Ok(())
}

/// A writer that takes nothing has failed.
#[test]
fn write_takes_nothing(rt: HostRuntime) -> Result<(), Fail> {
    let session = session_of(INPUT, Manner::PLAIN, failing(0, 0));
    assert_cut(&rt, &session, SessionFault::Write, 0)
}

/// 16,777,216 times LF are read and `bye` is written; one LF more is too long, and nothing is written.
#[test]
fn input_at_its_limit(rt: HostRuntime) -> Result<(), Fail> {
    let mut input = Vec::new(rt.alloc());
    input.resize(16_777_217, b'\n')?;
    let most = &input[1..];
    let ended = serve(&rt, &session_of(most, Manner::PLAIN, Manner::PLAIN))?;
    assert!(rt; ended.result == Ok(()));
    assert!(rt; ended.written.as_slice() == b"bye\n".as_slice());
    let ended = serve(&rt, &session_of(&input, Manner::PLAIN, Manner::PLAIN))?;
    assert!(rt; ended.result == Err(SessionFault::TooLong));
    assert!(rt; ended.written.is_empty());
    Ok(())
}
