//! What a connection does where a growth is refused. With ample memory each test here passes by the session's own
//! output alone. It passes whatever single growth is refused too: `bench/checks/growths` refuses each in turn, and
//! tells so by a file.
use super::base::{Ended, Session, serve_or_none};
use super::streams::Manner;
use bl_engine::conversation::Opening;
use bl_wire::fault::SessionFault;
use std::alloc::AllocGlobal;
use std::fs;
use std::io::Print;
use std::process::Abort;
use std::rt::Files;

const OUTPUT: &[u8] = b"ok\n1 done \"m1\"\nok\n2 done \"m1\"\nbye\n";

/// Whether a growth was refused: who refuses one writes this file then, in the folder where the test runs.
fn was_refused(rt: &impl Files) -> bool {
    !matches!(fs::exists(rt, "refused"), Ok(false))
}

/// What became of a session whose text this is, where a growth may have been refused in it: it has its text, or it
/// ended out of memory after a first part of that. Nothing where it is neither.
fn came_of(ended: &Ended, text: &[u8], refused: bool) -> Option<&'static str> {
    match ended.result {
        Ok(()) if ended.written.as_slice() == text => Some("own"),
        Err(SessionFault::Memory) if refused && text.starts_with(&ended.written) => {
            Some("out of memory")
        }
        Ok(()) | Err(_) => None,
    }
}

/// Asserts that a session of these lines, of which so many bytes come at a call, has its text, or where a growth was
/// refused ended out of memory; says what became of it.
fn assert_outlasts<R: AllocGlobal + Abort + Files + Print>(rt: &R, input: &[u8], most: usize) {
    let session = Session {
        input,
        reads: Manner {
            most,
            blocks_at: 0,
            fails_at: 0,
        },
        writes: Manner::PLAIN,
        shown: b"m1",
        opening: Opening::Open,
    };
    let came = match serve_or_none(rt, &session) {
        Some(ended) => came_of(&ended, OUTPUT, was_refused(rt)),
        None if was_refused(rt) => Some("before"),
        None => None,
    };
    match came {
        Some(came) => {
            let _ = println!(rt; "{came}");
        }
        None => panic!(rt; "another end"),
    }
}

/// Each line comes in parts, so that each time one begins room for it is needed. The last one has no LF.
#[test]
fn lines_in_parts(rt: HostRuntime) {
    let input =
        b"hello ann\nwhen read memo do show memo; end\nwait\nwhen read memo do show memo; end";
    assert_outlasts(&rt, input, 7);
}

/// All lines come at once.
#[test]
fn lines_at_once(rt: HostRuntime) {
    let input =
        b"hello ann\nwhen read memo do show memo; end\nwait\nwhen read memo do show memo; end\n";
    assert_outlasts(&rt, input, 1_000);
}
