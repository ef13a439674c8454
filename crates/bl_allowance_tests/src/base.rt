//! Reads of a stream, and what is asserted of them.
use super::script::Script;
use bl_allowance::allowance::Allowance;
use bl_allowance::lines::LineStream;
use bl_connection::stream::{Answer, Stream};
use std::alloc::AllocGlobal;
use std::process::Abort;

/// A limit with room for 1,000 lines.
pub(crate) const AMPLE: u32 = 32_000;

/// How many bytes a read of a connection takes at most.
pub(crate) const MOST_READ: usize = 16_384;

/// A stream that answers by this script, of a run that another follows.
pub(crate) fn lines_of<'a, R: AllocGlobal>(
    rt: &R,
    script: &'a [u8],
    allowance: &'a Allowance,
) -> LineStream<'a, Script<'a>> {
    LineStream::new(rt.alloc(), Script::new(script), Some(allowance))
}

/// Asserts that a read with so much room gives just these bytes, of which there are none at its end.
pub(crate) fn assert_gives<R: Abort, S: Stream>(rt: &R, stream: &mut S, most: usize, bytes: &[u8]) {
    let mut all = [0u8; MOST_READ];
    let most = most.min(MOST_READ);
    let room = &mut all[..most];
    match stream.read(room) {
        Answer::Moved(count) => {
            assert!(rt; &room[..count] == bytes);
        }
        Answer::WouldBlock => panic!(rt; "it would block"),
        Answer::Failed => panic!(rt; "it failed"),
    }
}

/// Asserts that a read is answered so.
pub(crate) fn assert_answers<R: Abort, S: Stream>(rt: &R, stream: &mut S, answer: Answer) {
    let mut room = [0u8; 120];
    let found = stream.read(&mut room);
    assert!(rt; found == answer);
}
