//! A session with one thread.
use super::base::assert_trail;
use super::served::{READ_ONE, TOLD_ONE, admitted, assert_ended, assert_told, opened, serve_over};
use bl_hall::event::Event;

/// The session opens, its line is admitted, starts and ends in the session's own thread, and it is told what the line
/// shows.
#[test]
fn serves_a_session_through_a_gate(rt: HostRuntime) {
    let ended = serve_over(&rt, READ_ONE, Vec::new(rt.alloc()));
    assert_ended(&rt, &ended, Ok(()), false, false);
    assert_told(&rt, ended.writer.as_slice(), TOLD_ONE);
    let events = [opened(), admitted(), Event::Start(0), Event::End(0)];
    assert_trail(&rt, &ended.hall, events.as_slice());
    drop(ended);
}
