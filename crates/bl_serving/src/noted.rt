//! What a run of `serve` notes of itself in its log, if there is one.
use crate::serve::RunContext;
use bl_asked::options::Options;
use bl_asked::version::VERSION;
use bl_entrance::acceptor::note_server;
use bl_log::note::ServerEvent;
use std::rt::Files;
use std::sync::Wait;
use std::time::Clock;

/// Notes what has become of the server.
fn note<P, T: Files + Wait + Clock>(run_context: &RunContext<'_, P, T>, event: ServerEvent<'_>) {
    if let Some(log) = run_context.log {
        note_server(run_context.rt, log, event);
    }
}

/// Notes that it listens, for lines that weigh so much at most.
pub fn note_started<P, T: Files + Wait + Clock>(
    run_context: &RunContext<'_, P, T>,
    limit: u32,
    options: Options,
) {
    let event = ServerEvent::Started {
        version: VERSION,
        limit,
        sessions: options.sessions,
        clients: options.clients,
        trail_limit: options.trail_limit,
    };
    note(run_context, event);
}

/// Notes that it goes on from a run that was cut off: its trail has so many events now, and so many bytes were cut off.
pub fn note_resumed<P, T: Files + Wait + Clock>(
    run_context: &RunContext<'_, P, T>,
    events: usize,
    cut: usize,
) {
    let event = ServerEvent::Resumed {
        events: events as u64,
        cut: cut as u64,
    };
    note(run_context, event);
}
