//! The verdict on a text.
ghost use Rattle.std.specs.Prelude.{◌≡◌, ◌≤◌, IfOk};
ghost use Rattle.bl_setup.specs.Setup.{by_version};
ghost use Rattle.bl_order.specs.Machine.{start};
ghost use Rattle.bl_trail.specs.Follow.{IsVerdict};
ghost use Rattle.bl_trail.specs.TrueText.{IsLimit};
ghost use Rattle.bl_replay.specs.Keeps.{KeepsAt};

use crate::mark::{Mark, foretell};
use crate::replayer::Replayer;
use bl_monitor::monitor::Monitor;
use bl_order::laws::steps_lead_on;
use bl_queue::queues::Queues;
use bl_setup::setup::Setup;
use bl_setup::version::Version;
use bl_trail::follow::follow;
use bl_trail::head::{Head, head_of};
use bl_trail::verdict::{Verdict, what_was_followed_tells_the_verdict};
use std::alloc::{AllocError, Global};

/// A replayer of no event, which judges by this version, for lines that say this of the ends of places. An error comes
/// only where a growth is refused.
pub fn begin(
    alloc: Global,
    setup: &Setup,
    version: Version,
    limit: u32,
    marks: Vec<Mark>,
) -> Result<Replayer, AllocError>
    requires { IsLimit limit }
    ensures keeps { IfOk result (KeepsAt (start (by_version version setup.now) limit)) }
    ensures marks { IfOk result (λ replayer. replayer.marks ≡ marks) }
{
    steps_lead_on();
    let documents = setup.names().documents();
    let queues = Queues::new(alloc, documents as u32 + 1, limit)?;
    let told = setup.copy()?;
    let monitor = Monitor::new(alloc, told, version)?;
    let kept = setup.copy()?;
    let sessions = Vec::new(alloc);
    let places = Vec::new(alloc);
    let answers = Vec::new(alloc);
    Ok(Replayer {
        alloc,
        setup: kept,
        version,
        limit,
        weight: 0,
        sessions,
        places,
        queues,
        monitor,
        answers,
        marks,
        claims: Vec::new(alloc),
    })
}

/// Replays the text of a trail over the setup that it began with, by the version that its first line names. `Accepted`
/// comes exactly where the text is true, with the number of its events; otherwise `Rejected` names the first line that
/// is not right after the lines before it, counted from 1. Version 1 has no rule that creates or deletes a document,
/// and no setup in which one is absent. An error comes only where a growth is refused.
pub fn replay(alloc: Global, setup: &Setup, text: &[u8]) -> Result<Verdict, AllocError>
    ensures { IfOk result (IsVerdict setup.now text.now) }
{
    what_was_followed_tells_the_verdict();
    // asked for the proof alone: the setup is one whole, and its names are a server's
    let _names = setup.names();
    let _subjects = setup.names().subjects();
    match head_of(alloc, setup, text)? {
        Head::Wrong(line) => Ok(Verdict::Rejected(line)),
        Head::Right {
            version,
            limit,
            rest,
        } => {
            let marks = foretell(alloc, rest)?;
            let mut replayer = begin(alloc, setup, version, limit, marks)?;
            let verdict = follow(&mut replayer, rest);
            drop(replayer);
            verdict
        }
    }
}
