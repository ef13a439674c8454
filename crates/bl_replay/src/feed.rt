//! The monitor is told the entries in the order of admission, each with what becomes of it.
ghost use Rattle.std.specs.Prelude.{◌≡◌, ℕ, ◌+◌, ◌<◌, ◌≤◌, All, OnOk, length, map};
ghost use Rattle.bl_replay.specs.Fed.{ComeInOrder, IsFed};
ghost use Rattle.bl_replay.specs.Kept.{KnowsPlace, entry_in};
ghost use Rattle.bl_replay.specs.Marks.{lost_later};

use crate::mark::{Mark, is_lost_later};
use crate::place::Place;
use bl_monitor::monitor::{Monitor, MonitorFault};
use bl_work::answer::Answer;
use std::alloc::AllocError;

/// Tells the monitor the next entry, and keeps its answer. An error comes only where a growth is refused.
fn feed_next(
    monitor: &mut Monitor,
    answers: &mut Vec<Answer>,
    places: &[Place],
    marks: &[Mark],
) -> Result<(), AllocError>
    requires more { length answers.old.items < length places.now }
    requires small { length places.now ≤ 100000 }
    requires known { All (KnowsPlace monitor.old.setup) places.now }
    requires come { ComeInOrder monitor.old.setup (lost_later marks.now) places.now }
    requires fed { IsFed monitor.old.setup (lost_later marks.now)
        (map entry_in places.now) monitor.old answers.old.items }
    ensures fed { OnOk result (IsFed monitor.old.setup (lost_later marks.now)
        (map entry_in places.now) monitor.new answers.new.items) }
    ensures one { OnOk result (length answers.new.items ≡ length answers.old.items + 1) }
    ensures setup { OnOk result (monitor.new.setup ≡ monitor.old.setup) }
{
    let n = answers.len();
    let entry = places[n].told(is_lost_later(marks, n as u32))?;
    let answer = match monitor.next(entry) {
        Ok(answer) => answer,
        // each child of the order is one that its parent spawned
        Err(MonitorFault::NoChild) => unreachable!(),
        Err(MonitorFault::Memory) => return Err(AllocError),
    };
    answers.push(answer)?;
    Ok(())
}

/// Tells the monitor the entries up to this place, where it was not told them yet. An error comes only where a growth
/// is refused.
pub fn feed(
    monitor: &mut Monitor,
    answers: &mut Vec<Answer>,
    places: &[Place],
    marks: &[Mark],
    n: u32,
) -> Result<(), AllocError>
    requires there { n < length places.now }
    requires small { length places.now ≤ 100000 }
    requires known { All (KnowsPlace monitor.old.setup) places.now }
    requires come { ComeInOrder monitor.old.setup (lost_later marks.now) places.now }
    requires fed { IsFed monitor.old.setup (lost_later marks.now)
        (map entry_in places.now) monitor.old answers.old.items }
    ensures fed { OnOk result (IsFed monitor.old.setup (lost_later marks.now)
        (map entry_in places.now) monitor.new answers.new.items) }
    ensures told { OnOk result (n < length answers.new.items) }
{
    let from = answers.len();
    for _ in from..n as usize + 1 {
        feed_next(monitor, answers, places, marks)?;
    }
    Ok(())
}
