//! What stands at the end of a replay: the monitor is told of all places, those too of which nothing was asked.
ghost use Rattle.std.specs.Prelude.{◌≡◌, ◌↔◌, ◌+◌, ◌<◌, ◌≤◌, All, IfOk, IsTrue, OnOk, length, map};
ghost use Rattle.bl_order.specs.Machine.{State};
ghost use Rattle.bl_order.specs.Machine as machine;
ghost use Rattle.bl_order.specs.Standing.{HaveAllEnded, setup_after, setup_now};
ghost use Rattle.bl_monitor.specs.Heard.{is_lost};
ghost use Rattle.bl_replay.specs.Fed.{ComeInOrder, IsFed};
ghost use Rattle.bl_replay.specs.Keeps.{KeepsAt};
ghost use Rattle.bl_replay.specs.Kept.{KnowsPlace, entry_in, phase_of};
ghost use Rattle.bl_replay.specs.Marks.{lost_later};
ghost use Rattle.bl_left.specs.Ended.{AreOver, IsAt};
ghost use Rattle.bl_left.specs.Left.{Stands};

use bl_monitor::monitor::{Monitor, MonitorFault};
use bl_order::laws::{
    each_place_has_a_phase, each_state_holds, the_order_has_room,
    what_is_at_hand_rests_on_ended_places,
};
use bl_replay::mark::{Mark, is_lost_later};
use bl_replay::place::{Place, Stand};
use bl_replay::replayer::Replayer;
use bl_setup::setup::Setup;
use bl_state::laws::runs_go_on_alike;
use bl_work::answer::Answer;
use std::alloc::AllocError;

/// Whether who stands so has ended.
fn is_over(stand: Stand) -> bool
    ensures { result ≡ machine.is_over (phase_of stand) }
{
    match stand {
        Stand::Waiting | Stand::Running => false,
        Stand::Ended | Stand::Lost => true,
    }
}

/// Whether each of the places has ended.
fn are_over(places: &[Place]) -> bool
    ensures { IsTrue result ↔ AreOver places.now }
{
    for place in places {
        if !is_over(place.stand) {
            return false;
        }
    }
    true
}

/// Whether all that was admitted has ended.
fn have_all_ended(replayer: &Replayer) -> bool
    ensures { (x : State) → KeepsAt x replayer.now → (IsTrue result ↔ HaveAllEnded x) }
{
    each_place_has_a_phase();
    are_over(&replayer.places)
}

/// Tells the monitor the next entry, and keeps its answer. An error comes only where a growth is refused.
fn tell_next(
    monitor: &mut Monitor,
    answers: &mut Vec<Answer>,
    places: &[Place],
    marks: &[Mark],
) -> Result<(), AllocError>
    requires more { length answers.old.items < length places.now }
    requires small { length places.now ≤ 100000 }
    requires known { All (KnowsPlace monitor.old.setup) places.now }
    requires come { ComeInOrder monitor.old.setup (lost_later marks.now) places.now }
    requires fed { IsFed monitor.old.setup (lost_later marks.now)
        (map entry_in places.now) monitor.old answers.old.items }
    ensures fed { OnOk result (IsFed monitor.old.setup (lost_later marks.now)
        (map entry_in places.now) monitor.new answers.new.items) }
    ensures one { OnOk result (length answers.new.items ≡ length answers.old.items + 1) }
    ensures setup { OnOk result (monitor.new.setup ≡ monitor.old.setup) }
{
    let n = answers.len();
    let entry = places[n].told(is_lost_later(marks, n as u32))?;
    let answer = match monitor.next(entry) {
        Ok(answer) => answer,
        // each child of the order is one that its parent spawned
        Err(MonitorFault::NoChild) => unreachable!(),
        Err(MonitorFault::Memory) => return Err(AllocError),
    };
    answers.push(answer)?;
    Ok(())
}

/// Tells the monitor the entries that it was not told yet. An error comes only where a growth is refused.
fn tell_rest(
    monitor: &mut Monitor,
    answers: &mut Vec<Answer>,
    places: &[Place],
    marks: &[Mark],
) -> Result<(), AllocError>
    requires small { length places.now ≤ 100000 }
    requires known { All (KnowsPlace monitor.old.setup) places.now }
    requires come { ComeInOrder monitor.old.setup (lost_later marks.now) places.now }
    requires fed { IsFed monitor.old.setup (lost_later marks.now)
        (map entry_in places.now) monitor.old answers.old.items }
    ensures fed { OnOk result (IsFed monitor.old.setup (lost_later marks.now)
        (map entry_in places.now) monitor.new answers.new.items) }
    ensures all { OnOk result (length places.now ≤ length answers.new.items) }
{
    for _ in answers.len()..places.len() {
        tell_next(monitor, answers, places, marks)?;
    }
    Ok(())
}

/// Tells the monitor all entries: then what stands behind them is what stands in the state. An error comes only where a
/// growth is refused.
fn tell_all(replayer: &mut Replayer) -> Result<(), AllocError>
    requires { (x : State) × IsAt x replayer.old }
    ensures { OnOk result ((x : State) → IsAt x replayer.old → HaveAllEnded x
        → setup_after replayer.new.monitor.setup (is_lost replayer.new.monitor) replayer.new.monitor.order
        ≡ setup_now x) }
{
    the_order_has_room();
    each_state_holds();
    what_is_at_hand_rests_on_ended_places();
    runs_go_on_alike();
    tell_rest(
        &mut replayer.monitor,
        &mut replayer.answers,
        &replayer.places,
        &replayer.marks,
    )?;
    Ok(())
}

/// The setup that stands where all that was admitted has ended; none where something has not. An error comes only where
/// a growth is refused.
pub(crate) fn standing(replayer: &mut Replayer) -> Result<Option<Setup>, AllocError>
    requires { (x : State) × IsAt x replayer.old }
    ensures { IfOk result (λ left. (x : State) → IsAt x replayer.old → Stands x left) }
{
    if !have_all_ended(replayer) {
        return Ok(None);
    }
    tell_all(replayer)?;
    let setup = replayer.monitor.stands()?;
    Ok(Some(setup))
}
