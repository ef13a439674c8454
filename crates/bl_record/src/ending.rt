//! Ends all that was admitted to a hall: first what runs, and then what may start, as long as there is something.
ghost use Rattle.std.specs.Prelude.{◌≡◌, IsTrue, OnOk};
ghost use Rattle.bl_core.specs.Answers.{loan_at};
ghost use Rattle.bl_hall.specs.Chronicle.{HasTrail, state_now, with_event};
ghost use Rattle.bl_order.specs.Machine.{Ends, MayStart, runs};
ghost use Rattle.bl_order.specs.Standing.{HaveAllEnded};
ghost use Rattle.bl_rebuild.specs.Unfinished.{loans_now};
ghost use Rattle.bl_record.specs.Ending.{HasGoneOn};
ghost use Rattle.bl_record.specs.Nearing.{IsIdle, IsNearer};

use bl_core::machine::Started;
use bl_core::refusal::StartFault;
use bl_eval::evaluate::eval;
use bl_eval::lent::Lent;
use bl_hall::hall::Hall;
use bl_order::laws::{each_state_holds, the_order_has_room};
use bl_rebuild::unfinished::Unfinished;
use std::alloc::{AllocError, Global};

/// Evaluates what a running entry was lent, and ends it with what was done. An error comes only where a growth is
/// refused.
fn end_lent(alloc: Global, hall: &mut Hall, lent: Lent) -> Result<(), AllocError>
    requires running { IsTrue (runs (state_now hall.old) lent.entry) }
    requires lent { lent ≡ loan_at (state_now hall.old) lent.entry }
    ensures change { OnOk result (hall.new ≡ with_event hall.old (Ends lent.entry)) }
    ensures trail { OnOk result (HasTrail hall.new) }
{
    match eval(alloc, lent) {
        Ok(done) => {
            hall.finish_lent(done);
            Ok(())
        }
        Err(unrun) => {
            hall.lose_lent(unrun);
            Err(AllocError)
        }
    }
}

/// Ends what runs, in the order of places.
fn end_running(alloc: Global, hall: &mut Hall, running: Vec<Unfinished>) -> Result<(), AllocError>
    requires trail { HasTrail hall.old }
    requires running { running.items ≡ loans_now (state_now hall.old) }
    ensures on { OnOk result (HasGoneOn hall.old hall.new) }
    ensures idle { OnOk result (IsIdle (state_now hall.new)) }
{
    for unfinished in running {
        end_lent(alloc, hall, unfinished.into_lent())?;
    }
    Ok(())
}

/// Starts an entry that may start, and ends it.
fn run_ready(alloc: Global, hall: &mut Hall, n: u32) -> Result<(), AllocError>
    requires trail { HasTrail hall.old }
    requires idle { IsIdle (state_now hall.old) }
    requires may { MayStart (state_now hall.old) n }
    ensures on { OnOk result (HasGoneOn hall.old hall.new) }
    ensures idle { OnOk result (IsIdle (state_now hall.new)) }
    ensures nearer { OnOk result (IsNearer hall.old hall.new) }
{
    the_order_has_room();
    match hall.start(n) {
        Ok(Started::Run(lent)) => end_lent(alloc, hall, lent),
        Ok(Started::Denied(_)) => Ok(()),
        Ok(Started::RuleDone) => Ok(()),
        Err(StartFault::Memory(_)) => Err(AllocError),
        Err(StartFault::NotReady) => unreachable!(),
    }
}

/// Runs what may start, as long as there is something.
fn run_waiting(alloc: Global, hall: &mut Hall) -> Result<(), AllocError>
    requires trail { HasTrail hall.old }
    requires idle { IsIdle (state_now hall.old) }
    ensures on { OnOk result (HasGoneOn hall.old hall.new) }
    ensures ended { OnOk result (HaveAllEnded (state_now hall.new)) }
{
    each_state_holds();
    while let Some(n) = hall.ready() {
        run_ready(alloc, hall, n)?;
    }
    Ok(())
}

/// Ends all that was admitted and has not ended, of a hall in which just this runs. An error comes only where a growth
/// is refused; the hall is then left anywhere on the way.
pub fn end_all(alloc: Global, hall: &mut Hall, running: Vec<Unfinished>) -> Result<(), AllocError>
    requires trail { HasTrail hall.old }
    requires running { running.items ≡ loans_now (state_now hall.old) }
    ensures on { OnOk result (HasGoneOn hall.old hall.new) }
    ensures ended { OnOk result (HaveAllEnded (state_now hall.new)) }
{
    end_running(alloc, hall, running)?;
    run_waiting(alloc, hall)
}
