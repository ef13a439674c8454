//! The evaluation of one behaviour.
ghost use Rattle.std.specs.Prelude.{◌≡◌, ◌<◌, [], List, length, map, slice_index_or, IsTrue, IfOk, MatchResult};
ghost use Rattle.bl_work.specs.Modes.{KeepsModes};
ghost use Rattle.bl_work.specs.Script.{AreApart, HasContents};
ghost use Rattle.bl_work.specs.Statements.{no_part};
ghost use Rattle.bl_work.specs.Body.{statements_of};
ghost use Rattle.bl_grant.specs.Loaned.{Loaned, as_lent};
ghost use Rattle.bl_grant.specs.Loans.{accesses_of, lent_of};
ghost use Rattle.bl_eval.specs.Loan.{AreFor};
ghost use Rattle.bl_eval.specs.Performed.{HasPerformed};

use crate::lent::{Done, Lent, Unrun};
use crate::told::Told;
use bl_grant::grants::Grants;
use bl_work::answer::Outputs;
use bl_work::few::Few;
use bl_work::script::{Script, Stmt};
use std::alloc::{AllocError, Global};

/// What a whole body showed and spawned.
#[derive(Drop)]
struct Performed {
    outputs: Outputs,
    spawned: Vec<u8>,
}

/// Runs a whole body over grants as they were lent. After an error the grants may have changed, but are still of what was lent.
fn perform(alloc: Global, grants: &mut Grants, statements: &[Stmt]) -> Result<Performed, AllocError>
    requires lent { map as_lent grants.old ≡ grants.old }
    requires apart { AreApart (accesses_of grants.old) }
    requires modes { KeepsModes (accesses_of grants.old) (statements_of statements.now) }
    requires texts { HasContents (statements_of statements.now) }
    ensures kept { map as_lent grants.new ≡ grants.old }
    ensures done { IfOk result (HasPerformed (statements_of statements.now) grants.old grants.new) }
{
    let mut told = Told {
        shown: Few::Nothing,
        spawned: Vec::new(alloc),
    };
    told.run(alloc, grants, statements)?;
    let Told { shown, spawned } = told;
    Ok(Performed {
        outputs: Outputs::of(shown),
        spawned,
    })
}

/// A behaviour that is left undone, with its grants as they were lent.
fn leave(entry: u32, script: Script, index: u8, grants: Grants) -> Unrun
    requires there { index < length script }
    requires grants { AreFor entry (slice_index_or script index no_part).accesses (map as_lent grants) }
    ensures { result ≡ record { entry = entry; script = script; index = index; inputs = lent_of (map as_lent grants) } }
{
    let mut grants = grants;
    grants.reset();
    Unrun {
        entry,
        script,
        index,
        grants: grants.withdraw(),
    }
}

/// Runs a behaviour. It waits for nobody, and its answer rests on what was lent alone: at `Ok` on what the behaviour does on
/// that, and an `Unrun`, which comes only when out of memory, has what was lent.
pub fn eval(alloc: Global, lent: Lent) -> Result<Done, Unrun>
    ensures { MatchResult result (λ done. done ≡ lent) (λ unrun. unrun ≡ lent) }
{
    let Lent {
        entry,
        script,
        index,
        grants,
    } = lent;
    let mut grants = grants;
    let performed = match perform(alloc, &mut grants, script.body(usize::from(index))) {
        Ok(performed) => performed,
        Err(_) => return Err(leave(entry, script, index, grants)),
    };
    let Performed { outputs, spawned } = performed;
    Ok(Done {
        entry,
        script,
        index,
        grants: grants.withdraw(),
        outputs,
        spawned,
    })
}
