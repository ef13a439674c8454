//! The setup that stands where a run has ended.
ghost use Rattle.std.specs.Prelude.{◌≡◌, ◌↔◌, IfOk, IsTrue, length};
ghost use Rattle.bl_order.specs.Now.{content_now};
ghost use Rattle.bl_order.specs.Standing.{HaveAllEnded, setup_now, tabled};
ghost use Rattle.bl_state.specs.Whole.{IsWhole};

use bl_core::machine::Core;
use bl_order::laws::each_place_has_a_phase;
use bl_policy::id::DocId;
use bl_setup::setup::Setup;
use bl_state::laws::states_stay_whole;
use bl_work::document::Document;
use std::alloc::{AllocError, Global};

/// Whether all that was admitted has ended.
pub fn have_all_ended(core: &Core) -> bool
    ensures { IsTrue result ↔ HaveAllEnded core.now }
{
    for n in 0..core.entries() {
        if !core.is_ended(n) {
            return false;
        }
    }
    true
}

/// The contents that stand where all has ended: each has one more owner.
fn contents_of(alloc: Global, core: &Core) -> Result<Vec<Document>, AllocError>
    requires { HaveAllEnded core.now }
    ensures { IfOk result (λ contents. contents.items ≡ tabled 0 (length core.now.setup.contents) (content_now core.now)) }
{
    each_place_has_a_phase();
    // asked for the proof alone: a trail leads to the core's state
    let _policy = core.policy();
    let documents = core.setup().names().documents();
    let mut contents = Vec::with_capacity(alloc, documents)?;
    for doc in 0..documents {
        let Some(content) = core.content(DocId::new(doc as u16)) else {
            // away is a content only while an entry that may alter it runs
            unreachable!()
        };
        contents.push(content.share()?)?;
    }
    Ok(contents)
}

/// The setup that stands where all has ended, which the next run may begin with: the names, the policy now, and the
/// contents now. It has names and a policy of its own, and shares the contents. An error comes only where a growth is
/// refused.
pub fn next_setup(alloc: Global, core: &Core) -> Result<Setup, AllocError>
    requires ended { HaveAllEnded core.now }
    requires whole { IsWhole core.now.setup }
    ensures stands { IfOk result (λ setup. setup ≡ setup_now core.now) }
    // So it has a text, and the next run a next setup.
    ensures whole { IfOk result IsWhole }
{
    states_stay_whole();
    let contents = contents_of(alloc, core)?;
    let policy = core.policy().copy()?;
    let names = core.names().copy()?;
    Ok(Setup::of(names, policy, contents))
}
