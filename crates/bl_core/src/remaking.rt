//! The right to lose what nobody tried.
ghost use Rattle.std.specs.Prelude.{◌≡◌, ◌≤◌, IfOk, IsTrue};
ghost use Rattle.bl_queue.specs.Queues.{most_entries};
ghost use Rattle.bl_order.specs.Machine.{Loses, MayStart, change, runs, start};
ghost use Rattle.bl_core.specs.Answers.{loan_at};

use crate::machine::Core;
use bl_eval::lent::Lent;
use bl_setup::setup::Setup;
use std::alloc::{AllocError, Global};

/// The right to end entries as lost that nobody tried. It is for whoever makes the events of a trail again in which
/// such entries were lost, and is made with a core in which nothing has happened. A core alone loses only what was
/// refused memory: by a `Starved`, which its own start gives, or an `Unrun`, which only `eval` makes of a `Lent`.
///
/// That it is used with the core that it came with, no type says. A hall lends its core to look at alone.
#[derive(Drop)]
pub struct Remaking {
    _begun: (),
}

impl Remaking {
    /// A core of an empty order, as `Core::new` makes it, and the right to lose there what nobody tried. The limit is 1
    /// to 100,000. An error comes only where a growth is refused.
    pub fn begin(alloc: Global, setup: Setup, limit: u32) -> Result<(Core, Remaking), AllocError>
        requires some { 1 ≤ limit }
        requires most { limit ≤ most_entries }
        ensures { IfOk result (λ begun. begun.0 ≡ start setup limit) }
    {
        let core = Core::new(alloc, setup, limit)?;
        Ok((core, Remaking { _begun: () }))
    }

    /// Ends a running entry of a core as lost, with what it was lent, which nobody has tried: nothing that it was lent
    /// has changed. It takes no memory.
    pub fn lose_running(&self, core: &mut Core, lent: Lent)
        requires running { IsTrue (runs core.old lent.entry) }
        requires lent { lent ≡ loan_at core.old lent.entry }
        ensures { core.new ≡ change core.old (Loses lent.entry) }
    {
        core.lose_running(lent);
    }

    /// Ends an entry of a core as lost that may start, whether or not it was refused memory. It takes no memory.
    pub fn lose_untried(&self, core: &mut Core, n: u32)
        requires { MayStart core.old n }
        ensures { core.new ≡ change core.old (Loses n) }
    {
        core.lose_untried(n);
    }
}
