//! What comes of a next setup where a growth is refused. With ample memory the test here passes by the setup alone. It
//! passes whatever single growth is refused too: `bench/checks/growths` refuses each in turn, and tells so by a file.
ghost use Rattle.std.specs.Prelude.{IfSome};
ghost use Rattle.bl_state.specs.Whole.{IsWhole};

use crate::base::{BASE, base_or_none};
use bl_core::machine::Core;
use bl_next::next::{have_all_ended, next_setup};
use bl_state::text::setup_len;
use std::alloc::Global;
use std::fs;
use std::io::Print;
use std::rt::Files;

/// Whether a growth was refused so far: who refuses one writes this file then, in the folder where the test runs.
fn was_refused(rt: &impl Files) -> bool {
    !matches!(fs::exists(rt, "refused"), Ok(false))
}

/// Says what came of a call.
fn say(rt: &impl Print, came: &str) {
    let _ = println!(rt; "{came}");
}

/// A core over the base setup; none where a growth is refused.
fn core_or_none(alloc: Global) -> Option<Core>
    ensures { IfSome result (λ core. IsWhole core.setup) }
{
    match Core::new(alloc, base_or_none(alloc)?, 100) {
        Ok(core) => Some(core),
        Err(_refused) => None,
    }
}

#[test]
fn the_first_setup(rt: HostRuntime) {
    let Some(core) = core_or_none(rt.alloc()) else {
        assert!(rt; was_refused(&rt), "no core");
        return say(&rt, "before");
    };
    if !have_all_ended(&core) {
        panic!(rt; "not ended")
    }
    let before = was_refused(&rt);
    let next = next_setup(rt.alloc(), &core);
    drop(core);
    match next {
        Ok(setup) => {
            assert_eq!(rt; setup_len(&setup), BASE.len());
            drop(setup);
            say(&rt, "own");
        }
        Err(_refused) => {
            assert!(rt; !before && was_refused(&rt), "no growth was refused");
            say(&rt, "out of memory");
        }
    }
}
