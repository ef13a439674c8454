//! The base setup, and what trails over it leave.
ghost use Rattle.std.specs.Prelude.{IfSome};
ghost use Rattle.bl_state.specs.Whole.{IsWhole};

use bl_left::left::{Remains, left_by};
use bl_setup::reader::read_setup;
use bl_setup::setup::Setup;
use bl_state::laws::read_setups_are_whole;
use bl_state::text::write_setup;
use bl_trail::verdict::Verdict;
use std::alloc::{AllocError, AllocGlobal, Global};
use std::process::Abort;
use std::test::Fail;

/// The base setup.
pub const BASE: &str = "ranks u c s t\n\
categories nato crypto\n\
subject ann greatest s{nato}current s{nato}\n\
subject bob greatest s{nato}current u\n\
subject root greatest t{nato,crypto}current u trusted admin\n\
document memo s{nato}\"m1\"\n\
document note u\"n1\"\n\
allow ann memo r w\n\
allow ann note r w\n\
allow bob memo r w\n\
allow root note r w\n";

/// The base setup; none where a growth is refused.
pub fn base_or_none(alloc: Global) -> Option<Setup>
    ensures { IfSome result IsWhole }
{
    read_setups_are_whole();
    match read_setup(alloc, BASE.as_bytes()) {
        Ok(setup) => Some(setup),
        Err(_fault) => None,
    }
}

/// The verdict on a trail over a setup, and the text of what it leaves; no text where it leaves nothing.
fn text_left(alloc: Global, setup: &Setup, trail: &[u8]) -> Result<(Verdict, Vec<u8>), AllocError>
    requires { IsWhole setup.now }
{
    let left = left_by(alloc, setup, trail)?;
    let Remains {
        verdict,
        setup: left,
    } = left;
    match left {
        Some(stands) => Ok((verdict, write_setup(alloc, &stands)?)),
        None => Ok((verdict, Vec::new(alloc))),
    }
}

/// Asserts the verdict on a trail over the base setup, and the text of what it leaves: no text where it leaves nothing.
pub fn assert_left<R: AllocGlobal + Abort>(
    rt: &R,
    trail: &str,
    verdict: Verdict,
    text: &str,
) -> Result<(), Fail> {
    let Some(setup) = base_or_none(rt.alloc()) else {
        panic!(rt; "no setup")
    };
    let left = text_left(rt.alloc(), &setup, trail.as_bytes());
    drop(setup);
    let (said, stands) = left?;
    assert_eq!(rt; said, verdict);
    assert!(rt; stands.as_slice() == text.as_bytes());
    Ok(())
}
