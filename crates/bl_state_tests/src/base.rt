//! Setups that are read, and what is written of them.
ghost use Rattle.std.specs.Prelude.{IfOk, IfSome};
ghost use Rattle.bl_state.specs.Whole.{IsWhole};

use bl_setup::reader::read_setup_within;
use bl_setup::setup::Setup;
use bl_state::laws::read_setups_are_whole;
use bl_state::text::{MOST_TEXT_BYTES, setup_len, write_setup};
use std::alloc::{AllocGlobal, Global};
use std::process::Abort;
use std::test::Fail;

/// The base setup, as `examples/setups/base.txt` has it.
pub const BASE: &str = "ranks u c s t\n\
categories nato crypto\n\
subject ann greatest s{nato} current s{nato}\n\
subject bob greatest s{nato} current u\n\
subject cat greatest s{crypto} current s{crypto}\n\
subject root greatest t{nato,crypto} current u trusted admin\n\
document memo s{nato} \"m1\"\n\
document note u \"n1\"\n\
document log t{nato,crypto} \"\"\n\
allow ann memo r w\n\
allow ann note r w\n\
allow ann log r a\n\
allow bob memo r w a\n\
allow bob note r w\n\
allow cat memo r\n\
allow root note r w\n";

/// The same, as it is written: with no blank but between two words, and the modes of a cell in their order.
pub const BASE_WRITTEN: &str = "ranks u c s t\n\
categories nato crypto\n\
subject ann greatest s{nato}current s{nato}\n\
subject bob greatest s{nato}current u\n\
subject cat greatest s{crypto}current s{crypto}\n\
subject root greatest t{nato,crypto}current u trusted admin\n\
document memo s{nato}\"m1\"\n\
document note u\"n1\"\n\
document log t{nato,crypto}\"\"\n\
allow ann memo r w\n\
allow ann note r w\n\
allow ann log r a\n\
allow bob memo r a w\n\
allow bob note r w\n\
allow cat memo r\n\
allow root note r w\n";

/// The setup that a text is.
pub fn read(alloc: Global, text: &[u8]) -> Result<Setup, Fail>
    ensures { IfOk result IsWhole }
{
    read_setups_are_whole();
    let setup = read_setup_within(alloc, text, MOST_TEXT_BYTES)?;
    Ok(setup)
}

/// The base setup; none where a growth is refused.
pub fn base_or_none(alloc: Global) -> Option<Setup>
    ensures { IfSome result IsWhole }
{
    read_setups_are_whole();
    match read_setup_within(alloc, BASE.as_bytes(), MOST_TEXT_BYTES) {
        Ok(setup) => Some(setup),
        Err(_fault) => None,
    }
}

/// Asserts what is written of the setup that a text is, and how long that is.
pub fn assert_written<R: AllocGlobal + Abort>(
    rt: &R,
    text: &[u8],
    wanted: &[u8],
) -> Result<(), Fail> {
    let setup = read(rt.alloc(), text)?;
    let len = setup_len(&setup);
    let written = write_setup(rt.alloc(), &setup);
    drop(setup);
    let written = written?;
    assert_eq!(rt; len, wanted.len());
    assert!(rt; written.as_slice() == wanted);
    Ok(())
}

/// Asserts that this is written of the setup that a text is, and so of the setup that it is itself.
pub fn assert_stays<R: AllocGlobal + Abort>(
    rt: &R,
    text: &[u8],
    wanted: &[u8],
) -> Result<(), Fail> {
    assert_written(rt, text, wanted)?;
    assert_written(rt, wanted, wanted)
}
