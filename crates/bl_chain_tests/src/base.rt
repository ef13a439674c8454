//! Setups, trails, and folders with them.
ghost use Rattle.bl_state.specs.Whole.{IsWhole};

use crate::memory::MemoryFolder;
use bl_folder::name::RunFile;
use bl_setup::setup::Setup;
use bl_state::text::write_setup;
use std::alloc::{AllocError, AllocGlobal, Global};
use std::process::Abort;

/// The setup of the first run.
pub const FIRST: &str = "ranks u c s t\n\
categories nato crypto\n\
subject ann greatest s{nato}current s{nato}\n\
subject bob greatest s{nato}current u\n\
document memo s{nato}\"m1\"\n\
document note u\"n1\"\n\
allow ann memo r w\n\
allow bob note r\n";

/// What the first run left.
pub const SECOND: &str = "ranks u c s t\n\
categories nato crypto\n\
subject ann greatest s{nato}current s{nato}\n\
subject bob greatest s{nato}current u\n\
document memo s{nato}\"m1a\"\n\
document note u\"n1\"\n\
allow ann memo r w\n\
allow bob note r\n";

/// What the second run left.
pub const THIRD: &str = "ranks u c s t\n\
categories nato crypto\n\
subject ann greatest s{nato}current s{nato}\n\
subject bob greatest s{nato}current u\n\
document memo s{nato}\"m1ab\"\n\
document note u\"n1\"\n\
allow ann memo r w\n\
allow bob note r\n";

/// The SHA-256 of these three texts, as `sha256sum` has it.
pub const FIRST_SUM: &str = "0b8994cc929dd1932be776c6d36176e9d08fb135cdf899bc4e6d3d8dd42317f4";

pub const SECOND_SUM: &str = "768f4b777dd96eae677b49f00b5900ce593f9010a698dc582d418c47d46e4f57";

pub const THIRD_SUM: &str = "ac0b176bf7c69f041be76687f90e73f8492f009d8d3a6f89afc872c21d208b71";

/// The trail of the first run.
pub const FIRST_TRAIL: &str = "trail 2\nlimit 9\nopen ann\n\
line 0 1 when write memo do add memo\"a\";end\nstart 0 run\nend 0 done\nstop\n";

/// The trail of the second run.
pub const SECOND_TRAIL: &str = "trail 2\nlimit 9\nopen ann\n\
line 0 1 when write memo do add memo\"b\";end\nstart 0 run\nend 0 done\nstop\n";

/// The journal of a run that is not closed.
pub const JOURNAL: &str = "trail 2\nlimit 9\nopen bob\n";

/// A head that a crash has torn.
pub const TORN: &str = "trail 2\nlim";

/// A folder with these files.
pub fn folder_of(alloc: Global, files: &[(RunFile, &str)]) -> Result<MemoryFolder, AllocError> {
    let mut folder = MemoryFolder::new(alloc);
    for (file, text) in files {
        folder.put(*file, text.as_bytes())?;
    }
    Ok(folder)
}

/// Asserts that a setup has this text.
pub fn assert_text<R: AllocGlobal + Abort>(
    rt: &R,
    setup: &Setup,
    text: &str,
) -> Result<(), AllocError>
    requires { IsWhole setup.now }
{
    let written = write_setup(rt.alloc(), setup)?;
    assert!(rt; written.as_slice() == text.as_bytes());
    Ok(())
}
