//! A crash at each moment of each call: what was kept is there, and the file can be opened again and added to.
ghost use Rattle.std.specs.Prelude.{◌≤◌, length};

use crate::base::opened;
use crate::memory::{Memory, Moment};
use crate::torn::Torn;
use bl_disk::log::{Log, reopen};
use std::alloc::{AllocError, Global};
use std::process::Abort;
use std::test::Fail;

/// How many bytes stand up to the last LF, with it.
fn whole_lines(bytes: &[u8]) -> usize
    ensures { result ≤ length bytes.now }
{
    match bytes.iter().rposition(|byte| *byte == b'\n') {
        Some(last) => last + 1,
        None => 0,
    }
}

/// What a crash may leave at a moment: what is kept, so many of the loose bytes, and other bytes behind them.
fn left(alloc: Global, moment: &Moment, loose: usize, behind: &[u8]) -> Result<Vec<u8>, AllocError>
    requires { loose ≤ length moment.now.loose.items }
{
    let mut bytes = moment.kept.to_vec(alloc)?;
    bytes.extend_from_slice(&moment.loose[..loose])?;
    bytes.extend_from_slice(behind)?;
    Ok(bytes)
}

/// Opens what a crash left, and adds a line. It begins with what was kept, and ends with the line.
fn goes_on(rt: &impl Abort, alloc: Global, bytes: Vec<u8>, kept: &[u8]) -> Result<(), AllocError> {
    assert!(rt; bytes.starts_with(kept));
    let right = whole_lines(&bytes);
    let mut log = match reopen(Memory::new(alloc, bytes), right) {
        Ok(log) => log,
        Err(_) => return Err(AllocError),
    };
    if log.add(b"later\n").is_err() {
        return Err(AllocError);
    }
    let now = log.device.now();
    assert!(rt; now.loose.is_empty());
    assert!(rt; now.kept.starts_with(kept));
    assert!(rt; now.kept.ends_with(b"later\n"));
    assert!(rt; whole_lines(&now.kept) == now.kept.len());
    Ok(())
}

/// Crashes at a moment in each way that is tried: with each first part of the loose bytes, and with nothing, zeros, a torn line or a
/// whole one behind it.
fn crashes(rt: &impl Abort, alloc: Global, moment: &Moment, kept: &[u8]) -> Result<(), AllocError> {
    for loose in 0..moment.loose.len() + 1 {
        for behind in ["", "\0\0\0", "tor", "other\n"] {
            let bytes = left(alloc, moment, loose, behind.as_bytes())?;
            goes_on(rt, alloc, bytes, kept)?;
        }
    }
    Ok(())
}

/// Crashes at each moment.
fn crashes_throughout(
    rt: &impl Abort,
    alloc: Global,
    torn: &Torn,
    kept: &[u8],
) -> Result<(), AllocError> {
    for moment in torn.past() {
        crashes(rt, alloc, moment, kept)?;
    }
    crashes(rt, alloc, torn.now(), kept)
}

#[test]
fn a_crash_while_a_text_is_added(rt: HostRuntime) -> Result<(), Fail> {
    let alloc = rt.alloc();
    let torn = Torn::new(alloc, b"one\n", 100, 100)?;
    let mut log = Log { device: torn };
    assert!(rt; log.add(b"two\n").is_ok());
    let moments = log.device.past().len();
    // one before each of the four bytes, and one before the sync
    assert!(rt; moments == 5);
    crashes_throughout(&rt, alloc, &log.device, b"one\n")?;
    crashes(&rt, alloc, log.device.now(), b"one\ntwo\n")?;
    drop(log);
    Ok(())
}

#[test]
fn a_crash_while_a_file_is_opened_again(rt: HostRuntime) -> Result<(), Fail> {
    let alloc = rt.alloc();
    let torn = Torn::new(alloc, b"one\ntwo\nthr", 100, 100)?;
    let log = match opened(torn, 8) {
        Ok(log) => log,
        Err(_) => return Err(Fail::from(AllocError)),
    };
    crashes_throughout(&rt, alloc, &log.device, b"one\ntwo\n")?;
    assert!(rt; log.device.now().kept.as_slice() == b"one\ntwo\n".as_slice());
    drop(log);
    Ok(())
}

#[test]
fn what_was_put_outlives_the_program_and_what_was_kept_the_machine(
    rt: HostRuntime,
) -> Result<(), Fail> {
    let alloc = rt.alloc();
    let torn = Torn::new(alloc, b"one\n", 100, 100)?;
    let mut log = Log { device: torn };
    assert!(rt; log.put(b"two\n").is_ok());
    let now = log.device.now();
    assert!(rt; now.kept.as_slice() == b"one\n".as_slice());
    assert!(rt; now.loose.as_slice() == b"two\n".as_slice());
    assert!(rt; log.keep().is_ok());
    let now = log.device.now();
    assert!(rt; now.kept.as_slice() == b"one\ntwo\n".as_slice());
    assert!(rt; now.loose.is_empty());
    drop(log);
    Ok(())
}
