//! Texts that are put into writers which take little at a call, or fail.
ghost use Rattle.bl_state.specs.Whole.{IsWhole};

use crate::base::{BASE, BASE_WRITTEN, read};
use bl_setup::setup::Setup;
use bl_state::put::put_setup;
use bl_wire::watched::Watched;
use std::alloc::AllocGlobal;
use std::io;
use std::io::Write;
use std::process::Abort;
use std::test::Fail;

/// A writer that takes seven bytes at a call at most, and fails once so many calls are done.
#[derive(Drop)]
struct Slow {
    taken: Vec<u8>,
    left: usize,
}

impl Write for Slow {
    fn write(&mut self, buf: &[u8]) -> io::Result<usize> {
        if self.left == 0 {
            return Err(io::Error::from(io::ErrorKind::Interrupted));
        }
        self.left -= 1;
        let n = buf.len().min(7);
        self.taken.write(&buf[..n])
    }

    fn flush(&mut self) -> io::Result<()> {
        self.taken.flush()
    }
}

/// Puts the setup into a writer that fails after so many calls, and says whether it took all. Asserts that it took a
/// first part of the text.
fn puts_all<R: AllocGlobal + Abort>(rt: &R, setup: &Setup, calls: usize) -> Result<bool, Fail>
    requires { IsWhole setup.now }
{
    let mut writer = Watched::new(Slow {
        taken: Vec::new(rt.alloc()),
        left: calls,
    });
    let all = put_setup(rt.alloc(), &mut writer, setup)?;
    assert_eq!(rt; writer.failed(), !all);
    let taken = writer.into_inner().taken;
    assert!(rt; BASE_WRITTEN.as_bytes().starts_with(&taken));
    assert_eq!(rt; taken.len() == BASE_WRITTEN.len(), all);
    Ok(all)
}

/// The first number of calls by which a writer takes all. Each smaller one was tried.
fn calls_needed<R: AllocGlobal + Abort>(rt: &R, setup: &Setup, most: usize) -> Result<usize, Fail>
    requires { IsWhole setup.now }
{
    for calls in 0..most {
        if puts_all(rt, setup, calls)? {
            return Ok(calls);
        }
    }
    Ok(most)
}

/// With fewer calls than the text's lines take, seven bytes at a time, a first part of it is taken.
#[test]
fn fail_each_write(rt: HostRuntime) -> Result<(), Fail> {
    let setup = read(rt.alloc(), BASE.as_bytes())?;
    let needed = calls_needed(&rt, &setup, 1_000);
    drop(setup);
    assert_eq!(rt; needed?, 69);
    Ok(())
}

/// What is put stands behind what was put before.
#[test]
fn behind_other_bytes(rt: HostRuntime) -> Result<(), Fail> {
    let setup = read(rt.alloc(), BASE.as_bytes())?;
    let mut taken = Vec::new(rt.alloc());
    taken.extend_from_slice(b"before\n")?;
    let mut writer = Watched::new(taken);
    let all = put_setup(rt.alloc(), &mut writer, &setup);
    drop(setup);
    assert!(rt; all?);
    let taken = writer.into_inner();
    assert!(rt; taken.as_slice().starts_with(b"before\n"));
    assert!(rt; &taken[7..] == BASE_WRITTEN.as_bytes());
    Ok(())
}
