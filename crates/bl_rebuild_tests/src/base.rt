//! The setups of the worked examples, and what is written and rebuilt over them.
ghost use Rattle.std.specs.Prelude.{◌≡◌, Ok};

use bl_audit::trail::write_trail;
use bl_hall::hall::Hall;
use bl_rebuild::rebuild::rebuild;
use bl_setup::reader::read_setup;
use bl_setup::setup::Setup;
use bl_wire::watched::Watched;
use std::alloc::{AllocGlobal, Global};
use std::process::Abort;
use std::test::Fail;

/// The base setup.
const BASE: &str = "ranks u c s t\n\
categories nato crypto\n\
subject ann greatest s{nato} current s{nato}\n\
subject bob greatest s{nato} current u\n\
subject cat greatest s{crypto} current s{crypto}\n\
subject root greatest t{nato,crypto} current u trusted admin\n\
document memo s{nato} \"m1\"\n\
document note u \"n1\"\n\
document log t{nato,crypto} \"\"\n\
allow ann memo r w\n\
allow ann note r w\n\
allow ann log r a\n\
allow bob memo r w a\n\
allow bob note r w\n\
allow cat memo r\n\
allow root note r w\n";

/// Two further lines.
const RESERVED: &str = "reserve draft u\nreserve top t\n";

/// The base setup.
pub fn base(alloc: Global) -> Result<Setup, Fail> {
    Ok(read_setup(alloc, BASE.as_bytes())?)
}

/// The base setup; none where a growth is refused.
pub fn base_or_none(alloc: Global) -> Option<Setup> {
    read_setup(alloc, BASE.as_bytes()).ok()
}

/// The base setup with two documents that are not there yet.
pub fn reserved(alloc: Global) -> Result<Setup, Fail> {
    let mut text = Vec::new(alloc);
    text.extend_from_slice(BASE.as_bytes())?;
    text.extend_from_slice(RESERVED.as_bytes())?;
    Ok(read_setup(alloc, &text)?)
}

/// What came where no fault may come.
pub fn right<T, E>(rt: &impl Abort, outcome: Result<T, E>) -> T
    ensures { outcome ≡ Ok result }
{
    match outcome {
        Ok(value) => value,
        Err(_fault) => panic!(rt; "a fault"),
    }
}

/// The text of a hall's trail, which `stop` ends.
pub fn text_of<R: AllocGlobal + Abort>(rt: &R, hall: &Hall) -> Vec<u8> {
    let mut text = Watched::new(Vec::new(rt.alloc()));
    right(rt, write_trail(rt.alloc(), hall, &mut text));
    text.into_inner()
}

/// Asserts that the trail of a hall has the text of this front, and then `stop`.
pub fn assert_trail<R: AllocGlobal + Abort>(rt: &R, hall: &Hall, front: &[u8]) -> Result<(), Fail> {
    let mut wanted = Vec::new(rt.alloc());
    wanted.extend_from_slice(front)?;
    wanted.extend_from_slice(b"stop\n")?;
    let text = text_of(rt, hall);
    assert!(rt; text.as_slice() == wanted.as_slice());
    Ok(())
}

/// Asserts what is rebuilt of a front with something after it: just the front, and so many entries that run.
pub fn assert_rebuilt<R: AllocGlobal + Abort>(
    rt: &R,
    setup: &Setup,
    front: &[u8],
    behind: &[u8],
    running: usize,
) -> Result<(), Fail> {
    let mut text = Vec::new(rt.alloc());
    text.extend_from_slice(front)?;
    text.extend_from_slice(behind)?;
    let rebuilt = right(rt, rebuild(rt.alloc(), setup, &text));
    assert_eq!(rt; rebuilt.right, front.len());
    assert_eq!(rt; rebuilt.running.len(), running);
    let passed = assert_trail(rt, &rebuilt.hall, front);
    drop(rebuilt);
    passed
}
