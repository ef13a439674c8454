//! The setup of the worked examples, and verdicts over it.
use bl_replay::replay::replay;
use bl_setup::reader::read_setup;
use bl_setup::setup::Setup;
use bl_trail::verdict::Verdict;
use std::alloc::Global;
use std::process::Abort;
use std::test::Fail;

/// The base setup.
const BASE: &str = "ranks u c s t\n\
categories nato crypto\n\
subject ann greatest s{nato} current s{nato}\n\
subject bob greatest s{nato} current u\n\
subject cat greatest s{crypto} current s{crypto}\n\
subject root greatest t{nato,crypto} current u trusted admin\n\
document memo s{nato} \"m1\"\n\
document note u \"n1\"\n\
document log t{nato,crypto} \"\"\n\
allow ann memo r w\n\
allow ann note r w\n\
allow ann log r a\n\
allow bob memo r w a\n\
allow bob note r w\n\
allow cat memo r\n\
allow root note r w\n";

/// Two further lines.
const RESERVED: &str = "reserve draft u\nreserve top t\n";

/// The base setup with two documents that are not there yet.
fn reserved(alloc: Global) -> Result<Setup, Fail> {
    let mut text = Vec::new(alloc);
    text.extend_from_slice(BASE.as_bytes())?;
    text.extend_from_slice(RESERVED.as_bytes())?;
    Ok(read_setup(alloc, &text)?)
}

/// The base setup; none where a growth is refused.
pub fn base_or_none(alloc: Global) -> Option<Setup> {
    read_setup(alloc, BASE.as_bytes()).ok()
}

/// Asserts the verdict on a text over a setup.
fn assert_verdict<R: AllocGlobal + Abort>(
    rt: &R,
    setup: &Setup,
    text: &[u8],
    verdict: Verdict,
) -> Result<(), Fail> {
    let said = replay(rt.alloc(), setup, text)?;
    assert_eq!(rt; said, verdict);
    Ok(())
}

/// Asserts the verdicts on several texts over a setup.
fn assert_each<R: AllocGlobal + Abort>(
    rt: &R,
    setup: &Setup,
    cases: &[(&str, Verdict)],
) -> Result<(), Fail> {
    for (text, verdict) in cases {
        assert_verdict(rt, setup, text.as_bytes(), *verdict)?;
    }
    Ok(())
}

/// Asserts the verdicts on several texts over the base setup.
pub fn assert_verdicts<R: AllocGlobal + Abort>(
    rt: &R,
    cases: &[(&str, Verdict)],
) -> Result<(), Fail> {
    let setup = read_setup(rt.alloc(), BASE.as_bytes())?;
    let passed = assert_each(rt, &setup, cases);
    drop(setup);
    passed
}

/// Asserts the verdicts on several texts over the base setup with two documents that are not there yet.
pub fn assert_verdicts_over_reserved<R: AllocGlobal + Abort>(
    rt: &R,
    cases: &[(&str, Verdict)],
) -> Result<(), Fail> {
    let setup = reserved(rt.alloc())?;
    let passed = assert_each(rt, &setup, cases);
    drop(setup);
    passed
}

/// Asserts that each proper prefix of these bytes is rejected over a setup, at the line at which it ends.
fn assert_each_prefix_rejected<R: AllocGlobal + Abort>(
    rt: &R,
    setup: &Setup,
    bytes: &[u8],
) -> Result<(), Fail> {
    let mut line: u64 = 1;
    for (end, byte) in bytes.iter().enumerate() {
        assert_verdict(rt, setup, &bytes[..end], Verdict::Rejected(line))?;
        if *byte == b'\n' && line < 100_000 {
            line += 1;
        }
    }
    Ok(())
}

/// Asserts that each proper prefix of a text is rejected over the base setup, at the line at which it ends.
pub fn assert_prefixes_rejected<R: AllocGlobal + Abort>(rt: &R, text: &str) -> Result<(), Fail> {
    let setup = read_setup(rt.alloc(), BASE.as_bytes())?;
    let passed = assert_each_prefix_rejected(rt, &setup, text.as_bytes());
    drop(setup);
    passed
}
