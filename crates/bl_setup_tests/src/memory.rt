//! What is read of a setup file where a growth is refused. With ample memory the test here passes by the faults alone.
//! It passes whatever single growth is refused too: `bench/checks/growths` refuses each in turn, and tells so by a
//! file.
use super::files::{BACK, BOB, FRONT, add_parts};
use bl_setup::fault::{SetupFault, SetupFaultKind};
use bl_setup::reader::read_setup;
use std::alloc::AllocGlobal;
use std::fs;
use std::io::Print;
use std::process::Abort;
use std::rt::Files;

/// Whether a growth was refused so far: who refuses one writes this file then, in the folder where the test runs.
fn was_refused(rt: &impl Files) -> bool {
    !matches!(fs::exists(rt, "refused"), Ok(false))
}

/// Whether it was out of memory at a line that is read, of which this is the last.
fn is_out_of_memory(fault: Option<SetupFault>, last: u32) -> bool {
    match fault {
        Some(fault) => {
            fault.kind == SetupFaultKind::Memory && 1 <= fault.line && fault.line <= last
        }
        None => false,
    }
}

/// What comes of reading a file, of which this is the last line that is read: its own fault, or none; or, where a growth was refused in the
/// call, out of memory. Nothing where it is neither.
fn came_of<R: AllocGlobal + Files>(
    rt: &R,
    text: &[u8],
    own: Option<SetupFault>,
    last: u32,
) -> Option<&'static str> {
    let before = was_refused(rt);
    let fault = read_setup(rt.alloc(), text).err();
    if fault == own {
        Some("own")
    } else if !before && was_refused(rt) && is_out_of_memory(fault, last) {
        Some("out of memory")
    } else {
        None
    }
}

/// What comes of reading the file that these parts are, of which this is the last line that is read. Nothing where that may not be.
fn came<R: AllocGlobal + Files>(
    rt: &R,
    parts: &[&[u8]],
    own: Option<SetupFault>,
    last: u32,
) -> Option<&'static str> {
    let mut text = Vec::new(rt.alloc());
    match add_parts(&mut text, parts) {
        Ok(()) => came_of(rt, text.as_slice(), own, last),
        Err(_) if was_refused(rt) => Some("before"),
        Err(_) => None,
    }
}

/// Asserts that the file that these parts are has this fault in its last line that is read, or none; says what came of reading it.
fn assert_reads<R: AllocGlobal + Abort + Files + Print>(
    rt: &R,
    parts: &[&[u8]],
    last: u32,
    own: Option<SetupFaultKind>,
) {
    let own = own.map(|kind| SetupFault { line: last, kind });
    match came(rt, parts, own, last) {
        Some(came) => {
            let _ = println!(rt; "{came}");
        }
        None => panic!(rt; "another answer"),
    }
}

#[test]
fn setup_faults(rt: HostRuntime) {
    assert_reads(&rt, &[], 1, Some(SetupFaultKind::Syntax));
    assert_reads(&rt, &[b"ranks u u"], 1, Some(SetupFaultKind::Repeated));
    let above: &[u8] = b"subject bob greatest u current s\n";
    let fault = Some(SetupFaultKind::CurrentAboveGreatest);
    assert_reads(&rt, &[FRONT, above, BACK], 4, fault);
    let unknown: &[u8] = b"allow zed memo r\n";
    assert_reads(
        &rt,
        &[FRONT, BOB, BACK, unknown],
        17,
        Some(SetupFaultKind::Unknown),
    );
    assert_reads(&rt, &[FRONT, BOB, BACK], 16, None);
}
