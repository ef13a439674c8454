//! Many lines of a client, and many entries of several, in few rounds.
use super::base::{Client, GREETER, READER, ROUNDS, WRITER, assert_served};
use super::streams::{Manner, failing_at};
use bl_wire::fault::SessionFault;
use std::alloc::{AllocError, Global};
use std::test::Fail;

/// What a client says that sends so many reads at once.
fn reads(alloc: Global, count: u32) -> Result<Vec<u8>, AllocError> {
    let mut says = Vec::new(alloc);
    says.extend_from_slice(b"hello ann\n")?;
    for _ in 0..count {
        says.extend_from_slice(b"when read memo do show memo; end\n")?;
    }
    says.extend_from_slice(b"wait\n")?;
    Ok(says)
}

/// What it is told.
fn replies(alloc: Global, count: u32) -> Result<Vec<u8>, AllocError> {
    let mut told = Vec::new(alloc);
    told.extend_from_slice(b"ok\n")?;
    for ordinal in 1..=count {
        let reply = format!(in alloc; "{ordinal} done \"m1\"\n")?;
        told.extend_from_slice(reply.as_bytes())?;
    }
    told.extend_from_slice(b"ok\nbye\n")?;
    Ok(told)
}

/// A client sends a hundred lines at once. One round is enough, two where two others do so too: one line in each turn
/// at the gate would take more than ten.
#[test]
fn hundred_lines(rt: HostRuntime) -> Result<(), Fail> {
    let alloc = rt.alloc();
    let says = reads(alloc, 100)?;
    let told = replies(alloc, 100)?;
    let client = Client {
        says: says.as_slice(),
        told: told.as_slice(),
        ..READER
    };
    assert_served(&rt, &[client], 1);
    assert_served(&rt, &[client, client, client], 2);
    Ok(())
}

/// Several clients, whose entries are run together.
#[test]
fn several_clients(rt: HostRuntime) {
    let unwritten = READER.by(Manner::PLAIN, failing_at(7));
    let unwritten = Client {
        told: b"ok\n1 d",
        fault: Some(SessionFault::Write),
        ..unwritten
    };
    assert_served(&rt, &[READER, GREETER, WRITER, unwritten], ROUNDS);
}
