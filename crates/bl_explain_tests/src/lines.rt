//! Which line of a setup file declared a name or a right.
use crate::base::BASE;
use bl_explain::setup_lines::{Sought, declared_at};
use bl_policy::access::Mode;
use std::alloc::AllocGlobal;
use std::process::Abort;
use std::test::Fail;

/// Asserts the number of the line.
fn assert_at<R: AllocGlobal + Abort>(
    rt: &R,
    sought: &Sought<'_>,
    number: Option<usize>,
) -> Result<(), Fail> {
    let found = declared_at(rt.alloc(), BASE, sought)?;
    assert!(rt; found == number);
    Ok(())
}

#[test]
fn names_of_the_base_setup(rt: HostRuntime) -> Result<(), Fail> {
    assert_at(&rt, &Sought::Subject(b"bob"), Some(4))?;
    assert_at(&rt, &Sought::Document(b"memo"), Some(7))?;
    assert_at(&rt, &Sought::Subject(b"memo"), None)
}

#[test]
fn rights_of_the_base_setup(rt: HostRuntime) -> Result<(), Fail> {
    assert_at(&rt, &Sought::Right(b"bob", b"memo", Mode::Append), Some(13))?;
    assert_at(&rt, &Sought::Right(b"cat", b"memo", Mode::Write), None)
}
