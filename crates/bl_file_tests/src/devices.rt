//! A file of the system as a device.
use bl_disk::device::{Device, DeviceError};
use bl_file::kept::Keeping;
use bl_file::open::{OpenFault, make, open, open_to_add, open_to_read};
use std::fs;
use std::os::unix::fs::MetadataExt;
use std::rt::Files;
use std::test::Fail;

/// Removes what earlier runs left under these names.
fn clear<R: Files>(rt: &R, names: &[&str]) {
    for name in names {
        let _ = fs::remove_file(rt, *name);
    }
}

/// Whether the file of this name has just these bytes.
fn has(rt: &HostRuntime, name: &str, bytes: &[u8]) -> bool {
    match fs::read(rt, name) {
        Ok(found) => found.as_slice() == bytes,
        Err(_) => false,
    }
}

/// A device that is added to, cut and synced is the file with those bytes, and its owner's alone.
#[test]
fn a_file_is_what_was_done_to_it(rt: HostRuntime) -> Result<(), Fail> {
    clear(&rt, &["made.file"]);
    let Ok(mut device) = make(&rt, rt.alloc(), "made.file", Keeping::Synced) else {
        return Err(Fail::new("not made"));
    };
    assert!(rt; device.append(b"one two").is_ok());
    assert!(rt; device.sync().is_ok());
    assert!(rt; device.cut(4).is_ok());
    assert!(rt; device.append(b"three").is_ok());
    assert!(rt; has(&rt, "made.file", b"one three"));
    assert!(rt; fs::metadata(&rt, "made.file")?.mode() % 512 == 0o600);
    drop(device);
    let Ok(mut again) = open(&rt, rt.alloc(), "made.file", Keeping::Written) else {
        return Err(Fail::new("not opened"));
    };
    match again.read(rt.alloc()) {
        Ok(bytes) => assert!(rt; bytes.as_slice() == b"one three".as_slice()),
        Err(_) => return Err(Fail::new("not read")),
    }
    assert!(rt; again.append(b" four").is_ok());
    assert!(rt; has(&rt, "made.file", b"one three four"));
    clear(&rt, &["made.file"]);
    Ok(())
}

/// A file is read once, before it is changed.
#[test]
fn a_file_is_read_once(rt: HostRuntime) -> Result<(), Fail> {
    clear(&rt, &["once.file"]);
    fs::write(&rt, "once.file", "once")?;
    let Ok(mut device) = open(&rt, rt.alloc(), "once.file", Keeping::Written) else {
        return Err(Fail::new("not opened"));
    };
    assert!(rt; device.read(rt.alloc()).is_ok());
    assert!(rt; device.read(rt.alloc()) == Err(DeviceError::Failed));
    clear(&rt, &["once.file"]);
    Ok(())
}

/// A name that is taken, one that is not there, and a file that another program has.
#[test]
fn files_that_are_not_opened(rt: HostRuntime) -> Result<(), Fail> {
    clear(&rt, &["there.file", "no.file"]);
    let Ok(device) = make(&rt, rt.alloc(), "there.file", Keeping::Written) else {
        return Err(Fail::new("not made"));
    };
    assert!(rt;
        matches!(
            make(&rt, rt.alloc(), "there.file", Keeping::Written),
            Err(OpenFault::Taken)
        )
    );
    assert!(rt;
        matches!(
            open(&rt, rt.alloc(), "there.file", Keeping::Written),
            Err(OpenFault::InUse)
        )
    );
    assert!(rt;
        matches!(
            open(&rt, rt.alloc(), "no.file", Keeping::Written),
            Err(OpenFault::Missing)
        )
    );
    drop(device);
    assert!(rt; open(&rt, rt.alloc(), "there.file", Keeping::Written).is_ok());
    clear(&rt, &["there.file"]);
    Ok(())
}

/// A link or a folder is no file that is opened, and what stands behind a link stays; a new file is its owner's alone.
#[test]
fn no_link_is_followed(rt: HostRuntime) -> Result<(), Fail> {
    clear(&rt, &["behind.file", "link.file", "added.file"]);
    fs::write(&rt, "behind.file", "mine")?;
    rt.symlink("behind.file", "link.file")?;
    assert!(rt; matches!(open_to_add(&rt, "link.file"), Err(OpenFault::Missing)));
    assert!(rt; matches!(open_to_read(&rt, "link.file"), Err(OpenFault::Missing)));
    assert!(rt; matches!(open_to_add(&rt, "."), Err(OpenFault::Missing)));
    assert!(rt;
        matches!(
            open(&rt, rt.alloc(), "link.file", Keeping::Written),
            Err(OpenFault::Missing)
        )
    );
    assert!(rt; has(&rt, "behind.file", b"mine"));
    assert!(rt; open_to_add(&rt, "added.file").is_ok());
    assert!(rt; fs::metadata(&rt, "added.file")?.mode() % 512 == 0o600);
    assert!(rt; open_to_add(&rt, "added.file").is_ok());
    clear(&rt, &["behind.file", "link.file", "added.file"]);
    Ok(())
}
