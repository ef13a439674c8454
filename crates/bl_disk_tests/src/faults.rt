//! Files that are full or fail.
use crate::base::opened;
use crate::torn::Torn;
use bl_disk::device::DeviceError;
use bl_disk::log::Log;
use std::alloc::AllocError;
use std::test::Fail;

#[test]
fn a_full_file_has_a_first_part_and_is_opened_again(rt: HostRuntime) -> Result<(), Fail> {
    let torn = Torn::new(rt.alloc(), b"one\n", 2, 100)?;
    let mut log = Log { device: torn };
    assert!(rt; log.add(b"two\n") == Err(DeviceError::Full));
    let Log { device } = log;
    assert!(rt; device.now().kept.as_slice() == b"one\n".as_slice());
    assert!(rt; device.now().loose.as_slice() == b"tw".as_slice());
    let log = match opened(device.renewed(0), 4) {
        Ok(log) => log,
        Err(_) => return Err(Fail::from(AllocError)),
    };
    assert!(rt; log.device.now().kept.as_slice() == b"one\n".as_slice());
    assert!(rt; log.device.now().loose.is_empty());
    drop(log);
    Ok(())
}

#[test]
fn a_sync_that_fails_is_told_and_keeps_what_was_kept(rt: HostRuntime) -> Result<(), Fail> {
    let torn = Torn::new(rt.alloc(), b"one\n", 100, 1)?;
    let mut log = Log { device: torn };
    assert!(rt; log.add(b"two\n").is_ok());
    assert!(rt; log.add(b"three\n") == Err(DeviceError::Failed));
    assert!(rt; log.device.now().kept.as_slice() == b"one\ntwo\n".as_slice());
    drop(log);
    Ok(())
}

#[test]
fn a_file_that_cannot_be_opened_again_is_given_back(rt: HostRuntime) -> Result<(), Fail> {
    let torn = Torn::new(rt.alloc(), b"one\ntw", 100, 0)?;
    match opened(torn, 4) {
        Ok(_) => return Err(Fail::from(AllocError)),
        Err((error, device)) => {
            assert!(rt; error == DeviceError::Failed);
            assert!(rt; device.now().kept.as_slice() == b"one\n".as_slice());
        }
    }
    Ok(())
}
