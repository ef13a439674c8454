//! What is said of doors.
use bl_doors::fault::DoorFault;
use bl_system::doors::{tell_doors, tell_wide};
use bl_wire::watched::Watched;
use std::alloc::Global;
use std::io::Write;

/// Whether a fault has this status, once it is told.
fn has_status<W: Write>(errors: &mut Watched<W>, fault: DoorFault, status: u8) -> bool {
    tell_doors(errors, &fault) == status
}

/// The fault that a folder of this name is no subject's.
fn no_such_door(alloc: Global, name: &str) -> DoorFault {
    match String::from_str(alloc, name) {
        Ok(name) => DoorFault::NoSuchDoor(name),
        Err(_) => DoorFault::Memory,
    }
}

/// The fault that the door of this name cannot be listened at.
fn cannot_listen(alloc: Global, name: &str) -> DoorFault {
    match String::from_str(alloc, name) {
        Ok(name) => DoorFault::CannotListen(name),
        Err(_) => DoorFault::Memory,
    }
}

/// The words of each fault, and its status.
#[test]
fn faults_are_told(rt: HostRuntime) {
    let mut errors = Watched::new(Vec::new(rt.alloc()));
    assert!(rt; has_status(&mut errors, DoorFault::NoDoor, 3));
    let carl = no_such_door(rt.alloc(), "carl");
    assert!(rt; has_status(&mut errors, carl, 3));
    let ann = cannot_listen(rt.alloc(), "who/ann/door");
    assert!(rt; has_status(&mut errors, ann, 3));
    assert!(rt; has_status(&mut errors, DoorFault::Memory, 4));
    tell_wide(&mut errors, "ann");
    let told = errors.into_inner();
    assert!(rt;
        told.as_slice()
            == b"no door\nno such door carl\ncannot listen\ndoor: who/ann/door\nno memory\ndoor ann: open to all\n".as_slice()
    );
    drop(told);
}
