//! The doors of a folder: opened, taken away, and why they are not opened.
use super::base::{clear, hold, is_there, make_file, make_folders, open, opened};
use bl_doors::door::Door;
use bl_doors::doors::Doors;
use bl_doors::fault::DoorFault;
use libc::net::listen;
use mio::net::UnixStream as Caller;
use std::fs;
use std::fs::Permissions;
use std::io::ErrorKind;
use std::net::Net;
use std::os::fd::AsRawFd;
use std::os::unix::fs::{MetadataExt, PermissionsExt};
use std::os::unix::net::{UnixListener, UnixStream};
use std::process::Abort;
use std::rt::Files;

/// Why the doors of a folder are not opened; none where they are, and then they are taken away again.
fn fault_of(rt: &HostRuntime, folder: &str) -> Option<DoorFault> {
    match open(rt, folder) {
        Ok(doors) => {
            doors.close(rt);
            None
        }
        Err(fault) => Some(fault),
    }
}

/// Whether this is why the doors of a folder are not opened.
fn is_refused(rt: &HostRuntime, folder: &str, wanted: DoorFault) -> bool {
    fault_of(rt, folder) == Some(wanted)
}

/// Whether the doors of a folder are not opened since one of its folders is no subject's, and has this name.
fn is_strange(rt: &HostRuntime, folder: &str, name: &str) -> bool {
    match fault_of(rt, folder) {
        Some(DoorFault::NoSuchDoor(found)) => found.as_str() == name,
        _ => false,
    }
}

/// Whether the doors of a folder are not opened since it cannot be listened at the door of this name.
fn is_unheard(rt: &HostRuntime, folder: &str, name: &str) -> bool {
    match fault_of(rt, folder) {
        Some(DoorFault::CannotListen(found)) => found.as_str() == name,
        _ => false,
    }
}

/// The rights to a file, as in its mode.
fn rights(rt: &HostRuntime, path: &str) -> u32 {
    fs::metadata(rt, path).map_or(0, |found| found.mode()) % 512
}

/// Whether somebody waits at a door, who is let in.
fn is_called(door: &Door) -> bool {
    door.accept().is_ok()
}

/// Whether these are the doors of ann and bob, in this order.
fn are_of_both(doors: &Doors) -> bool {
    match doors.doors() {
        [ann, bob] => {
            ann.place().name.as_str() == "ann" && bob.place().path.as_str() == "two.doors/bob/door"
        }
        _ => false,
    }
}

/// Whether who comes by the door of bob is let in there, and at no other door.
fn are_apart(rt: &HostRuntime, doors: &Doors) -> bool {
    let client = UnixStream::connect(rt, "two.doors/bob/door");
    let called = match doors.doors() {
        [ann, bob] => !is_called(ann) && is_called(bob),
        _ => false,
    };
    client.is_ok() && called
}

/// Each subject with a folder has a door, in the order of their names; everybody may write to its socket, and who does
/// is let in at that door alone. Other files there are nothing to it, and at the end no socket is left.
#[test]
fn doors_are_opened_and_taken_away(rt: HostRuntime) {
    make_folders(&rt, "two.doors", &["bob", "ann"]);
    make_file(&rt, "two.doors/notes", "nothing to it");
    let doors = opened(&rt, "two.doors");
    let both = are_of_both(&doors);
    let apart = are_apart(&rt, &doors);
    let rights = rights(&rt, "two.doors/bob/door");
    doors.close(&rt);
    hold(
        &rt,
        &[
            ("both doors", both),
            ("apart", apart),
            ("everybody may write", rights == 0o666),
            ("ann's is taken away", !is_there(&rt, "two.doors/ann/door")),
            ("bob's is taken away", !is_there(&rt, "two.doors/bob/door")),
        ],
    );
    clear(&rt, "two.doors");
}

/// A folder that is no subject's, no folder of a subject, and no folder at all: no door stays.
#[test]
fn folders_without_doors(rt: HostRuntime) {
    make_folders(&rt, "other.doors", &["ann", "carl"]);
    assert!(rt; is_strange(&rt, "other.doors", "carl"));
    assert!(rt; !is_there(&rt, "other.doors/ann/door"));
    clear(&rt, "other.doors");
    make_folders(&rt, "no.doors", &[]);
    assert!(rt; is_refused(&rt, "no.doors", DoorFault::NoDoor));
    clear(&rt, "no.doors");
    assert!(rt; is_unheard(&rt, "no.doors", "no.doors"));
}

/// Leaves a socket at which nobody listens.
fn leave_socket<R: Abort + Files + Net>(rt: &R, path: &str) {
    match UnixListener::bind(rt, path) {
        Ok(listener) => drop(listener),
        Err(_) => panic!(rt; "no socket"),
    }
}

/// A socket at which nobody listens is replaced.
#[test]
fn a_socket_that_was_left_is_replaced(rt: HostRuntime) {
    make_folders(&rt, "left.doors", &["ann", "bob"]);
    leave_socket(&rt, "left.doors/bob/door");
    assert!(rt; is_there(&rt, "left.doors/bob/door"));
    opened(&rt, "left.doors").close(&rt);
    clear(&rt, "left.doors");
}

/// Whether no door is opened while somebody listens at this one, who can be reached then.
fn is_kept(rt: &HostRuntime, folder: &str, door: &str) -> bool {
    match UnixListener::bind(rt, door) {
        Ok(listener) => {
            let refused = is_unheard(rt, folder, door);
            let reached = UnixStream::connect(rt, door).is_ok();
            drop(listener);
            refused && reached
        }
        Err(_) => false,
    }
}

/// A socket at which somebody listens stays, and no door is opened.
#[test]
fn a_socket_in_use_stays(rt: HostRuntime) {
    make_folders(&rt, "used.doors", &["ann", "bob"]);
    assert!(rt; is_kept(&rt, "used.doors", "used.doors/bob/door"));
    assert!(rt; !is_there(&rt, "used.doors/ann/door"));
    clear(&rt, "used.doors");
}

/// Whether nobody more may wait at this door: the system has who comes try again.
fn is_crowded(rt: &HostRuntime, door: &str) -> bool {
    match Caller::connect(rt, door) {
        Ok(_) => false,
        Err(error) => error.kind() == ErrorKind::WouldBlock,
    }
}

/// Whether no door is opened while somebody listens at this one, where one client waits and nobody more may.
fn is_kept_crowded(rt: &HostRuntime, folder: &str, door: &str) -> bool {
    let Ok(listener) = UnixListener::bind(rt, door) else {
        return false;
    };
    let is_short = listen(listener.as_raw_fd(), 0) == 0;
    let client = UnixStream::connect(rt, door);
    let crowded = is_short && client.is_ok() && is_crowded(rt, door);
    let refused = is_unheard(rt, folder, door);
    let let_in = listener.accept().is_ok();
    drop((client, listener));
    crowded && refused && let_in && is_there(rt, door)
}

/// A socket stays where somebody listens whom nobody more can reach for the moment, and no door is opened.
#[test]
fn a_socket_where_too_many_wait_stays(rt: HostRuntime) {
    make_folders(&rt, "crowded.doors", &["ann", "bob"]);
    assert!(rt; is_kept_crowded(&rt, "crowded.doors", "crowded.doors/bob/door"));
    assert!(rt; !is_there(&rt, "crowded.doors/ann/door"));
    clear(&rt, "crowded.doors");
}

/// A file that is no socket stays, and no door is opened.
#[test]
fn a_file_that_is_no_socket_stays(rt: HostRuntime) {
    make_folders(&rt, "file.doors", &["ann"]);
    make_file(&rt, "file.doors/ann/door", "no socket");
    assert!(rt; is_unheard(&rt, "file.doors", "file.doors/ann/door"));
    assert!(rt; fs::metadata(&rt, "file.doors/ann/door").map_or(0, |found| found.len()) == 9);
    clear(&rt, "file.doors");
}

/// Which of two doors are wide.
fn wide(doors: &Doors) -> Option<(bool, bool)> {
    match doors.doors() {
        [one, other] => Some((one.is_wide(), other.is_wide())),
        _ => None,
    }
}

/// Gives a folder these rights.
fn set_rights<R: Abort + Files>(rt: &R, folder: &str, mode: u32) {
    assert!(rt; fs::set_permissions(rt, folder, Permissions::from_mode(mode)).is_ok());
}

/// A folder that everybody may enter is wide, and one that its owner and group may enter is not.
#[test]
fn folders_that_everybody_may_enter(rt: HostRuntime) {
    make_folders(&rt, "wide.doors", &["ann", "bob"]);
    set_rights(&rt, "wide.doors/ann", 0o711);
    set_rights(&rt, "wide.doors/bob", 0o770);
    let doors = opened(&rt, "wide.doors");
    let found = wide(&doors);
    doors.close(&rt);
    assert!(rt; found == Some((true, false)));
    clear(&rt, "wide.doors");
}
