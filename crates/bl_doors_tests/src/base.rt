//! Names, folders of the system with their doors, and what a stream has to do. What goes wrong here ends the test.
use bl_connection::stream::{Answer, Stream};
use bl_doors::doors::Doors;
use bl_doors::fault::DoorFault;
use bl_doors::greeted::Greeted;
use bl_entrance::socket::Socket;
use bl_setup::reader::read_setup;
use bl_setup::setup::Setup;
use std::alloc::{AllocGlobal, Global};
use std::io::{Read, Write};
use std::net::{Net, Shutdown};
use std::os::unix::net::UnixStream;
use std::process::Abort;
use std::rt::Files;
use std::{fs, io};

/// A setup with two subjects.
const BASE: &[u8] = b"ranks u c s t\n\
categories nato crypto\n\
subject bob greatest s current u\n\
subject ann greatest s{nato} current s{nato}\n\
document memo s{nato} \"m1\"\n\
allow ann memo r w\n";

/// The setup, where there is memory for it.
pub(crate) fn base(alloc: Global) -> Option<Setup> {
    read_setup(alloc, BASE).ok()
}

/// Asserts each of these.
pub(crate) fn hold(rt: &impl Abort, facts: &[(&str, bool)]) {
    for (fact, holds) in facts {
        assert!(rt; *holds, "{fact}");
    }
}

/// What a stream has to do next.
#[derive(Clone, Copy)]
pub(crate) enum Step {
    /// A read moves so many bytes, and the room begins with these.
    Reads(usize, &'static [u8]),
    /// A read would block.
    Waits,
    /// All of these bytes are written.
    Writes(&'static [u8]),
}

fn stands<S: Stream>(stream: &mut S, room: &mut [u8], step: &Step) -> bool {
    match step {
        Step::Reads(moved, front) => {
            stream.read(room) == Answer::Moved(*moved) && room.starts_with(front)
        }
        Step::Waits => stream.read(room) == Answer::WouldBlock,
        Step::Writes(bytes) => stream.write(bytes) == Answer::Moved(bytes.len()),
    }
}

/// Asserts that a stream does so, step by step, with this room for what is read.
pub(crate) fn assert_steps<S: Stream>(
    rt: &impl Abort,
    stream: &mut S,
    room: &mut [u8],
    steps: &[Step],
) {
    for (n, step) in steps.iter().enumerate() {
        assert!(rt; stands(stream, room, step), "step {n}");
    }
}

/// Whether just this is read up to the end.
pub(crate) fn hears<R: Read>(alloc: Global, reader: &mut R, wanted: &[u8]) -> bool {
    let mut heard = Vec::new(alloc);
    let is_heard = reader.read_to_end(&mut heard).is_ok() && heard.as_slice() == wanted;
    drop(heard);
    is_heard
}

/// Makes a folder in a folder.
fn make_folder<R: AllocGlobal + Abort + Files>(rt: &R, folder: &str, name: &str) {
    match format!(in rt.alloc(); "{folder}/{name}") {
        Ok(path) => assert!(rt; fs::create_dir(rt, path).is_ok(), "no folder"),
        Err(_) => panic!(rt; "no memory"),
    }
}

/// Makes a folder with folders of these names in it, in place of what an earlier run left.
pub(crate) fn make_folders<R: AllocGlobal + Abort + Files>(rt: &R, folder: &str, names: &[&str]) {
    clear(rt, folder);
    assert!(rt; fs::create_dir(rt, folder).is_ok(), "no folder");
    for name in names {
        make_folder(rt, folder, name);
    }
}

/// Makes a file with this text.
pub(crate) fn make_file<R: Abort + Files>(rt: &R, path: &str, text: &str) {
    assert!(rt; fs::write(rt, path, text).is_ok(), "no file");
}

/// Removes a folder with all that is in it.
pub(crate) fn clear<R: AllocGlobal + Files>(rt: &R, folder: &str) {
    let _ = fs::remove_dir_all(rt, folder);
}

/// Whether something stands under this name.
pub(crate) fn is_there(rt: &HostRuntime, path: &str) -> bool {
    fs::symlink_metadata(rt, path).is_ok()
}

/// Opens the doors of a folder over the base setup.
pub(crate) fn open<R: AllocGlobal + Files + Net>(rt: &R, folder: &str) -> Result<Doors, DoorFault> {
    let Some(setup) = base(rt.alloc()) else {
        return Err(DoorFault::Memory);
    };
    let opened = Doors::open(rt, rt.alloc(), setup.names(), folder);
    drop(setup);
    opened
}

/// The doors of a folder over the base setup, which are opened.
pub(crate) fn opened<R: AllocGlobal + Abort + Files + Net>(rt: &R, folder: &str) -> Doors {
    match open(rt, folder) {
        Ok(doors) => doors,
        Err(_) => panic!(rt; "not opened"),
    }
}

/// A client at a door, who says this, and no more.
fn say_all(rt: &impl Net, door: &str, said: &[u8]) -> io::Result<UnixStream> {
    let mut client = UnixStream::connect(rt, door)?;
    client.write_all(said)?;
    client.shutdown(Shutdown::Write)?;
    Ok(client)
}

/// Who waits at the one door of a folder, with what is heard there.
fn let_in(alloc: Global, doors: &Doors) -> Option<Greeted<Socket>> {
    match doors.doors() {
        [door] => door.accept().ok()?.greet(alloc).ok(),
        _ => None,
    }
}

/// A client that has come by the door of ann in this folder, and what is heard there: the client says this, and no
/// more. The folder is there no more.
pub(crate) fn come_by_ann<R: AllocGlobal + Abort + Files + Net>(
    rt: &R,
    folder: &str,
    door: &str,
    said: &[u8],
) -> (UnixStream, Greeted<Socket>) {
    make_folders(rt, folder, &["ann"]);
    let doors = opened(rt, folder);
    let client = say_all(rt, door, said);
    let stream = let_in(rt.alloc(), &doors);
    doors.close(rt);
    clear(rt, folder);
    let Ok(client) = client else {
        panic!(rt; "no client")
    };
    let Some(stream) = stream else {
        panic!(rt; "nobody came")
    };
    (client, stream)
}
