//! What a fault is about, on the line behind its words. Nothing of it needs memory, and once standard error has failed
//! nothing more is said.
ghost use Rattle.bl_wire.specs.Watch.{Puts, end_state};
ghost use Rattle.bl_status.specs.Places.{door_line, file_line, port_line, wanted_line};

use bl_wire::put::{put, put_number, put_out};
use bl_wire::watched::Watched;
use std::io::Write;

/// Tells of which port a fault was, on a line of its own. Where `errors` failed it is marked, and only a part was said.
pub fn tell_port<E: Write>(errors: &mut Watched<E>, port: u32)
    ensures puts { Puts (port_line port) (end_state E.contents errors.old) (end_state E.contents errors.new) }
{
    put(errors, b"port: ");
    put_number(errors, port);
    put_out(errors, b"\n");
}

/// Tells of which door a fault was, by its name, on a line of its own. Where `errors` failed it is marked, and only a
/// part was said.
pub fn tell_door<E: Write>(errors: &mut Watched<E>, name: &str)
    ensures puts { Puts (door_line name.now) (end_state E.contents errors.old) (end_state E.contents errors.new) }
{
    put(errors, b"door: ");
    put(errors, name.as_bytes());
    put_out(errors, b"\n");
}

/// Tells of which file a fault was, by its name, on a line of its own. Where `errors` failed it is marked, and only a
/// part was said.
pub fn tell_file<E: Write>(errors: &mut Watched<E>, name: &str)
    ensures puts { Puts (file_line name.now) (end_state E.contents errors.old) (end_state E.contents errors.new) }
{
    put(errors, b"file: ");
    put(errors, name.as_bytes());
    put_out(errors, b"\n");
}

/// Tells which trail is meant where its journal was named, on a line of its own. Where `errors` failed it is marked, and
/// only a part was said.
pub fn tell_wanted<E: Write>(errors: &mut Watched<E>, name: &str)
    ensures puts { Puts (wanted_line name.now) (end_state E.contents errors.old) (end_state E.contents errors.new) }
{
    put(errors, b"say --trail ");
    put(errors, name.as_bytes());
    put_out(errors, b"\n");
}
