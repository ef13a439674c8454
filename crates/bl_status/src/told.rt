//! What a run says on standard error. Nothing of it needs memory, and once standard error has failed nothing more is
//! said.
ghost use Rattle.std.specs.Prelude.{◌≡◌, ◌⊎◌, ◌++◌, codes, decimal};
ghost use Rattle.bl_wire.specs.Watch.{Puts, end_state, used};
ghost use Rattle.bl_status.specs.Message.{fault_line, message_of};
ghost use Rattle.bl_status.specs.Places.{about_line, named_text, trail_line};
ghost use Rattle.bl_status.specs.Runs.{HasTold, HasToldAt, HasToldNamed};

use crate::fault::ProgramFault;
use crate::named::{About, NamedFault};
use crate::place::{tell_file, tell_port, tell_wanted};
use bl_wire::put::{put, put_number, put_out};
use bl_wire::watched::Watched;
use itoa::Buffer;
use std::io::Write;

/// Writes a count in decimal.
pub fn put_count<E: Write>(errors: &mut Watched<E>, count: u64)
    ensures puts { Puts (decimal count) (end_state E.contents errors.old) (end_state E.contents errors.new) }
{
    let mut digits = Buffer::new();
    put(errors, digits.format(count).as_bytes());
}

/// Says at which line a trail is wrong.
fn say_wrong<E: Write>(errors: &mut Watched<E>, line: u64)
    ensures puts { Puts (codes "trail wrong at line " ++ decimal line) (end_state E.contents errors.old)
        (end_state E.contents errors.new) }
{
    put(errors, b"trail wrong at line ");
    put_count(errors, line);
}

/// Says the words of a fault, and of a setup's and of a trail that is wrong its line.
fn say<E: Write>(errors: &mut Watched<E>, fault: &ProgramFault)
    ensures puts { Puts (message_of fault.now) (end_state E.contents errors.old) (end_state E.contents errors.new) }
{
    match fault {
        ProgramFault::Setup { line, kind } => {
            put(errors, b"setup ");
            put_number(errors, *line);
            put(errors, b": ");
            put(errors, kind.as_bytes());
        }
        ProgramFault::WrongAt(line) => say_wrong(errors, *line),
        ProgramFault::CannotReadSetup
        | ProgramFault::CannotReadTrail
        | ProgramFault::CannotWriteTrail
        | ProgramFault::NoTrail
        | ProgramFault::TrailIsThere
        | ProgramFault::InUse
        | ProgramFault::OtherSetup
        | ProgramFault::TornSetup
        | ProgramFault::OldVersion
        | ProgramFault::NotBegun
        | ProgramFault::Over
        | ProgramFault::NoMoreSessions
        | ProgramFault::NotKept
        | ProgramFault::CutShort
        | ProgramFault::CannotListen
        | ProgramFault::Read
        | ProgramFault::Write
        | ProgramFault::TooLong
        | ProgramFault::NoMemory => {
            put(errors, fault.words().as_bytes());
        }
    }
}

/// Tells a fault that ends a run, on a line of its own, and gives the status. Where `errors` failed
/// it is marked, and only a part was said.
pub fn tell<E: Write>(errors: &mut Watched<E>, fault: &ProgramFault) -> u8
    ensures told { HasTold fault.now result (used E.contents errors.old errors.new) }
    ensures puts { Puts (fault_line fault.now) (end_state E.contents errors.old) (end_state E.contents errors.new) }
    ensures status { (result ≡ 3) ⊎ (result ≡ 4) }
{
    say(errors, fault);
    put_out(errors, b"\n");
    fault.status()
}

/// Tells a fault that ends a run, on a line of its own, and of a trail that cannot be read or written, on the next, that
/// it is the file of this name; and gives the status. Where `errors` failed it is marked, and only a part was said.
pub fn tell_at<E: Write>(errors: &mut Watched<E>, fault: &ProgramFault, name: &str) -> u8
    ensures told { HasToldAt name.now fault.now result (used E.contents errors.old errors.new) }
    ensures puts { Puts (fault_line fault.now ++ trail_line name.now fault.now) (end_state E.contents errors.old)
        (end_state E.contents errors.new) }
    ensures status { (result ≡ 3) ⊎ (result ≡ 4) }
{
    let status = tell(errors, fault);
    match fault {
        ProgramFault::CannotReadTrail | ProgramFault::CannotWriteTrail => tell_file(errors, name),
        ProgramFault::CannotReadSetup
        | ProgramFault::Setup { .. }
        | ProgramFault::NoTrail
        | ProgramFault::TrailIsThere
        | ProgramFault::InUse
        | ProgramFault::OtherSetup
        | ProgramFault::TornSetup
        | ProgramFault::OldVersion
        | ProgramFault::WrongAt(_)
        | ProgramFault::NotBegun
        | ProgramFault::Over
        | ProgramFault::NoMoreSessions
        | ProgramFault::NotKept
        | ProgramFault::CutShort
        | ProgramFault::CannotListen
        | ProgramFault::Read
        | ProgramFault::Write
        | ProgramFault::TooLong
        | ProgramFault::NoMemory => {}
    }
    status
}

/// Tells what a fault is about, on a line of its own; nothing where that has no name.
fn tell_about<E: Write>(errors: &mut Watched<E>, about: &About)
    ensures puts { Puts (about_line about.now) (end_state E.contents errors.old) (end_state E.contents errors.new) }
{
    match about {
        About::Nothing => {}
        About::File(name) => tell_file(errors, name.as_str()),
        About::Port(port) => tell_port(errors, *port),
        About::Trail(name) => tell_wanted(errors, name.as_str()),
    }
}

/// Tells a fault that ends a run, on a line of its own, and what it is about, where that has a name, on the next; and
/// gives the status. Where `errors` failed it is marked, and only a part was said.
pub fn tell_named<E: Write>(errors: &mut Watched<E>, named: &NamedFault) -> u8
    ensures told { HasToldNamed named.now result (used E.contents errors.old errors.new) }
    ensures puts { Puts (named_text named.now) (end_state E.contents errors.old) (end_state E.contents errors.new) }
    ensures status { (result ≡ 3) ⊎ (result ≡ 4) }
{
    let status = tell(errors, &named.fault);
    tell_about(errors, &named.about);
    status
}
