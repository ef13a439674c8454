//! What a run of `serve` takes from the system before its sessions: the sockets where clients come in, and the log of
//! these.
ghost use Rattle.std.specs.Prelude.{◌⊎◌, ◌≡◌, Err, IfErr, IfOk, IsOk, IsSome, Ok, is_some};
ghost use Rattle.bl_wire.specs.Watch.{used};
ghost use Rattle.bl_system.specs.Entering.{HasToldEntrance, IsEntranceOf, IsOfNone, about_at_port, end_words, fault_at_port};
ghost use Rattle.bl_options.specs.Ranges.{IsEntranceInRange};

use crate::doors::{tell_doors, tell_wide};
use crate::listen::listen;
use bl_doors::doors::Doors;
use bl_doors::fault::DoorFault;
use bl_entrance::acceptor::{SharedLog, note_server};
use bl_entrance::entrance::Entrance;
use bl_log::fault::LogFault;
use bl_log::note::ServerEvent;
use bl_log::open::open;
use bl_log::told::{tell_cut, tell_fault as tell_log};
use bl_options::hosting::NamedEntrance;
use bl_setup::setup::Setup;
use bl_status::fault::ProgramFault;
use bl_status::named::{About, NamedFault};
use bl_status::told::tell_named;
use bl_wire::watched::Watched;
use std::io::Write;
use std::net::Net;
use std::rt::Files as OpensFiles;
use std::sync::{Mutex, Wait};
use std::time::Clock;

/// Why a run of `serve` serves nobody.
#[derive(Debug, PartialEq, Eq, Drop)]
pub enum EntranceFault {
    /// A fault that any run may have, and what it is about.
    Program(NamedFault),
    /// No doors are opened.
    Doors(DoorFault),
    /// The log is not opened.
    Log(LogFault),
}

/// What a run of `serve` has taken from the system before its sessions.
#[derive(Drop)]
pub struct Entered<F: Write + Drop> {
    /// Where clients come in.
    pub entrance: Entrance,
    /// The log of connections; `None` where none is kept.
    pub log: Option<SharedLog<F>>,
}

impl<F: Write + Drop> Entered<F> {
    /// Warns of doors whose folders everybody may enter.
    pub fn warn<E: Write>(&self, errors: &mut Watched<E>) {
        let Entrance::Doors(doors) = &self.entrance else {
            return;
        };
        for door in doors.doors() {
            if door.is_wide() {
                tell_wide(errors, door.place().name.as_str());
            }
        }
    }

    /// Notes in the log, if there is one, how the run ended that has this status.
    pub fn note_end<R: Wait + Clock>(&self, rt: &R, status: u8) {
        if let Some(log) = &self.log {
            let why = why_of(status);
            note_server(rt, log, ServerEvent::Ended { why });
        }
    }

    /// Closes where clients came in, and tells where the log lacks lines, unless that was told.
    pub fn leave<R: OpensFiles, E: Write>(self, rt: &R, errors: &mut Watched<E>) {
        let Entered { entrance, log } = self;
        entrance.close(rt);
        if let Some(log) = log {
            let mut log = log.into_inner();
            if log.take_cut() {
                tell_cut(errors);
            }
        }
    }
}

/// The words for why a run ended that has this status.
fn why_of(status: u8) -> &'static str
    ensures { result.now ≡ end_words status }
{
    match status {
        0 => "done",
        4 => "no memory",
        _ => "fault",
    }
}

/// The setup that was read; or why it is none, as it is told to who opens doors or a log.
fn setup_in<'a>(read: &'a Result<Setup, ProgramFault>) -> Result<&'a Setup, EntranceFault>
    ensures setup { IfOk result (λ setup. read.now ≡ Ok setup.now) }
    ensures none { IfErr result (IsOfNone read.now) }
{
    match read {
        Ok(setup) => Ok(setup),
        Err(fault) => Err(EntranceFault::Program(NamedFault::from(*fault))),
    }
}

/// What a fault at this port is about: the port, where that cannot be listened on, and else nothing.
fn about_port(fault: &ProgramFault, port: u32) -> About
    ensures { result ≡ about_at_port fault.now port }
{
    match fault {
        ProgramFault::CannotListen => About::Port(port),
        _ => About::Nothing,
    }
}

/// The fault at this port, where that cannot be listened on; any other is about nothing.
fn at_port(fault: ProgramFault, port: u32) -> EntranceFault
    ensures { result ≡ fault_at_port fault port }
{
    let about = about_port(&fault, port);
    EntranceFault::Program(NamedFault { fault, about })
}

/// Listens at a port, or opens the doors of the subjects of a setup, if that is one.
fn open_entrance<R: AllocGlobal + OpensFiles + Net>(
    rt: &R,
    read: &Result<Setup, ProgramFault>,
    named: NamedEntrance<'_>,
) -> Result<Entrance, EntranceFault>
    requires { IsEntranceInRange named }
    ensures { IfOk result (λ entrance. IsEntranceOf named.entry read.now entrance) }
{
    match named {
        NamedEntrance::Port(port) => match listen(rt, port) {
            Ok(listener) => Ok(Entrance::Port(listener)),
            Err(fault) => Err(at_port(fault, port)),
        },
        NamedEntrance::Doors(folder) => {
            let setup = setup_in(read)?;
            match Doors::open(rt, rt.alloc(), setup.names(), folder) {
                Ok(doors) => Ok(Entrance::Doors(doors)),
                Err(fault) => Err(EntranceFault::Doors(fault)),
            }
        }
    }
}

/// Opens the log of this name, where the setup is one; none where there is no name.
fn open_log<R: AllocGlobal + OpensFiles>(
    rt: &R,
    read: &Result<Setup, ProgramFault>,
    name: Option<&str>,
) -> Result<Option<SharedLog<R::File>>, EntranceFault>
    ensures kept { IfOk result (λ log. is_some log ≡ is_some name.entry) }
    ensures asked { IfOk result (λ log. IsSome log → IsOk read.now) }
{
    let Some(name) = name else {
        return Ok(None);
    };
    // asked before a file is made
    let _setup = setup_in(read)?;
    match open(rt, rt.alloc(), name) {
        Ok(log) => Ok(Some(Mutex::new(log))),
        Err(fault) => Err(EntranceFault::Log(fault)),
    }
}

/// Takes from the system what a run of `serve` has to have before its sessions: where clients come in, and the log. Where
/// one cannot be had nothing of it stays open. A setup that is none is told here only to who opens doors or a log.
pub fn enter<R: AllocGlobal + OpensFiles + Net>(
    rt: &R,
    read: &Result<Setup, ProgramFault>,
    named: NamedEntrance<'_>,
    log: Option<&str>,
) -> Result<Entered<R::File>, EntranceFault>
    requires { IsEntranceInRange named }
    ensures log { IfOk result (λ entered. is_some entered.log ≡ is_some log.entry) }
    ensures asked { IfOk result (λ entered. IsSome entered.log → IsOk read.now) }
    ensures entrance { IfOk result (λ entered. IsEntranceOf named.entry read.now entered.entrance) }
{
    let entrance = open_entrance(rt, read, named)?;
    match open_log(rt, read, log) {
        Ok(log) => Ok(Entered { entrance, log }),
        Err(fault) => {
            entrance.close(rt);
            Err(fault)
        }
    }
}

/// Tells why a run serves nobody, on a line of its own, and behind it which port or door that is; and gives the status.
pub fn tell_entrance<E: Write>(errors: &mut Watched<E>, fault: &EntranceFault) -> u8
    ensures told { HasToldEntrance fault.now result (used E.contents errors.old errors.new) }
    ensures status { (result ≡ 3) ⊎ (result ≡ 4) }
{
    match fault {
        EntranceFault::Program(fault) => tell_named(errors, fault),
        EntranceFault::Doors(fault) => tell_doors(errors, fault),
        EntranceFault::Log(fault) => tell_log(errors, *fault),
    }
}
