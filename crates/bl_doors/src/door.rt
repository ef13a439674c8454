//! A door.
ghost use Rattle.std.specs.Prelude.{◌≡◌, ◌↔◌, IfErr, IfOk, IsTrue, bit_and};
ghost use Rattle.std.specs.IoError.{error_kind};

use crate::fault::{DoorFault, of_system};
use crate::incoming::Incoming;
use crate::place::Place;
use mio::net::{UnixListener, UnixStream};
use std::fs::Permissions;
use std::io::ErrorKind;
use std::net::Net;
use std::os::fd::{AsRawFd, RawFd};
use std::os::unix::fs::{FileTypeExt, PermissionsExt};
use std::rt::Files;
use std::{fs, io};

/// Who may use a socket: everybody who comes to it. The rights of its folder say who does.
const SOCKET_MODE: u32 = 0o666;

/// The right of everybody to enter a folder.
const ALL_ENTER: u32 = 0o001;

/// A door: where it stands, whether everybody may enter its folder, and the socket at which it listens, which does not
/// wait.
#[derive(Drop)]
pub struct Door {
    place: Place,
    wide: bool,
    listener: UnixListener,
}

/// Whether everybody may enter a folder of this mode.
fn is_wide(mode: u32) -> bool
    ensures { IsTrue result ↔ (bit_and mode 1 ≡ 1) }
{
    mode & ALL_ENTER == ALL_ENTER
}

/// Whether nobody listens at a socket, by what came of a connection to it: that was refused. Where it failed for
/// anything else, as where too many wait there already or no descriptor is left, somebody may listen.
fn is_dead(outcome: io::Result<UnixStream>) -> bool
    ensures { IsTrue result ↔ (IfErr outcome (λ error. error_kind error ≡ ErrorKind.ConnectionRefused)
        × IfOk outcome (λ _. ⊥)) }
{
    match outcome {
        Ok(_) => false,
        Err(error) => error.kind() == ErrorKind::ConnectionRefused,
    }
}

/// Whether a socket stands under this name at which nobody listens: a run that was killed left it.
fn is_left_over<R: Files + Net>(rt: &R, path: &str) -> bool {
    let Ok(found) = fs::symlink_metadata(rt, path) else {
        return false;
    };
    found.file_type().is_socket() && is_dead(UnixStream::connect(rt, path))
}

/// Listens at a socket of this name, in place of one that a run left, and lets everybody write to it who comes there.
fn listen<R: Files + Net>(rt: &R, path: &str) -> io::Result<UnixListener> {
    let listener = match UnixListener::bind(rt, path) {
        Ok(listener) => listener,
        Err(error) => {
            if error.kind() != ErrorKind::AddrInUse || !is_left_over(rt, path) {
                return Err(error);
            }
            fs::remove_file(rt, path)?;
            UnixListener::bind(rt, path)?
        }
    };
    if let Err(error) = fs::set_permissions(rt, path, Permissions::from_mode(SOCKET_MODE)) {
        let _ = fs::remove_file(rt, path);
        return Err(error);
    }
    Ok(listener)
}

/// The mode of the folder in which a door stands.
fn folder_mode<R: Files>(rt: &R, path: &str) -> io::Result<u32> {
    let folder = path.rsplit_once('/').map_or(".", |parts| parts.0);
    Ok(fs::metadata(rt, folder)?.permissions().mode())
}

impl Door {
    /// A door at a place, whose folder has this mode.
    fn new(place: Place, mode: u32, listener: UnixListener) -> Door
        ensures place { result.place ≡ place }
        ensures wide { IsTrue result.wide ↔ (bit_and mode 1 ≡ 1) }
    {
        Door {
            place,
            wide: is_wide(mode),
            listener,
        }
    }

    /// Opens a door where it is to stand. `CannotListen` comes where the system refuses that or somebody listens
    /// there, and `Memory` where memory was refused; then there is no door.
    pub(crate) fn open<R: Files + Net>(rt: &R, place: Place) -> Result<Door, DoorFault>
        ensures { IfOk result (λ door. door.place ≡ place) }
    {
        let mode = match folder_mode(rt, place.path.as_str()) {
            Ok(mode) => mode,
            Err(error) => return Err(of_system(&error, place.path)),
        };
        match listen(rt, place.path.as_str()) {
            Ok(listener) => Ok(Door::new(place, mode, listener)),
            Err(error) => Err(of_system(&error, place.path)),
        }
    }

    /// Where it stands, and for whom.
    pub fn place(&self) -> &Place
        ensures { result.now ≡ self.now.place }
    {
        &self.place
    }

    /// Whether everybody may enter its folder.
    pub fn is_wide(&self) -> bool
        ensures { result ≡ self.now.wide }
    {
        self.wide
    }

    /// The next who comes in by this door; `WouldBlock` where nobody waits.
    pub fn accept(&self) -> io::Result<Incoming<'_>>
        ensures { IfOk result (λ incoming. incoming.door.now ≡ self.now) }
    {
        let (stream, _) = self.listener.accept()?;
        Ok(Incoming::by(self, stream))
    }

    /// Takes the door away: nobody comes in by it any more.
    pub(crate) fn take_away<R: Files>(self, rt: &R) {
        let _ = fs::remove_file(rt, self.place.path.as_str());
    }
}

/// The socket at which it listens, to be watched.
impl AsRawFd for Door {
    ghost use Rattle.std.specs.Prelude.{Some};
    ghost use Rattle.mio.specs.Net.{unix_listener_fd};

    ghost raw_fd = { λ door. Some (unix_listener_fd door.listener) };

    fn as_raw_fd(&self) -> RawFd {
        self.listener.as_raw_fd()
    }
}
