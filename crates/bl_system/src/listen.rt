//! Where the program listens.
ghost use Rattle.std.specs.Prelude.{◌≡◌, ◌≢◌, ◌≤◌, [], ◌∷◌, Err, IfErr, IfOk};
ghost use Rattle.std.specs.IoError.{error_kind};
ghost use Rattle.std.specs.Net.Addr.{ipv4_octets};

use bl_status::fault::{ProgramFault, of_file};
use std::io;
use std::io::ErrorKind;
use std::net::{Ipv4Addr, Net, SocketAddr, TcpListener};

/// Where the program listens: a port of 127.0.0.1, which programs of the same machine alone reach.
fn address_of(port: u32) -> (Ipv4Addr, u16)
    requires { port ≤ 65535 }
    ensures address { ipv4_octets result.0 ≡ 127 ∷ 0 ∷ 0 ∷ 1 ∷ [] }
    ensures port { result.1 ≡ port }
{
    (Ipv4Addr::new(127, 0, 0, 1), port as u16)
}

/// What came of listening.
fn listening(bound: io::Result<TcpListener>) -> Result<TcpListener, ProgramFault>
    ensures ok { IfOk bound (λ listener. result ≡ Ok listener) }
    ensures memory { IfErr bound
        (λ error. error_kind error ≡ ErrorKind.OutOfMemory → result ≡ Err ProgramFault.NoMemory) }
    ensures other { IfErr bound
        (λ error. error_kind error ≢ ErrorKind.OutOfMemory → result ≡ Err ProgramFault.CannotListen) }
{
    match bound {
        Ok(listener) => Ok(listener),
        Err(error) => Err(of_file(&error, ProgramFault::CannotListen)),
    }
}

/// Listens at an address. As many may wait there to be taken as the system allows; the library's own listener has room
/// for 128.
fn bind<R: Net>(rt: &R, address: (Ipv4Addr, u16)) -> io::Result<TcpListener> {
    let listener = mio::net::TcpListener::bind(rt, SocketAddr::from(address))?;
    Ok(TcpListener::from(listener))
}

/// A listener on a port of 127.0.0.1.
pub fn listen<R: Net>(rt: &R, port: u32) -> Result<TcpListener, ProgramFault>
    requires { port ≤ 65535 }
{
    listening(bind(rt, address_of(port)))
}
