//! What the program takes from the system: its setup file and its port.
use bl_status::fault::ProgramFault;
use bl_system::files::read_setup_file;
use bl_system::listen::listen;
use std::fs;
use std::net::{IpAddr, Ipv4Addr, TcpListener};
use std::test::Fail;

/// A setup is read up to one byte more than it may have.
#[test]
fn reads_one_byte_past_a_setup(rt: HostRuntime) -> Result<(), Fail> {
    let alloc = rt.alloc();
    let setup = vec![in alloc; b'#'; 16_777_300]?;
    fs::write(&rt, "large.setup", setup.as_slice())?;
    let read = read_setup_file(&rt, "large.setup");
    let _ = fs::remove_file(&rt, "large.setup");
    let Ok(bytes) = read else {
        return Err(Fail::new("not read"));
    };
    assert_eq!(rt; bytes.len(), 16_777_217);
    Ok(())
}

/// The program listens on 127.0.0.1 alone, and tells a port that is taken.
#[test]
fn listens_on_this_machine_alone(rt: HostRuntime) -> Result<(), Fail> {
    let any = TcpListener::bind(&rt, (Ipv4Addr::LOCALHOST, 0))?;
    let port = any.local_addr()?.port();
    let taken = listen(&rt, u32::from(port));
    assert!(rt; matches!(taken, Err(ProgramFault::CannotListen)));
    drop(any);
    let Ok(listener) = listen(&rt, u32::from(port)) else {
        return Err(Fail::new("a free port is not listened on"));
    };
    let at = listener.local_addr()?;
    assert!(rt; at.ip() == IpAddr::V4(Ipv4Addr::LOCALHOST));
    assert!(rt; at.port() == port);
    Ok(())
}
