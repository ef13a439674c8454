//! The files that `replay` and `state` read.
use bl_readonly::files::read_files;
use bl_status::fault::ProgramFault;
use std::fs;
use std::test::Fail;

/// A trail may have more bytes than a setup may, and a setup more than a megabyte; all of both are read.
#[test]
fn reads_whole_files(rt: HostRuntime) -> Result<(), Fail> {
    let alloc = rt.alloc();
    let setup = vec![in alloc; b'#'; 2_000_000]?;
    let trail = vec![in alloc; b'#'; 16_777_300]?;
    fs::write(&rt, "whole.setup", setup.as_slice())?;
    fs::write(&rt, "whole.trail", trail.as_slice())?;
    let read = read_files(&rt, "whole.setup", "whole.trail");
    let _ = fs::remove_file(&rt, "whole.setup");
    let _ = fs::remove_file(&rt, "whole.trail");
    let Ok(files) = read else {
        return Err(Fail::new("not read"));
    };
    assert!(rt; files.setup.as_slice() == setup.as_slice());
    assert!(rt; files.trail.as_slice() == trail.as_slice());
    Ok(())
}

/// The setup file is asked for first.
#[test]
fn tells_the_file_that_is_not_there(rt: HostRuntime) -> Result<(), Fail> {
    fs::write(&rt, "there.setup", "ranks u\n")?;
    let both = read_files(&rt, "nowhere.setup", "nowhere.trail");
    let one = read_files(&rt, "there.setup", "nowhere.trail");
    let _ = fs::remove_file(&rt, "there.setup");
    assert!(rt; matches!(both, Err(ProgramFault::CannotReadSetup)));
    assert!(rt; matches!(one, Err(ProgramFault::CannotReadTrail)));
    Ok(())
}
