//! What the program says, and the status that it ends with.
ghost use Rattle.std.specs.Prelude.{◌≡◌, false};

use bl_alone::alone::alone_on;
use bl_command::command::{Command, read_words};
use bl_command::run::{refuse, run_alone, run_unread};
use bl_setup::fault::{SetupFault, SetupFaultKind};
use bl_status::fault::{ProgramFault, of_file, of_setup};
use bl_system::files::read_most;
use bl_wire::watched::Watched;
use std::alloc::Global;
use std::io;
use std::io::{Read, Write};
use std::test::Fail;

const ONE_SUBJECT: &[u8] = b"ranks u\ncategories\nsubject ann greatest u current u\n";

/// The current level of bob is above the greatest, and the line behind it is at fault too.
const FOURTH_LINE_AT_FAULT: &[u8] = b"ranks u c s t\ncategories nato crypto\n\
    subject ann greatest s{nato} current s{nato}\n\
    subject bob greatest s{nato} current t\n\
    subject ann greatest s{crypto} current s{crypto}\n";

/// What each run reads.
const INPUT: &[u8] = b"hello ann\n";

/// A setup under which ann may read a memo.
const ONE_MEMO: &[u8] = b"ranks u\ncategories\nsubject ann greatest u current u\n\
    document memo u \"m1\"\nallow ann memo r\n";

/// A session of two lines.
const TWO_READS: &[u8] = b"hello ann\nwhen read memo do show memo; end\n\
    when read memo do show memo; end\n";

/// How a run ended, with what it left unread, what it wrote and what it said.
#[derive(Drop)]
struct Ended {
    status: u8,
    unread: &'static [u8],
    written: Vec<u8>,
    said: Vec<u8>,
}

/// A run after the setup of these bytes.
fn run_after(alloc: Global, setup: &[u8]) -> Ended {
    let mut reader = Watched::new(INPUT);
    let mut writer = Watched::new(Vec::new(alloc));
    let mut errors = Watched::new(Vec::new(alloc));
    let status = alone_on(alloc, setup, 10_000, &mut reader, &mut writer, &mut errors);
    Ended {
        status,
        unread: reader.into_inner(),
        written: writer.into_inner(),
        said: errors.into_inner(),
    }
}

#[test]
fn serves_a_session(rt: HostRuntime) {
    let ended = run_after(rt.alloc(), ONE_SUBJECT);
    assert_eq!(rt; ended.status, 0);
    assert!(rt; ended.written.as_slice() == b"ok\nbye\n".as_slice());
    assert!(rt; ended.said.is_empty());
}

#[test]
fn names_a_fault_of_the_setup(rt: HostRuntime) {
    let ended = run_after(rt.alloc(), b"rank u\n");
    assert_eq!(rt; ended.status, 3);
    assert!(rt; ended.written.is_empty());
    assert!(rt; ended.said.as_slice() == b"setup 1: syntax\n".as_slice());
}

#[test]
fn names_the_first_fault_of_the_setup(rt: HostRuntime) {
    let ended = run_after(rt.alloc(), FOURTH_LINE_AT_FAULT);
    assert_eq!(rt; ended.status, 3);
    assert!(rt; ended.unread == INPUT);
    assert!(rt; ended.written.is_empty());
    assert!(rt; ended.said.as_slice() == b"setup 4: current above greatest\n".as_slice());
}

/// Takes no byte.
#[derive(Drop)]
struct TakesNothing {}

impl Write for TakesNothing {
    fn write(&mut self, _: &[u8]) -> io::Result<usize> {
        Ok(0)
    }

    fn flush(&mut self) -> io::Result<()> {
        Ok(())
    }
}

#[test]
fn names_a_fault_of_the_output(rt: HostRuntime) {
    let alloc = rt.alloc();
    let mut reader = Watched::new(INPUT);
    let mut writer = Watched::new(TakesNothing {});
    let mut errors = Watched::new(Vec::new(alloc));
    let status = alone_on(
        alloc,
        ONE_SUBJECT,
        10_000,
        &mut reader,
        &mut writer,
        &mut errors,
    );
    assert_eq!(rt; status, 3);
    assert!(rt; errors.into_inner().as_slice() == b"write fault\n".as_slice());
}

#[test]
fn tells_each_fault(rt: HostRuntime) -> Result<(), Fail> {
    let faults = [
        (ProgramFault::CannotReadSetup, "cannot read setup"),
        (ProgramFault::CannotReadTrail, "cannot read trail"),
        (ProgramFault::CannotWriteTrail, "cannot write trail"),
        (ProgramFault::NoTrail, "no trail to resume"),
        (ProgramFault::OtherSetup, "not this setup's trail"),
        (ProgramFault::WrongAt(7), "trail wrong at line 7"),
        (ProgramFault::CutShort, "trail cut short"),
        (ProgramFault::Read, "read fault"),
        (ProgramFault::Write, "write fault"),
        (ProgramFault::TooLong, "too long"),
        (ProgramFault::NoMemory, "no memory"),
    ];
    for (fault, words) in faults {
        assert!(rt; format!(in rt.alloc(); "{fault}")?.as_str() == words);
    }
    Ok(())
}

#[test]
fn tells_each_fault_of_a_setup(rt: HostRuntime) -> Result<(), Fail> {
    let kinds = [
        (SetupFaultKind::Syntax, "setup 12: syntax"),
        (SetupFaultKind::Unknown, "setup 12: unknown"),
        (SetupFaultKind::Repeated, "setup 12: repeated"),
        (
            SetupFaultKind::CurrentAboveGreatest,
            "setup 12: current above greatest",
        ),
        (SetupFaultKind::TooMany, "setup 12: too many"),
        (SetupFaultKind::Memory, "no memory"),
    ];
    for (kind, words) in kinds {
        let fault = of_setup(SetupFault { line: 12, kind });
        assert!(rt; format!(in rt.alloc(); "{fault}")?.as_str() == words);
    }
    Ok(())
}

/// A run of what these words ask, after this setup was read, or could not be read. Another command than `alone` fails the
/// test.
fn run_words(
    alloc: Global,
    text: &str,
    setup: Result<Vec<u8>, ProgramFault>,
    input: &'static [u8],
) -> Result<Ended, Fail> {
    let mut words = Vec::new(alloc);
    for word in text.split_ascii_whitespace() {
        words.push(String::from_str(alloc, word)?)?;
    }
    let mut reader = Watched::new(input);
    let mut writer = Watched::new(Vec::new(alloc));
    let mut errors = Watched::new(Vec::new(alloc));
    let status = match read_words(alloc, words.as_slice()) {
        Ok(Command::Alone { limit, .. }) => {
            run_alone(alloc, setup, limit, &mut reader, &mut writer, &mut errors)
        }
        Ok(_command) => return Err(Fail::new("another command")),
        Err(error) => refuse(alloc, &error, &mut writer, &mut errors),
    };
    Ok(Ended {
        status,
        unread: reader.into_inner(),
        written: writer.into_inner(),
        said: errors.into_inner(),
    })
}

/// The limit that the words give is that of the session.
#[test]
fn serves_under_its_limit(rt: HostRuntime) -> Result<(), Fail> {
    let given = [
        (
            "bl_server alone --setup memo.txt --limit 1",
            "ok\n1 done \"m1\"\n2 refused full\nbye\n",
        ),
        (
            "bl_server alone --setup memo.txt",
            "ok\n1 done \"m1\"\n2 done \"m1\"\nbye\n",
        ),
    ];
    for (words, output) in given {
        let setup = Vec::from_slice(rt.alloc(), ONE_MEMO)?;
        let ended = run_words(rt.alloc(), words, Ok(setup), TWO_READS)?;
        assert_eq!(rt; ended.status, 0);
        assert!(rt; ended.written.as_slice() == output.as_bytes());
        assert!(rt; ended.said.is_empty());
    }
    Ok(())
}

/// Bad words are told on standard error alone, and end with 2.
#[test]
fn tells_bad_words(rt: HostRuntime) -> Result<(), Fail> {
    let given = [
        "bl_server",
        "bl_server many --setup memo.txt",
        "bl_server alone",
        "bl_server alone --limit 7",
        "bl_server alone --setup memo.txt --limit 0",
        "bl_server alone --setup memo.txt --limit 100001",
        "bl_server alone --setup memo.txt --limit few",
        "bl_server alone --setup memo.txt --setup memo.txt",
        "bl_server alone --setup memo.txt --port 7",
        "bl_server alone --setup memo.txt --trail",
        "bl_server replay --setup memo.txt --trail trail.txt --replace",
        "bl_server replay",
        "bl_server replay --setup memo.txt",
        "bl_server replay --trail trail.txt",
        "bl_server replay --setup memo.txt --trail trail.txt --limit 7",
        "bl_server state --setup memo.txt",
        "bl_server state --setup memo.txt --trail trail.txt --open",
        "bl_server check",
        "bl_server audit --chain day --from 7",
        "bl_server explain ann read memo",
        "bl_server explain --setup memo.txt ann",
        "bl_server explain --setup memo.txt --at 7 ann read memo",
    ];
    for words in given {
        let setup = Vec::from_slice(rt.alloc(), ONE_MEMO)?;
        let ended = run_words(rt.alloc(), words, Ok(setup), INPUT)?;
        assert_eq!(rt; ended.status, 2, "at {words}");
        assert!(rt; ended.unread == INPUT);
        assert!(rt; ended.written.is_empty());
        assert!(rt; ended.said.starts_with(b"error: "), "at {words}");
    }
    Ok(())
}

/// Help and the version are shown on the output alone, and end with 0.
#[test]
fn shows_what_is_asked_for(rt: HostRuntime) -> Result<(), Fail> {
    for words in [
        "bl_server --help",
        "bl_server alone --help",
        "bl_server replay --help",
        "bl_server check --help",
        "bl_server --version",
    ] {
        let setup = Vec::new(rt.alloc());
        let ended = run_words(rt.alloc(), words, Ok(setup), INPUT)?;
        assert_eq!(rt; ended.status, 0, "at {words}");
        assert!(rt; ended.unread == INPUT);
        assert!(rt; !ended.written.is_empty());
        assert!(rt; ended.said.is_empty());
    }
    Ok(())
}

#[test]
fn tells_a_setup_that_cannot_be_read(rt: HostRuntime) -> Result<(), Fail> {
    let faults = [
        (io::ErrorKind::NotFound, 3, "cannot read setup\n"),
        (io::ErrorKind::OutOfMemory, 4, "no memory\n"),
    ];
    for (kind, status, said) in faults {
        let fault = of_file(&io::Error::from(kind), ProgramFault::CannotReadSetup);
        let words = "bl_server alone --setup memo.txt";
        let ended = run_words(rt.alloc(), words, Err(fault), INPUT)?;
        assert_eq!(rt; ended.status, status);
        assert!(rt; ended.unread == INPUT);
        assert!(rt; ended.written.is_empty());
        assert!(rt; ended.said.as_slice() == said.as_bytes());
    }
    Ok(())
}

/// A setup of one byte too many is read to that byte, and told as a whole.
#[test]
fn tells_a_setup_that_is_too_large(rt: HostRuntime) -> Result<(), Fail> {
    let alloc = rt.alloc();
    let setup = read_most(alloc, io::repeat(b'\n').take(20_000_000), 16_777_216)?;
    assert_eq!(rt; setup.len(), 16_777_217);
    let ended = run_after(alloc, &setup);
    assert_eq!(rt; ended.status, 3);
    assert!(rt; ended.said.as_slice() == b"setup 0: too many\n".as_slice());
    Ok(())
}

/// Words that cannot be read end with 2, and nothing is said; with 4 where memory was refused.
#[test]
fn ends_where_words_cannot_be_read(rt: HostRuntime) {
    let faults = [
        (io::ErrorKind::InvalidData, 2, ""),
        (io::ErrorKind::OutOfMemory, 4, "no memory\n"),
    ];
    for (kind, status, said) in faults {
        let mut errors = Watched::new(Vec::new(rt.alloc()));
        assert_eq!(rt; run_unread(&io::Error::from(kind), &mut errors), status);
        assert!(rt; errors.into_inner().as_slice() == said.as_bytes());
    }
}
