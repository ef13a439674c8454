//! The setup of the worked examples, and sessions over it.
ghost use Rattle.std.specs.Prelude.{◌≡◌, ◌≤◌, Ok};

use bl_session::alone::serve_alone;
use bl_setup::reader::read_setup;
use bl_setup::setup::Setup;
use bl_wire::fault::SessionFault;
use bl_wire::watched::Watched;
use std::alloc::{AllocError, Global};
use std::io::{BufRead, Write};
use std::process::Abort;

/// The behaviour that reads the memo and shows it.
pub const SHOW_MEMO: &str = "when read memo do show memo; end";

/// The base setup up to the content of the note.
const BEFORE_NOTE: &str = "ranks u c s t\n\
categories nato crypto\n\
subject ann greatest s{nato} current s{nato}\n\
subject bob greatest s{nato} current u\n\
subject cat greatest s{crypto} current s{crypto}\n\
subject root greatest t{nato,crypto} current u trusted admin\n\
document memo s{nato} \"m1\"\n\
document note u \"";

/// The base setup behind the content of the note.
const BEHIND_NOTE: &str = "\"\n\
document log t{nato,crypto} \"\"\n\
allow ann memo r w\n\
allow ann note r w\n\
allow ann log r a\n\
allow bob memo r w a\n\
allow bob note r w\n\
allow cat memo r\n\
allow root note r w\n";

/// Two further lines.
pub const RESERVED: &str = "reserve draft u\nreserve top t\n";

/// The bytes of some texts, one behind the other.
pub fn joined(alloc: Global, texts: &[&str]) -> Result<Vec<u8>, AllocError> {
    let mut bytes = Vec::new(alloc);
    for text in texts {
        bytes.extend_from_slice(text.as_bytes())?;
    }
    Ok(bytes)
}

/// What came where no fault may come.
pub fn right<T, E>(rt: &impl Abort, outcome: Result<T, E>) -> T
    ensures { outcome ≡ Ok result }
{
    match outcome {
        Ok(value) => value,
        Err(_fault) => panic!(rt; "a fault"),
    }
}

/// The base setup, with this content of the note.
pub fn setup_with<R: AllocGlobal + Abort>(rt: &R, note: &str) -> Setup {
    let text = right(
        rt,
        joined(rt.alloc(), [BEFORE_NOTE, note, BEHIND_NOTE].as_slice()),
    );
    let setup = right(rt, read_setup(rt.alloc(), &text));
    drop(text);
    setup
}

/// The base setup.
pub fn base<R: AllocGlobal + Abort>(rt: &R) -> Setup {
    setup_with(rt, "n1")
}

/// The base setup, with these lines after it; none where a growth is refused.
pub fn setup_or_none(alloc: Global, more: &str) -> Option<Setup> {
    let text = joined(alloc, [BEFORE_NOTE, "n1", BEHIND_NOTE, more].as_slice()).ok()?;
    read_setup(alloc, &text).ok()
}

/// How a session ended: its result, which end has failed, and both ends.
#[derive(Drop)]
pub struct Ended<R, W> {
    pub result: Result<(), SessionFault>,
    pub read_failed: bool,
    pub write_failed: bool,
    pub reader: R,
    pub writer: W,
}

/// Serves a session over a setup, from one end to the other.
pub fn serve<R: BufRead, W: Write>(
    alloc: Global,
    setup: Setup,
    limit: u32,
    input: R,
    output: W,
) -> Ended<R, W>
    requires some { 1 ≤ limit }
    requires most { limit ≤ 100000 }
{
    let mut reader = Watched::new(input);
    let mut writer = Watched::new(output);
    let result = serve_alone(alloc, setup, limit, &mut reader, &mut writer);
    Ended {
        result,
        read_failed: reader.failed(),
        write_failed: writer.failed(),
        reader: reader.into_inner(),
        writer: writer.into_inner(),
    }
}

/// Asserts that these bytes are this text.
fn assert_text(rt: &impl Abort, written: &[u8], text: &str) {
    match str::from_utf8(written) {
        Ok(said) => assert_eq!(rt; said, text),
        Err(_) => panic!(rt; "no text"),
    }
}

/// Asserts that a session ended well, and that this text was written in it.
fn assert_told(rt: &impl Abort, ended: &Ended<&[u8], Vec<u8>>, text: &str) {
    assert!(rt; ended.result == Ok(()), "no session");
    assert_text(rt, ended.writer.as_slice(), text);
}

/// Asserts what is written to this input over a setup, and gives how many of its bytes were left unread.
pub fn assert_served<R: AllocGlobal + Abort>(
    rt: &R,
    setup: Setup,
    limit: u32,
    input: &[u8],
    output: &str,
) -> usize
    requires some { 1 ≤ limit }
    requires most { limit ≤ 100000 }
{
    let ended = serve(rt.alloc(), setup, limit, input, Vec::new(rt.alloc()));
    assert_told(rt, &ended, output);
    let left = ended.reader.len();
    drop(ended);
    left
}

/// Asserts what is written to this input over the base setup with these lines after it, under a limit.
fn assert_said_over<R: AllocGlobal + Abort>(
    rt: &R,
    more: &str,
    limit: u32,
    input: &[u8],
    output: &str,
)
    requires some { 1 ≤ limit }
    requires most { limit ≤ 100000 }
{
    match setup_or_none(rt.alloc(), more) {
        Some(setup) => {
            let _left = assert_served(rt, setup, limit, input, output);
        }
        None => panic!(rt; "no setup"),
    }
}

/// Asserts what is written to this input over the base setup, under a limit.
pub fn assert_said_under<R: AllocGlobal + Abort>(rt: &R, limit: u32, input: &[u8], output: &str)
    requires some { 1 ≤ limit }
    requires most { limit ≤ 100000 }
{
    assert_said_over(rt, "", limit, input, output);
}

/// Asserts what is written to this input over the base setup with two documents that are not there yet.
pub fn assert_said_over_reserved<R: AllocGlobal + Abort>(rt: &R, input: &str, output: &str) {
    assert_said_over(rt, RESERVED, 10_000, input.as_bytes(), output);
}

/// Asserts what is written to this input over the base setup.
pub fn assert_said<R: AllocGlobal + Abort>(rt: &R, input: &str, output: &str) {
    assert_said_under(rt, 10_000, input.as_bytes(), output);
}
