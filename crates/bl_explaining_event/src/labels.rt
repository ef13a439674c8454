//! The line that tells which start it is.
ghost use Rattle.std.specs.Prelude.{◌≡◌, ◌∷◌, ◌++◌, ◌<◌, OnOk, decimal, length};
ghost use Rattle.bl_order.specs.Headline.{IsReached};
ghost use Rattle.bl_order.specs.Labels.{tag};
ghost use Rattle.bl_hall.specs.Chronicle.{state_now};
ghost use Rattle.bl_wire.specs.Replies.{label_text};
ghost use Rattle.bl_explaining_event.specs.Decisions.{start_line};
ghost use Rattle.bl_explaining_event.specs.Origins.{above_of};

use bl_core::machine::Core;
use bl_core::origin::Origin;
use bl_hall::hall::Hall;
use itoa::Buffer;
use std::alloc::AllocError;

/// Puts a number behind a text.
fn put_decimal(text: &mut Vec<u8>, number: u64) -> Result<(), AllocError>
    ensures { OnOk result (text.new.items ≡ text.old.items ++ decimal number) }
{
    let mut digits = Buffer::new();
    text.extend_from_slice(digits.format(number).as_bytes())
}

/// Puts a dot and a number behind a text.
fn put_dotted(text: &mut Vec<u8>, number: u32) -> Result<(), AllocError>
    ensures { OnOk result (text.new.items ≡ text.old.items ++ (46 ∷ decimal number)) }
{
    text.push(b'.')?;
    put_decimal(text, u64::from(number))
}

/// Puts behind a text an ordinal, and the child numbers behind it.
fn put_path(text: &mut Vec<u8>, ordinal: u32, path: &[u32]) -> Result<(), AllocError>
    ensures { OnOk result (text.new.items ≡ text.old.items ++ label_text (ordinal ∷ path.now)) }
{
    put_decimal(text, u64::from(ordinal))?;
    for number in path {
        put_dotted(text, *number)?;
    }
    Ok(())
}

/// Puts a label behind a text.
fn put_label(text: &mut Vec<u8>, label: &[u32]) -> Result<(), AllocError>
    ensures { OnOk result (text.new.items ≡ text.old.items ++ label_text label.now) }
{
    match label {
        [] => Ok(()),
        [ordinal, path @ ..] => put_path(text, *ordinal, path),
    }
}

/// What stands above an entry: the session of a line, or the parent of a child.
#[derive(Clone, Copy)]
enum Above {
    Session(u32),
    Parent(u32),
}

/// What stands above an entry of this origin.
fn above_of(origin: Origin) -> Above
    ensures { result ≡ above_of origin }
{
    match origin {
        Origin::Line { session, .. } => Above::Session(session.number()),
        Origin::Child { parent, .. } => Above::Parent(parent),
    }
}

/// The session whose line an entry is, or descends from.
fn session_of(core: &Core, n: u32) -> u32
    requires reached { IsReached core.now }
    requires there { n < length core.now.order }
    ensures { result ≡ (tag core.now.order n).session }
{
    let mut at = n;
    'up: loop {
        let Some(origin) = core.origin(at) else {
            unreachable!()
        };
        match above_of(origin) {
            Above::Session(session) => return session,
            Above::Parent(parent) => at = parent,
        }
    }
}

/// The line that tells which start an event is.
pub(crate) fn start_line(
    text: &mut Vec<u8>,
    label: &mut Vec<u32>,
    hall: &Hall,
    event: u64,
    n: u32,
) -> Result<(), AllocError>
    requires { n < length (state_now hall.now).order }
    ensures { OnOk result (text.new.items ≡ text.old.items ++ start_line event n (tag (state_now hall.now).order n)) }
{
    let session = session_of(hall.core(), n);
    hall.write_label(n, label)?;
    text.extend_from_slice(b"event ")?;
    put_decimal(text, event)?;
    text.extend_from_slice(b", start of entry ")?;
    put_decimal(text, u64::from(n))?;
    text.extend_from_slice(b", line ")?;
    put_decimal(text, u64::from(session))?;
    text.extend_from_slice(b":")?;
    put_label(text, label)?;
    text.extend_from_slice(b"\n")
}
