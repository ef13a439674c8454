//! Writes refusals.
ghost use Rattle.bl_wire.specs.Texts.{fault_words, refusal};
ghost use Rattle.bl_wire.specs.Watch.{end_state, Puts};

use crate::put::{put, put_number};
use crate::watched::Watched;
use bl_work::asked::LineFault;
use std::io::Write;

/// Writes the words for a line's fault.
fn put_fault<W: Write>(writer: &mut Watched<W>, fault: &LineFault)
    ensures { Puts (fault_words fault.now) (end_state W.contents writer.old) (end_state W.contents writer.new) }
{
    match fault {
        LineFault::Long => put(writer, b"long"),
        LineFault::Syntax(byte) => {
            put(writer, b"syntax ");
            put_number(writer, *byte)
        }
        LineFault::Deep => put(writer, b"deep"),
        LineFault::Many => put(writer, b"many"),
        LineFault::Unknown(name) => {
            put(writer, b"unknown ");
            put(writer, name.bytes())
        }
        LineFault::Twice(name) => {
            put(writer, b"twice ");
            put(writer, name.bytes())
        }
        LineFault::Mode(name) => {
            put(writer, b"mode ");
            put(writer, name.bytes())
        }
        LineFault::Memory => put(writer, b""),
    };
}

/// Writes the reply to a line that has a fault, unless the writer has failed.
pub fn put_bad<W: Write>(writer: &mut Watched<W>, ordinal: u32, fault: &LineFault)
    ensures { Puts (refusal ordinal (fault_words fault.now)) (end_state W.contents writer.old)
        (end_state W.contents writer.new) }
{
    put_number(writer, ordinal);
    put(writer, b" refused ");
    put_fault(writer, fault);
    put(writer, b"\n");
}

/// Writes the reply to a line that is refused for a reason with fixed words, unless the writer has failed.
pub fn put_refused<W: Write>(writer: &mut Watched<W>, ordinal: u32, words: &[u8])
    ensures { Puts (refusal ordinal words.now) (end_state W.contents writer.old) (end_state W.contents writer.new) }
{
    put_number(writer, ordinal);
    put(writer, b" refused ");
    put(writer, words);
    put(writer, b"\n");
}
