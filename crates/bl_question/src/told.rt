//! What a run of `explain` says of the fault that ends it. Nothing of it needs memory, and once standard error has failed
//! nothing more is said.
ghost use Rattle.std.specs.Prelude.{◌≡◌, ◌≤◌};
ghost use Rattle.bl_status.specs.Status.{IsStatus};
ghost use Rattle.bl_wire.specs.Texts.{fault_words};
ghost use Rattle.bl_wire.specs.Watch.{Puts, end_state};
ghost use Rattle.bl_question.specs.Telling.{carried_text, fault_text, status_by, unfound_line, unsaid_line};

use crate::fault::ExplainFault;
use crate::question::Question;
use bl_status::told::tell;
use bl_wire::put::{put, put_number, put_out};
use bl_wire::watched::Watched;
use bl_work::asked::LineFault;
use std::io::Write;

/// The text of the level that is carried.
fn carried_text<'a>(carried: Option<&'a str>) -> &'a str
    ensures { result.now ≡ carried_text carried.entry }
{
    match carried {
        Some(text) => text,
        None => "",
    }
}

/// Tells a name that was not found, on a line of its own.
fn tell_unfound<E: Write>(errors: &mut Watched<E>, before: &[u8], name: &str)
    ensures { Puts (unfound_line before.now name.now) (end_state E.contents errors.old) (end_state E.contents errors.new) }
{
    put(errors, before);
    put(errors, name.as_bytes());
    put_out(errors, b"`\n");
}

/// Says the words for the fault of a line.
fn put_fault<E: Write>(errors: &mut Watched<E>, fault: &LineFault)
    ensures { Puts (fault_words fault.now) (end_state E.contents errors.old) (end_state E.contents errors.new) }
{
    match fault {
        LineFault::Long => put(errors, b"long"),
        LineFault::Syntax(byte) => {
            put(errors, b"syntax ");
            put_number(errors, *byte)
        }
        LineFault::Deep => put(errors, b"deep"),
        LineFault::Many => put(errors, b"many"),
        LineFault::Unknown(name) => {
            put(errors, b"unknown ");
            put(errors, name.bytes())
        }
        LineFault::Twice(name) => {
            put(errors, b"twice ");
            put(errors, name.bytes())
        }
        LineFault::Mode(name) => {
            put(errors, b"mode ");
            put(errors, name.bytes())
        }
        LineFault::Memory => put(errors, b""),
    };
}

/// Tells the fault of what is asked for, on a line of its own.
fn tell_unsaid<E: Write>(errors: &mut Watched<E>, fault: &LineFault)
    ensures { Puts (unsaid_line fault.now) (end_state E.contents errors.old) (end_state E.contents errors.new) }
{
    put(errors, b"cannot say: ");
    put_fault(errors, fault);
    put_out(errors, b"\n");
}

/// Tells a fault that ends a run of `explain`, on a line of its own, and gives the status: 2 for what is asked wrongly, 4
/// when out of memory, and 3 for anything else. Where `errors` failed it is marked, and only a part was said.
pub fn tell_fault<E: Write>(
    errors: &mut Watched<E>,
    question: &Question<'_>,
    fault: &ExplainFault,
) -> u8
    ensures puts { Puts (fault_text question.now fault.now) (end_state E.contents errors.old)
        (end_state E.contents errors.new) }
    ensures status { result ≡ status_by fault.now }
    ensures ended { 2 ≤ result }
    ensures range { IsStatus result }
{
    match fault {
        ExplainFault::NoSubject => {
            tell_unfound(errors, b"no subject `", question.subject);
            2
        }
        ExplainFault::NoLevel => {
            tell_unfound(errors, b"no level `", carried_text(question.carried));
            2
        }
        ExplainFault::Unsaid(fault) => {
            tell_unsaid(errors, fault);
            2
        }
        ExplainFault::Program(fault) => tell(errors, fault),
    }
}
