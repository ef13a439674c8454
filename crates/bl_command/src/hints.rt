//! What is said on standard error to who starts the program, beside faults.
ghost use Rattle.bl_wire.specs.Watch.{Puts, end_state};
ghost use Rattle.bl_command.specs.Hints.{hint_of_alone, signal_line, unheard_line};

use bl_wire::put::put_out;
use bl_wire::watched::Watched;
use std::io::Write;

/// What is said to who begins a session at a terminal.
const HINT: &[u8] =
    b"Say `hello SUBJECT`, and then a line for each request. `wait` brings the answers, and the end of input
        (Ctrl-D) ends the session.\n";

/// Says at a terminal how a session goes.
pub(crate) fn tell_hint<E: Write>(errors: &mut Watched<E>)
    ensures { Puts hint_of_alone (end_state E.contents errors.old) (end_state E.contents errors.new) }
{
    put_out(errors, HINT);
}

/// Says at a terminal, of a server that writes its trail at its end, that one which a signal ends has none.
pub(crate) fn tell_signals<E: Write>(errors: &mut Watched<E>)
    ensures { Puts signal_line (end_state E.contents errors.old) (end_state E.contents errors.new) }
{
    put_out(
        errors,
        b"Ctrl-C, or any other signal, ends the server without a trail; `--keep written` keeps one as it goes.\n",
    );
}

/// Says that a run that goes on from another has that one's limit.
pub(crate) fn tell_unheard<E: Write>(errors: &mut Watched<E>)
    ensures { Puts unheard_line (end_state E.contents errors.old) (end_state E.contents errors.new) }
{
    put_out(
        errors,
        b"--limit is not heard: the run goes on under its own\n",
    );
}
