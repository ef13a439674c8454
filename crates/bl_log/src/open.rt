//! A log in a file.
ghost use Rattle.std.specs.Prelude.{◌≡◌, [], false, IfErr, IfOk, IsTrue};
ghost use Rattle.std.specs.Fs.{asks_append, asks_create, asks_create_new, asks_truncate};
ghost use Rattle.std.specs.Io.Buffered.{writer_buffer, writer_inner};

use crate::fault::{LogFault, of_system};
use crate::log::Log;
use std::alloc::Global;
use std::fs::OpenOptions;
use std::io::{BufWriter, Write};
use std::os::unix::fs::OpenOptionsExt;
use std::rt::Files;

/// How the file is opened: what is written goes to its end, and where none is there it is made, which nobody but its
/// owner may read or write.
fn log_options() -> OpenOptions
    ensures append { IsTrue (asks_append result) }
    ensures create { IsTrue (asks_create result) }
    ensures there { asks_create_new result ≡ false }
    ensures whole { asks_truncate result ≡ false }
{
    let mut options = OpenOptions::new();
    options.mode(0o600);
    options.append(true).create(true);
    // said, since no clause says what `mode` leaves as it was
    options.create_new(false).truncate(false);
    options
}

/// A log over what was opened for it, to which nothing was written. An error comes where memory was refused.
fn log_over<F: Write + Drop>(alloc: Global, file: F) -> Result<Log<BufWriter<F>>, LogFault>
    ensures file { IfOk result (λ log. (writer_inner log.end.inner ≡ file) × (writer_buffer log.end.inner ≡ [])) }
    ensures fine { IfOk result (λ log. log.end.failed ≡ false) }
    ensures fault { IfErr result (λ fault. fault ≡ LogFault.Memory) }
{
    match BufWriter::new(alloc, file) {
        Ok(writer) => Ok(Log::new(writer)),
        Err(error) => Err(of_system(&error)),
    }
}

/// Opens the log of this name, after what it has. `CannotWrite` comes where the system refuses that, and `Memory`
/// where memory was refused.
pub fn open<R: Files>(
    rt: &R,
    alloc: Global,
    path: &str,
) -> Result<Log<BufWriter<R::File>>, LogFault>
    ensures fine { IfOk result (λ log. log.end.failed ≡ false) }
    ensures none { IfOk result (λ log. writer_buffer log.end.inner ≡ []) }
{
    match log_options().open(rt, path) {
        Ok(file) => log_over(alloc, file),
        Err(error) => Err(of_system(&error)),
    }
}
