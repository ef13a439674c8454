//! Runs of the program over the ends that they are given, once the files of a command were read.
ghost use Rattle.std.specs.Prelude.{◌≡◌, ◌≢◌, ◌≤◌, false, IfOk, IfErr};
ghost use Rattle.std.specs.IoError.{error_kind};
ghost use Rattle.clap.specs.Words.{kind_of};
ghost use Rattle.bl_wire.specs.Watch.{used};
ghost use Rattle.bl_status.specs.Status.{IsEnd, IsStatus};
ghost use Rattle.bl_alone.specs.Runs.{IsRun};
ghost use Rattle.bl_command.specs.Runs.{HasOnlyTold, IsRefused};

use bl_alone::alone::alone_on;
use bl_status::fault::ProgramFault;
use bl_status::told::tell;
use bl_wire::put::put_out;
use bl_wire::watched::Watched;
use bl_words::command::status_of;
use clap::Error;
use std::alloc::Global;
use std::io;
use std::io::{BufRead, ErrorKind, Write};

/// A session without a trail, once its setup file was read, or a fault was found, which is told.
pub fn run_alone<R: BufRead, W: Write, E: Write>(
    alloc: Global,
    setup: Result<Vec<u8>, ProgramFault>,
    limit: u32,
    reader: &mut Watched<R>,
    writer: &mut Watched<W>,
    errors: &mut Watched<E>,
) -> u8
    requires limited { (1 ≤ limit) × (limit ≤ 100000) }
    requires reader { reader.old.failed ≡ false }
    requires writer { writer.old.failed ≡ false }
    requires errors { errors.old.failed ≡ false }
    ensures run { IfOk setup (λ bytes. IsRun bytes.items limit (record {
      status = result;
      input = used R.remaining reader.old reader.new;
      output = used W.contents writer.old writer.new;
      errors = used E.contents errors.old errors.new;
    })) }
    ensures unread { IfErr setup (λ fault. HasOnlyTold fault (record {
      status = result;
      input = used R.remaining reader.old reader.new;
      output = used W.contents writer.old writer.new;
      errors = used E.contents errors.old errors.new;
    })) }
    ensures status { IsEnd result }
{
    match setup {
        Ok(setup) => alone_on(alloc, setup.as_slice(), limit, reader, writer, errors),
        Err(fault) => tell(errors, &fault),
    }
}

/// Shows why words name no command: help and the version on the output, and anything else on
/// `errors`. The result is the status of the run.
pub fn refuse<W: Write, E: Write>(
    alloc: Global,
    error: &Error,
    writer: &mut Watched<W>,
    errors: &mut Watched<E>,
) -> u8
    requires writer { writer.old.failed ≡ false }
    requires errors { errors.old.failed ≡ false }
    ensures refused { IsRefused (kind_of error.now) result (used W.contents writer.old writer.new)
        (used E.contents errors.old errors.new) }
    ensures status { IsStatus result }
{
    let status = status_of(error);
    let text = match format!(in alloc; "{error}") {
        Ok(text) if status != 4 => text,
        _ => return tell(errors, &ProgramFault::NoMemory),
    };
    if error.use_stderr() {
        put_out(errors, text.as_bytes());
    } else {
        put_out(writer, text.as_bytes());
    }
    status
}

/// A run whose words cannot be read: that memory ran out is told and ends with 4, and anything else ends
/// with 2 and is not told.
pub fn run_unread<E: Write>(error: &io::Error, errors: &mut Watched<E>) -> u8
    requires { errors.old.failed ≡ false }
    ensures memory { error_kind error.now ≡ ErrorKind.OutOfMemory → result ≡ 4 }
    ensures bad { error_kind error.now ≢ ErrorKind.OutOfMemory → result ≡ 2 }
    ensures status { IsStatus result }
{
    if error.kind() == ErrorKind::OutOfMemory {
        tell(errors, &ProgramFault::NoMemory)
    } else {
        2
    }
}
