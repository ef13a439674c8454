//! Where the options of `audit` say that it begins.
ghost use Rattle.std.specs.List.{list_all};
ghost use Rattle.std.specs.Prelude.{◌≡◌, ◌↔◌, IfErr, IfOk, IsTrue, Option};
ghost use Rattle.bl_options.specs.Ranges.{IsChecksum, IsStartInRange, is_checksum_digit};
ghost use Rattle.bl_options.specs.Said.{HasStart};
ghost use Rattle.bl_options.specs.declared.start.AuditStart.{AuditStart as AnyStart};

use crate::number::{OutOfRange, number};
use bl_command_line::bounds::MOST_RUN;
use clap::ArgMatches;

/// Where an audit of a chain begins, as who prunes old runs noted it.
#[derive(Clone, Copy, Debug)]
pub struct AuditStart<'a> {
    /// The number of the first run, 1 to 999,999,999.
    pub run: u32,
    /// The checksum of its setup, as an earlier audit told it: 64 digits of 0 to 9 and a to f.
    pub checksum: &'a str,
}

/// Whether a byte may stand in a checksum.
fn is_checksum_digit(byte: u8) -> bool
    ensures { result ≡ is_checksum_digit byte }
{
    byte.is_ascii_digit() || (b'a'..=b'f').contains(&byte)
}

/// Whether each byte may stand in a checksum.
fn are_checksum_digits(bytes: &[u8]) -> bool
    ensures { result ≡ list_all is_checksum_digit bytes.now }
{
    bytes.iter().all(|byte| is_checksum_digit(*byte))
}

/// Whether a text is a checksum as an audit tells it: the 64 digits of a SHA-256.
pub fn is_checksum(text: &str) -> bool
    ensures { IsTrue result ↔ IsChecksum text.now }
{
    if text.len() != 64 {
        return false;
    }
    are_checksum_digits(text.as_bytes())
}

/// Where the options say that an audit begins, where they say it: the run and the checksum of its setup, both.
pub fn start_of<'a>(options: &ArgMatches<'a>) -> Result<Option<AuditStart<'a>>, OutOfRange>
    ensures range { IfOk result IsStartInRange }
    ensures written { IfOk result (HasStart options.now) }
    ensures none { IfErr result
        (λ _. (start : Option AnyStart) → HasStart options.now start → IsStartInRange start → ⊥) }
{
    match (options.get_str("from"), options.get_str("digest")) {
        (None, None) => Ok(None),
        (Some(_), Some(checksum)) => match number(options, "from", 1, MOST_RUN) {
            Some(run) => {
                if !is_checksum(checksum) {
                    return Err(OutOfRange);
                }
                Ok(Some(AuditStart { run, checksum }))
            }
            None => Err(OutOfRange),
        },
        (Some(_), None) | (None, Some(_)) => Err(OutOfRange),
    }
}
