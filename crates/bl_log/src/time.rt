//! The time of a line.
ghost use Rattle.bl_log.specs.Lines.{IsTimeText};

use arrayvec::ArrayString;
use jiff_core::Timestamp;
use jiff_fmt::temporal::DateTimePrinter;
use std::time::{Clock, SystemTime};

/// The time that a clock shows; the beginning of 1970 where it cannot be read, or shows none of the years up to 9999.
pub fn now<C: Clock>(clock: &C) -> Timestamp {
    let Ok(time) = SystemTime::now(clock) else {
        return Timestamp::UNIX_EPOCH;
    };
    let Ok(since) = time.duration_since(SystemTime::UNIX_EPOCH) else {
        return Timestamp::UNIX_EPOCH;
    };
    match i128::try_from(since.as_nanos()) {
        Ok(nanos) => Timestamp::from_nanosecond(nanos).unwrap_or(Timestamp::UNIX_EPOCH),
        Err(_) => Timestamp::UNIX_EPOCH,
    }
}

/// A time in UTC with three digits of a second, as `2026-11-27T01:28:24.123Z`.
pub(crate) fn time_text(time: Timestamp) -> ArrayString<33>
    ensures { IsTimeText time result.bytes }
{
    DateTimePrinter::new()
        .precision(Some(3))
        .timestamp_text(time)
}
