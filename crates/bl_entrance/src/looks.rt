//! When a thread looks for connections that are idle.
ghost use Rattle.std.specs.Prelude.{◌≡◌, ◌*◌, min};

use std::time::{Clock, Duration};

/// How often a thread looks at least, in milliseconds.
const MOST_APART: u64 = 1_000;

/// For how long a connection may be idle, how long it is from one look to the next, and when the next is due, in
/// milliseconds.
#[derive(Clone, Copy)]
pub struct Looks {
    most: u64,
    apart: u64,
    next: u64,
}

impl Looks {
    /// Looks for connections that are idle for so many seconds. The first is due at once.
    pub fn after(seconds: u32) -> Looks
        ensures { result.most ≡ seconds * 1000 }
    {
        let most = u64::from(seconds) * 1_000;
        Looks {
            most,
            apart: (most / 4).min(MOST_APART),
            next: 0,
        }
    }

    /// Looks at the time alone: a connection may be idle for ever.
    pub fn for_none() -> Looks
        ensures { result.most ≡ 18446744073709551615 }
    {
        Looks {
            most: u64::MAX,
            apart: MOST_APART,
            next: 0,
        }
    }

    /// Looks for connections that are idle for so many seconds, or for as many as before where those are fewer. The next
    /// is due at once.
    pub fn within(self, seconds: u32) -> Looks
        ensures { result.most ≡ min self.most (seconds * 1000) }
    {
        let within = Looks::after(seconds);
        Looks {
            most: self.most.min(within.most),
            apart: self.apart.min(within.apart),
            next: 0,
        }
    }

    /// For how many milliseconds a connection may be idle.
    pub fn most(&self) -> u64
        ensures { result ≡ self.now.most }
    {
        self.most
    }

    /// How long a thread sleeps at most that has connections to look at.
    pub fn apart(&self) -> Duration {
        Duration::from_millis(self.apart)
    }

    /// Whether a look is due at this time, and then the next one is noted.
    pub fn is_due(&mut self, now: u64) -> bool {
        if now < self.next {
            return false;
        }
        self.next = now.saturating_add(self.apart);
        true
    }
}

/// The milliseconds that a clock shows since any moment; none where it cannot be read.
pub fn now<C: Clock>(clock: &C) -> Option<u64> {
    let since = clock.monotonic().ok()?;
    u64::try_from(since.as_millis()).ok()
}
