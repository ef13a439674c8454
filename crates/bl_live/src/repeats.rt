//! How often the same fault is told: at once where it was not told for a minute, and else once a minute, with its
//! count.
ghost use Rattle.std.specs.Prelude.{◌≡◌};
ghost use Rattle.bl_live.specs.Repeats.{after_count, came, counted, is_due as due, is_told};

/// So many milliseconds lie between two times at which the same fault is told.
const APART: u64 = 60_000;

/// What was told of one kind of fault: when that was last, in milliseconds since any moment, and how many came since
/// that were not told.
#[derive(Clone, Copy, Debug, Default, PartialEq, Eq)]
pub struct Repeats {
    pub last: Option<u64>,
    pub count: u32,
}

impl Repeats {
    /// Whether something may be told at this time: nothing was yet, or that is a minute ago.
    fn is_due(&self, now: u64) -> bool
        ensures { result ≡ due self.now.last now }
    {
        match self.last {
            Some(last) => last <= now && now - last >= APART,
            None => true,
        }
    }

    /// One more has come at this time: says whether it is told at once; else it is counted.
    pub fn come(&mut self, now: u64) -> bool
        ensures told { result ≡ is_told self.old now }
        ensures came { self.new ≡ came self.old now }
    {
        if self.is_due(now) && self.count == 0 {
            self.last = Some(now);
            return true;
        }
        self.count = self.count.saturating_add(1);
        false
    }

    /// How many are told at this time that have come since; `None` where there are none, or a minute has not passed.
    pub fn take_count(&mut self, now: u64) -> Option<u32>
        ensures count { result ≡ counted self.old now }
        ensures after { self.new ≡ after_count self.old now }
    {
        if self.count == 0 || !self.is_due(now) {
            return None;
        }
        let count = self.count;
        *self = Repeats {
            last: Some(now),
            count: 0,
        };
        Some(count)
    }
}
