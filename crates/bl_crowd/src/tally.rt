//! How the lines of a session were taken.
ghost use Rattle.std.specs.Prelude.{◌≡◌, ◌-◌};
ghost use Rattle.bl_crowd.specs.Tallies.{noted};

/// How many lines of a session were admitted, and whether one was refused since the lines' weights would have exceeded
/// the limit.
#[derive(Clone, Copy, Debug, Default, PartialEq, Eq)]
pub struct Tally {
    pub admitted: u32,
    pub overweight: bool,
}

impl Tally {
    /// A line was admitted, or was too heavy.
    pub(crate) fn note(&mut self, admitted: bool)
        ensures { self.new ≡ noted self.old admitted }
    {
        if admitted {
            self.admitted = self.admitted.saturating_add(1);
        } else {
            self.overweight = true;
        }
    }

    /// How many of so many lines were not admitted.
    pub fn refused(&self, lines: u32) -> u32
        ensures { result ≡ lines - self.now.admitted }
    {
        lines.saturating_sub(self.admitted)
    }
}
