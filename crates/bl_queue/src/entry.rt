//! One entry: its claims, and where it stands.
ghost use Rattle.std.specs.Prelude.{◌≡◌};
ghost use Rattle.bl_queue.specs.Entries.{is_waiting};

/// Where an entry stands.
#[derive(Clone, Copy)]
pub enum Stand {
    /// It has not begun.
    Waiting,
    /// It runs.
    Started,
    /// It is over.
    Ended,
}

impl Stand {
    fn is_waiting(self) -> bool
        ensures { result ≡ is_waiting self }
    {
        match self {
            Stand::Waiting => true,
            Stand::Started | Stand::Ended => false,
        }
    }
}

/// An entry: which of all claims are its own, so many from a place on, and where it stands.
#[derive(Clone, Copy)]
pub(crate) struct Seat {
    pub(crate) place: u32,
    pub(crate) count: u8,
    pub(crate) stand: Stand,
}

impl Seat {
    /// Whether the entry waits.
    pub(crate) fn is_waiting(self) -> bool
        ensures { result ≡ is_waiting self.stand }
    {
        self.stand.is_waiting()
    }
}
