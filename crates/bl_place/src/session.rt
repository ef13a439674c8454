//! The numbers of sessions.
ghost use Rattle.std.specs.Prelude.{◌≡◌, ℕ};

use std::marker::Model;

/// The number of a session: sessions are counted from 0 in the order in which they were opened.
#[derive(Clone, Copy, PartialEq, Eq, Debug)]
pub struct SessionNo {
    number: u32,
}

impl Model for SessionNo {
    ghost Value = { ℕ };

    ghost view = { λ no. no.number };

    ghost inverse = { λ n. record { number = n } };
}

impl SessionNo {
    /// The session of this number.
    pub fn new(number: u32) -> Self
        ensures { result ≡ number }
    {
        SessionNo { number }
    }

    /// The number, from 0 on.
    pub fn number(self) -> u32
        ensures { result ≡ self }
    {
        self.number
    }
}
