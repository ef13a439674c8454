// Names for the places of subjects and documents in a policy: positions, from 0 on.
ghost use Rattle.std.specs.Prelude.{◌≡◌, ℕ};

use std::marker::Model;

/// The position of a subject in its policy.
#[derive(Clone, Copy, PartialEq, Eq, Debug)]
pub struct SubjectId {
    position: u16,
}

impl Model for SubjectId {
    ghost Value = { ℕ };

    ghost view = { λ id. id.position };

    ghost inverse = { λ n. record { position = n } };
}

impl SubjectId {
    /// The subject at this position.
    pub fn new(position: u16) -> Self
        ensures { result ≡ position }
    {
        SubjectId { position }
    }

    /// The position, from 0 on.
    pub fn position(self) -> u16
        ensures { result ≡ self }
    {
        self.position
    }
}

/// The position of a document in its policy.
#[derive(Clone, Copy, PartialEq, Eq, Debug)]
pub struct DocId {
    position: u16,
}

impl Model for DocId {
    ghost Value = { ℕ };

    ghost view = { λ id. id.position };

    ghost inverse = { λ n. record { position = n } };
}

impl DocId {
    /// The document at this position.
    pub fn new(position: u16) -> Self
        ensures { result ≡ position }
    {
        DocId { position }
    }

    /// The position, from 0 on.
    pub fn position(self) -> u16
        ensures { result ≡ self }
    {
        self.position
    }
}
