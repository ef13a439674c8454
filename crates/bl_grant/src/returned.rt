//! What comes back of a closed grant. It has no `Drop`: its content is taken.
ghost use Rattle.std.specs.Prelude.{◌≡◌};

use bl_policy::access::Access;
use bl_work::document::Document;
use std::marker::Model;

/// What a closed grant gives back. Its content has to be taken.
pub struct Returned {
    pub(crate) entry: u32,
    pub(crate) access: Access,
    pub(crate) content: Document,
}

impl Model for Returned {
    ghost use Rattle.bl_grant.specs.Loaned.{Back};

    ghost Value = { Back };

    ghost view = { λ r. record { entry = r.entry; access = r.access; content = r.content } };
}

impl Returned {
    /// The number of the entry that the grant was lent to.
    pub fn entry(&self) -> u32
        ensures { result ≡ self.now.entry }
    {
        self.entry
    }

    /// The document and mode of the grant.
    pub fn access(&self) -> Access
        ensures { result ≡ self.now.access }
    {
        self.access
    }

    /// The content that came back.
    pub fn into_content(self) -> Document
        ensures { result ≡ self.content }
    {
        let Returned {
            entry: _,
            access: _,
            content,
        } = self;
        content
    }
}
