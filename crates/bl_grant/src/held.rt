//! What a grant that may be altered holds: the content as it is now, and how it was lent.
ghost use Rattle.std.specs.Prelude.{◌≡◌, IsTrue, OnOk, OnErr};
ghost use Rattle.std.specs.List.{list_all};
ghost use Rattle.bl_work.specs.Content.{is_content_byte, added};

use bl_work::document::Document;
use std::alloc::{AllocError, Global};
use std::marker::Model;
use std::mem;

/// A content that was lent to be altered. While it is only added to, the lent content is the front of it, so that no second
/// owner of the bytes is held and an addition may be written in place. Another owner, as who lent it may be, keeps what it has.
pub(crate) struct Held {
    content: Document,
    /// The length of the lent content, where that is the front of the content now.
    front: usize,
    /// The lent content, where another one was put in its place.
    lent: Option<Document>,
}

impl Model for Held {
    ghost use Rattle.std.specs.Prelude.{List, ℕ, take, unwrap_or};
    ghost use Rattle.bl_grant.specs.Fronts.{HasFront};

    ghost Value = { List ℕ × List ℕ };

    ghost view = { λ h. (unwrap_or h.lent (take h.front h.content), h.content) };

    ghost invariant = { λ h. HasFront h.front h.content };
}

impl Held {
    pub(crate) fn new(lent: Document) -> Held
        ensures { result ≡ (lent, lent) }
    {
        let front = lent.bytes().len();
        Held {
            content: lent,
            front,
            lent: None,
        }
    }

    /// The bytes that were lent.
    pub(crate) fn lent(&self) -> &[u8]
        ensures { result.now ≡ self.now.0 }
    {
        match &self.lent {
            Some(lent) => lent.bytes(),
            None => &self.content.bytes()[..self.front],
        }
    }

    pub(crate) fn now(&self) -> &Document
        ensures { result.now ≡ self.now.1 }
    {
        &self.content
    }

    pub(crate) fn add(&mut self, alloc: Global, text: &[u8]) -> Result<(), AllocError>
        requires { IsTrue (list_all is_content_byte text.now) }
        ensures ok { OnOk result (self.new ≡ (self.old.0, added self.old.1 text.now)) }
        ensures err { OnErr result (self.new ≡ self.old) }
    {
        self.content.add(alloc, text)
    }

    pub(crate) fn put(&mut self, content: Document)
        ensures { self.new ≡ (self.old.0, content) }
    {
        let mut was = mem::replace(&mut self.content, content);
        if self.lent.is_none() {
            was.truncate(self.front);
            self.lent = Some(was);
        }
        self.front = 0;
    }

    pub(crate) fn reset(&mut self)
        ensures { self.new ≡ (self.old.0, self.old.0) }
    {
        match self.lent.take() {
            Some(lent) => {
                self.front = lent.bytes().len();
                self.content = lent;
            }
            None => self.content.truncate(self.front),
        }
    }

    pub(crate) fn into_now(self) -> Document
        ensures { result ≡ self.1 }
    {
        let Held {
            content,
            front: _,
            lent: _,
        } = self;
        content
    }
}
