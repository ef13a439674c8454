//! One grant: a document's content, lent to one entry in one mode. None of these types has `Drop`: a grant is closed, and what
//! it gives back is taken.
ghost use Rattle.std.specs.Prelude.{◌≡◌, ◌↔◌, IsTrue, IfOk, OnOk, OnErr};
ghost use Rattle.std.specs.List.{list_all};
ghost use Rattle.bl_policy.specs.declared.access.Mode.TheVariants.{Read, Append, Write};
ghost use Rattle.bl_work.specs.Content.{IsContent, is_content_byte, added};
ghost use Rattle.bl_work.specs.Modes.{observes, alters, is_write};
ghost use Rattle.bl_grant.specs.Loaned.{loan, as_lent, holding, back_of};

use crate::held::Held;
pub use crate::returned::Returned;
use bl_policy::access::{Access, Mode};
use bl_policy::id::DocId;
use bl_work::document::Document;
use std::alloc::{AllocError, Global};
use std::marker::Model;

/// A document lent for reading. Reading observes and does not alter (Bell and La Padula 1976).
pub struct ReadGrant {
    entry: u32,
    doc: DocId,
    content: Document,
}

impl Model for ReadGrant {
    ghost use Rattle.bl_policy.specs.declared.access.Mode.TheVariants.{Read};
    ghost use Rattle.bl_grant.specs.Loaned.{Loaned, loan};

    ghost Value = { Loaned };

    ghost view = { λ g. loan g.entry (record { mode = Read; doc = g.doc }) g.content };
}

/// A document lent for appending. Appending alters and does not observe (Bell and La Padula 1976): no call shows its bytes, nor
/// how many there are.
pub struct AppendGrant {
    entry: u32,
    doc: DocId,
    held: Held,
}

impl Model for AppendGrant {
    ghost use Rattle.bl_policy.specs.declared.access.Mode.TheVariants.{Append};
    ghost use Rattle.bl_grant.specs.Loaned.{Loaned};

    ghost Value = { Loaned };

    ghost view = { λ g. record { entry = g.entry; access = record { mode = Append; doc = g.doc }; lent = g.held.0; now = g.held.1 } };
}

/// A document lent for writing, which observes and alters (Bell and La Padula 1976).
pub struct WriteGrant {
    entry: u32,
    doc: DocId,
    held: Held,
}

impl Model for WriteGrant {
    ghost use Rattle.bl_policy.specs.declared.access.Mode.TheVariants.{Write};
    ghost use Rattle.bl_grant.specs.Loaned.{Loaned};

    ghost Value = { Loaned };

    ghost view = { λ g. record { entry = g.entry; access = record { mode = Write; doc = g.doc }; lent = g.held.0; now = g.held.1 } };
}

impl ReadGrant {
    /// The number of the entry that it was lent to.
    pub fn entry(&self) -> u32
        ensures { result ≡ self.now.entry }
    {
        self.entry
    }

    /// Its document and mode, which is `Read`.
    pub fn access(&self) -> Access
        ensures access { result ≡ self.now.access }
        ensures mode { result.mode ≡ Read }
    {
        Access {
            mode: Mode::Read,
            doc: self.doc,
        }
    }

    /// The content, which is the lent one.
    pub fn bytes(&self) -> &[u8]
        ensures value { result.now ≡ self.now.now }
        ensures lent { result.now ≡ self.now.lent }
        ensures content { IsContent result.now }
    {
        self.content.bytes()
    }

    /// Gives the content back, which is the lent one.
    pub fn close(self) -> Returned
        ensures back { result ≡ back_of self }
        ensures lent { result.content ≡ self.lent }
    {
        let access = self.access();
        let ReadGrant {
            entry,
            doc: _,
            content,
        } = self;
        Returned {
            entry,
            access,
            content,
        }
    }
}

impl AppendGrant {
    /// The number of the entry that it was lent to.
    pub fn entry(&self) -> u32
        ensures { result ≡ self.now.entry }
    {
        self.entry
    }

    /// Its document and mode, which is `Append`.
    pub fn access(&self) -> Access
        ensures access { result ≡ self.now.access }
        ensures mode { result.mode ≡ Append }
    {
        Access {
            mode: Mode::Append,
            doc: self.doc,
        }
    }

    /// Adds the text to the content's end, cut at 65,536 bytes, without a word on the cut. An error comes only where a growth is
    /// refused, and then nothing is added.
    pub fn add(&mut self, alloc: Global, text: &[u8]) -> Result<(), AllocError>
        requires { IsTrue (list_all is_content_byte text.now) }
        ensures ok { OnOk result (self.new ≡ holding self.old (added self.old.now text.now)) }
        ensures err { OnErr result (self.new ≡ self.old) }
    {
        self.held.add(alloc, text)
    }

    /// Makes the content the lent one again. It takes no memory.
    pub fn reset(&mut self)
        ensures { self.new ≡ as_lent self.old }
    {
        self.held.reset();
    }

    /// Gives back what the additions since the last reset made of the content. It takes no memory.
    pub fn close(self) -> Returned
        ensures { result ≡ back_of self }
    {
        let access = self.access();
        let AppendGrant {
            entry,
            doc: _,
            held,
        } = self;
        Returned {
            entry,
            access,
            content: held.into_now(),
        }
    }
}

impl WriteGrant {
    /// The number of the entry that it was lent to.
    pub fn entry(&self) -> u32
        ensures { result ≡ self.now.entry }
    {
        self.entry
    }

    /// Its document and mode, which is `Write`.
    pub fn access(&self) -> Access
        ensures access { result ≡ self.now.access }
        ensures mode { result.mode ≡ Write }
    {
        Access {
            mode: Mode::Write,
            doc: self.doc,
        }
    }

    /// The content as it is now.
    pub fn bytes(&self) -> &[u8]
        ensures value { result.now ≡ self.now.now }
        ensures content { IsContent result.now }
    {
        self.held.now().bytes()
    }

    /// Adds the text to the content's end, cut at 65,536 bytes. An error comes only where a growth is refused, and then nothing
    /// is added.
    pub fn add(&mut self, alloc: Global, text: &[u8]) -> Result<(), AllocError>
        requires { IsTrue (list_all is_content_byte text.now) }
        ensures ok { OnOk result (self.new ≡ holding self.old (added self.old.now text.now)) }
        ensures err { OnErr result (self.new ≡ self.old) }
    {
        self.held.add(alloc, text)
    }

    /// Makes the text the content. An error comes only where a growth is refused, and then the content is as before.
    pub fn set(&mut self, alloc: Global, text: &[u8]) -> Result<(), AllocError>
        requires { IsContent text.now }
        ensures ok { OnOk result (self.new ≡ holding self.old text.now) }
        ensures err { OnErr result (self.new ≡ self.old) }
    {
        let content = Document::new(alloc, text)?;
        self.held.put(content);
        Ok(())
    }

    /// Makes the document the content, without copying it.
    pub fn put(&mut self, content: Document)
        ensures { self.new ≡ holding self.old content }
    {
        self.held.put(content);
    }

    /// Makes the content the lent one again. It takes no memory.
    pub fn reset(&mut self)
        ensures { self.new ≡ as_lent self.old }
    {
        self.held.reset();
    }

    /// Gives back what the calls since the last reset made of the content. It takes no memory.
    pub fn close(self) -> Returned
        ensures { result ≡ back_of self }
    {
        let access = self.access();
        let WriteGrant {
            entry,
            doc: _,
            held,
        } = self;
        Returned {
            entry,
            access,
            content: held.into_now(),
        }
    }
}

/// One of the three.
pub enum Grant {
    /// Lent for reading.
    Read(ReadGrant),
    /// Lent for appending.
    Append(AppendGrant),
    /// Lent for writing.
    Write(WriteGrant),
}

impl Grant {
    ghost use Rattle.bl_grant.specs.Granted.{loaned_of};

    /// A grant of this document's content.
    pub(crate) fn lend(entry: u32, access: Access, document: &Document) -> Result<Grant, AllocError>
        ensures { IfOk result (λ g. loaned_of g ≡ loan entry access document.now) }
    {
        let content = document.share()?;
        let doc = access.doc;
        Ok(match access.mode {
            Mode::Read => Grant::Read(ReadGrant {
                entry,
                doc,
                content,
            }),
            Mode::Append => Grant::Append(AppendGrant {
                entry,
                doc,
                held: Held::new(content),
            }),
            Mode::Write => Grant::Write(WriteGrant {
                entry,
                doc,
                held: Held::new(content),
            }),
        })
    }

    /// The number of the entry that it was lent to.
    pub fn entry(&self) -> u32
        ensures { result ≡ (loaned_of self.now).entry }
    {
        match self {
            Grant::Read(grant) => grant.entry(),
            Grant::Append(grant) => grant.entry(),
            Grant::Write(grant) => grant.entry(),
        }
    }

    /// Its document and mode.
    pub fn access(&self) -> Access
        ensures { result ≡ (loaned_of self.now).access }
    {
        match self {
            Grant::Read(grant) => grant.access(),
            Grant::Append(grant) => grant.access(),
            Grant::Write(grant) => grant.access(),
        }
    }

    /// The bytes that were lent.
    pub(crate) fn lent(&self) -> &[u8]
        ensures { result.now ≡ (loaned_of self.now).lent }
    {
        match self {
            Grant::Read(grant) => grant.content.bytes(),
            Grant::Append(grant) => grant.held.lent(),
            Grant::Write(grant) => grant.held.lent(),
        }
    }

    /// The content as it is now, of a grant that may be looked at.
    pub(crate) fn now(&self) -> &Document
        requires { IsTrue (observes (loaned_of self.now).access.mode) }
        ensures { result.now ≡ (loaned_of self.now).now }
    {
        match self {
            Grant::Read(grant) => &grant.content,
            Grant::Append(grant) => {
                // read for the proof alone: the mode of this grant is append, which the condition rules out
                let _ = &grant.doc;
                unreachable!()
            }
            Grant::Write(grant) => grant.held.now(),
        }
    }

    /// Adds the text to the content's end, cut at 65,536 bytes. After an error nothing is added.
    pub(crate) fn add(&mut self, alloc: Global, text: &[u8]) -> Result<(), AllocError>
        requires mode { IsTrue (alters (loaned_of self.old).access.mode) }
        requires text { IsTrue (list_all is_content_byte text.now) }
        ensures ok { OnOk result (loaned_of self.new ≡ holding (loaned_of self.old) (added (loaned_of self.old).now text.now)) }
        ensures err { OnErr result (loaned_of self.new ≡ loaned_of self.old) }
    {
        match self {
            Grant::Read(grant) => {
                // read for the proof alone: the mode of this grant is read, which the condition rules out
                let _ = &grant.doc;
                unreachable!()
            }
            Grant::Append(grant) => grant.add(alloc, text),
            Grant::Write(grant) => grant.add(alloc, text),
        }
    }

    /// Makes the document the content.
    pub(crate) fn put(&mut self, content: Document)
        requires { IsTrue (is_write (loaned_of self.old).access.mode) }
        ensures { loaned_of self.new ≡ holding (loaned_of self.old) content }
    {
        match self {
            Grant::Read(grant) => {
                // read for the proof alone: the mode of this grant is read, which the condition rules out
                let _ = &grant.doc;
                unreachable!()
            }
            Grant::Append(grant) => {
                // read for the proof alone: the mode of this grant is append, which the condition rules out
                let _ = &grant.doc;
                unreachable!()
            }
            Grant::Write(grant) => grant.put(content),
        }
    }

    /// Makes the content the lent one again.
    pub fn reset(&mut self)
        ensures { loaned_of self.new ≡ as_lent (loaned_of self.old) }
    {
        match self {
            Grant::Read(grant) => {
                // read for the proof alone: the content of this grant is the lent one already
                let _ = &grant.content;
            }
            Grant::Append(grant) => grant.reset(),
            Grant::Write(grant) => grant.reset(),
        }
    }

    /// Gives the content back.
    pub fn close(self) -> Returned
        ensures { result ≡ back_of (loaned_of self) }
    {
        match self {
            Grant::Read(grant) => grant.close(),
            Grant::Append(grant) => grant.close(),
            Grant::Write(grant) => grant.close(),
        }
    }

    /// Whether it was lent to this entry, for this access, with this content.
    pub(crate) fn was_lent(&self, entry: u32, access: Access, document: &Document) -> bool
        ensures { IsTrue result ↔ (as_lent (loaned_of self.now) ≡ loan entry access document.now) }
    {
        self.entry() == entry && self.access() == access && self.lent() == document.bytes()
    }
}
