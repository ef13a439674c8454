//! The grants of one behaviour: one for each access that it declares, in order.
ghost use Rattle.std.specs.Prelude.{◌≡◌, ◌+◌, ◌<◌, ◌≤◌, ◌↔◌, ◌==◌, length, map, [], IsTrue, IfOk, OnOk, OnErr, MatchOption, slice_index_or};
ghost use Rattle.std.specs.List.{list_all, list_any};
ghost use Rattle.bl_policy.specs.declared.access.Access.{Access};
ghost use Rattle.bl_work.specs.Content.{IsContent, is_content_byte, added};
ghost use Rattle.bl_work.specs.Modes.{declares, observes, alters, is_write};
ghost use Rattle.bl_work.specs.Script.{AreApart, most_accesses};
ghost use Rattle.bl_grant.specs.Loaned.{Loaned, as_lent, no_loan, HasClosed};
ghost use Rattle.bl_grant.specs.Loans.{loans, accesses_of, entry_of, content_of, changed, IsPlace};
ghost use Rattle.bl_grant.specs.Granted.{loaned_of};

use crate::grant::{Grant, Returned};
use crate::lending::Lending;
use crate::withdrawn::Withdrawn;
use bl_policy::access::Access;
use bl_policy::id::DocId;
use bl_work::document::Document;
use std::alloc::{AllocError, Global};
use std::marker::Model;

/// The grants of a behaviour, in the order of its accesses: at most 8.
pub struct Grants {
    pub(crate) grants: Vec<Grant>,
}

impl Model for Grants {
    ghost use Rattle.std.specs.Prelude.{List, map};
    ghost use Rattle.bl_grant.specs.Loaned.{Loaned};
    ghost use Rattle.bl_grant.specs.Granted.{loaned_of};

    ghost Value = { List Loaned };

    ghost use Rattle.bl_grant.specs.Counts.{AreFew};

    ghost view = { λ g. map loaned_of g.grants.items };

    ghost invariant = { AreFew };
}

/// The place of the first grant of the document.
fn place(grants: &[Grant], doc: DocId) -> usize
    requires { IsTrue (list_any (λ (a : Access). a.doc == doc) (accesses_of (map loaned_of grants.now))) }
    ensures { IsPlace (map loaned_of grants.now) doc result }
{
    for (place, grant) in grants.iter().enumerate() {
        if grant.access().doc == doc {
            return place;
        }
    }
    unreachable!()
}

/// Gives up grants.
pub(crate) fn abandon(grants: Vec<Grant>) {
    let mut grants = grants;
    while let Some(grant) = grants.pop() {
        let _content = grant.close().into_content();
    }
    grants.destroy_empty();
}

impl Grants {
    /// Grants of these documents for these accesses, in order, to this entry: 0 to 8 of them. The documents are shared, and
    /// their bytes are not copied. An error comes only where a growth is refused, and then nothing is lent.
    pub fn lend(
        alloc: Global,
        entry: u32,
        accesses: &[Access],
        documents: &[Document],
    ) -> Result<Grants, AllocError>
        requires few { length accesses.now ≤ most_accesses }
        requires each { length documents.now ≡ length accesses.now }
        ensures { IfOk result (λ g. g ≡ loans entry accesses.now documents.now) }
    {
        let mut lending = Lending::new(alloc, accesses.len())?;
        for i in 0..accesses.len() {
            lending = lending.lend(entry, accesses[i], &documents[i])?;
        }
        Ok(lending.finish())
    }

    /// Whether these are the grants that `lend` makes of these, whatever was done with them since.
    pub(crate) fn were_lent(&self, entry: u32, accesses: &[Access], documents: &[Document]) -> bool
        ensures { IsTrue result ↔ ((length documents.now ≡ length accesses.now) × (map as_lent self.now ≡ loans entry accesses.now documents.now)) }
    {
        if documents.len() != accesses.len() {
            return false;
        }
        if self.grants.len() != accesses.len() {
            return false;
        }
        for i in 0..accesses.len() {
            if !self.grants[i].was_lent(entry, accesses[i], &documents[i]) {
                return false;
            }
        }
        true
    }

    /// The number of the entry that they were lent to.
    pub fn entry(&self) -> u32
        requires { 0 < length self.now }
        ensures { result ≡ entry_of self.now }
    {
        self.grants[0].entry()
    }

    /// How many there are.
    pub fn count(&self) -> usize
        ensures { result ≡ length self.now }
    {
        self.grants.len()
    }

    /// Whether the grant in this place was lent this content, whatever was done with it since.
    pub(crate) fn had(&self, place: usize, content: &Document) -> bool
        requires { place < length self.now }
        ensures { IsTrue result ↔ ((slice_index_or self.now place no_loan).lent ≡ content.now) }
    {
        self.grants[place].lent() == content.bytes()
    }

    /// The content, as it is now, of a document that may be looked at.
    pub fn content(&self, doc: DocId) -> &Document
        requires apart { AreApart (accesses_of self.now) }
        requires observes { IsTrue (declares observes (accesses_of self.now) doc) }
        ensures { result.now ≡ content_of self.now doc }
    {
        let place = place(&self.grants, doc);
        self.grants[place].now()
    }

    /// Adds the text to the end of the content of a document that may be altered, cut at 65,536 bytes. An error comes only
    /// where a growth is refused, and then nothing is added.
    pub fn add(&mut self, alloc: Global, doc: DocId, text: &[u8]) -> Result<(), AllocError>
        requires apart { AreApart (accesses_of self.old) }
        requires alters { IsTrue (declares alters (accesses_of self.old) doc) }
        requires text { IsTrue (list_all is_content_byte text.now) }
        ensures ok { OnOk result (self.new ≡ changed (λ content. added content text.now) doc self.old) }
        ensures err { OnErr result (self.new ≡ self.old) }
    {
        let place = place(&self.grants, doc);
        self.grants[place].add(alloc, text)
    }

    /// Makes the document the content of one that may be replaced, without copying it.
    pub fn put(&mut self, doc: DocId, content: Document)
        requires apart { AreApart (accesses_of self.old) }
        requires replaces { IsTrue (declares is_write (accesses_of self.old) doc) }
        ensures { self.new ≡ changed (λ _. content) doc self.old }
    {
        let place = place(&self.grants, doc);
        self.grants[place].put(content);
    }

    /// Makes each content the lent one again. It takes no memory.
    pub fn reset(&mut self)
        ensures { self.new ≡ map as_lent self.old }
    {
        for grant in self.grants.iter_mut() {
            grant.reset();
        }
    }

    /// Gives the grants up: from now on no content changes, and what was lent may be asked. It takes no memory.
    pub fn withdraw(self) -> Withdrawn
        ensures { result ≡ self }
    {
        Withdrawn { grants: self }
    }

    /// Closes the last grant that is left, and gives its content back as it is now; `None` where none is left. It takes no memory.
    pub(crate) fn close_last(&mut self) -> Option<Returned>
        ensures { MatchOption result (self.old ≡ [] × self.new ≡ []) (HasClosed self.old self.new) }
    {
        let grant = self.grants.pop()?;
        Some(grant.close())
    }

    /// Ends grants of which none is left.
    pub(crate) fn end(self)
        requires { self ≡ [] }
    {
        let Grants { grants } = self;
        grants.destroy_empty();
    }

    /// Closes each grant, and lets go of what comes back.
    pub(crate) fn give_up(self) {
        let Grants { grants } = self;
        abandon(grants);
    }

    /// The grants one by one, in order.
    pub fn into_grants(self) -> Vec<Grant>
        ensures { map loaned_of result.items ≡ self }
    {
        let Grants { grants } = self;
        grants
    }
}
