//! Where the contents are kept: one shelf for each document.
//!
//! A content stays on its shelf while it is lent. Nobody else alters it then, so it is what was lent, and what comes back takes its
//! place.
ghost use Rattle.std.specs.Prelude.{◌≡◌, ◌<◌, ◌≤◌, ◌↔◌, ℕ, length, map, slice_index_or, All, IfOk, IsTrue};
ghost use Rattle.bl_policy.specs.declared.access.Access.{Access};
ghost use Rattle.bl_work.specs.Statements.{no_part};
ghost use Rattle.bl_work.specs.Script.{most_accesses};
ghost use Rattle.bl_grant.specs.Loaned.{Back, back_of};
ghost use Rattle.bl_grant.specs.Loans.{loans};
ghost use Rattle.bl_order.specs.Past.{deletes};
ghost use Rattle.bl_place.specs.Shelves.{AreEmptied, contents_in, marked, new_shelf, put_back};

use crate::place::is_exclusive;
use bl_eval::lent::{Done, Unrun};
use bl_grant::grants::Grants;
use bl_grant::lending::Lending;
use bl_grant::withdrawn::Withdrawn;
use bl_policy::access::Access;
use bl_policy::rule::Rule;
use bl_work::document::Document;
use bl_work::script::Script;
use std::alloc::{AllocError, Global};

/// A document's content, and whether it is lent exclusively.
#[derive(Drop)]
pub struct Shelf {
    /// The content, also while it is lent.
    pub content: Document,
    /// Whether it is lent to one who may alter it.
    pub lent: bool,
}

/// A shelf for each content, nothing lent.
pub fn shelve(alloc: Global, contents: &[Document]) -> Result<Vec<Shelf>, AllocError>
    ensures { IfOk result (λ shelves. shelves.items ≡ map new_shelf contents.now) }
{
    let mut shelves = Vec::with_capacity(alloc, contents.len())?;
    for content in contents {
        shelves.push(Shelf {
            content: content.share()?,
            lent: false,
        })?;
    }
    Ok(shelves)
}

/// Grants of the contents of these shelves for these accesses, in order, to this entry: 0 to 8 of them. The contents are shared, and
/// their bytes are not copied. An error comes only where a growth is refused, and then nothing is lent.
pub fn lend_from(
    alloc: Global,
    entry: u32,
    shelves: &[Shelf],
    accesses: &[Access],
) -> Result<Grants, AllocError>
    requires few { length accesses.now ≤ most_accesses }
    requires shelves { All (λ (a : Access). a.doc < length shelves.now) accesses.now }
    ensures { IfOk result (λ grants. grants ≡ loans entry accesses.now (contents_in shelves.now accesses.now)) }
{
    let mut lending = Lending::new(alloc, accesses.len())?;
    for access in accesses {
        let shelf = &shelves[access.doc.position() as usize];
        lending = lending.lend(entry, *access, &shelf.content)?;
    }
    Ok(lending.finish())
}

/// Whether this behaviour had just the contents of these shelves, by its accesses, and was done.
pub fn is_done_of(done: &Done, script: &Script, index: u8, shelves: &[Shelf]) -> bool
    requires there { index < length script.now }
    requires shelves { All (λ (a : Access). a.doc < length shelves.now) (slice_index_or script.now index no_part).accesses }
    ensures { IsTrue result ↔ ((done.now.script ≡ script.now) × (done.now.index ≡ index) × (done.now.inputs ≡ contents_in shelves.now (slice_index_or script.now index no_part).accesses)) }
{
    let accesses = script.accesses(index as usize);
    if !done.is_by(script, index) {
        return false;
    }
    if done.inputs() != accesses.len() {
        return false;
    }
    for (i, access) in accesses.iter().enumerate() {
        if !done.had(i, &shelves[access.doc.position() as usize].content) {
            return false;
        }
    }
    true
}

/// Whether this behaviour had just the contents of these shelves, by its accesses, and was left undone.
pub fn is_unrun_of(unrun: &Unrun, script: &Script, index: u8, shelves: &[Shelf]) -> bool
    requires there { index < length script.now }
    requires shelves { All (λ (a : Access). a.doc < length shelves.now) (slice_index_or script.now index no_part).accesses }
    ensures { IsTrue result ↔ ((unrun.now.script ≡ script.now) × (unrun.now.index ≡ index) × (unrun.now.inputs ≡ contents_in shelves.now (slice_index_or script.now index no_part).accesses)) }
{
    let accesses = script.accesses(index as usize);
    if !unrun.is_by(script, index) {
        return false;
    }
    if unrun.inputs() != accesses.len() {
        return false;
    }
    for (i, access) in accesses.iter().enumerate() {
        if !unrun.had(i, &shelves[access.doc.position() as usize].content) {
            return false;
        }
    }
    true
}

/// What the accesses alter is lent.
pub fn mark(shelves: &mut [Shelf], accesses: &[Access])
    requires { All (λ (a : Access). a.doc < length shelves.old) accesses.now }
    ensures { shelves.new ≡ marked shelves.old accesses.now }
{
    for access in accesses {
        if is_exclusive(access.mode) {
            let shelf = &mut shelves[access.doc.position() as usize];
            shelf.lent = true;
        }
    }
}

/// What was lent exclusively is put back on its shelf, as it is now.
pub fn take_back(shelves: &mut [Shelf], grants: Withdrawn)
    requires { All (λ (b : Back). b.access.doc < length shelves.old) (map back_of grants) }
    ensures { shelves.new ≡ put_back shelves.old (map back_of grants) }
{
    let mut grants = grants;
    while let Some(back) = grants.close_last() {
        let access = back.access();
        let content = back.into_content();
        if is_exclusive(access.mode) {
            let shelf = &mut shelves[access.doc.position() as usize];
            shelf.content = content;
            shelf.lent = false;
        }
    }
    grants.end();
}

/// Empties the content of the document that a rule deletes; any other rule leaves each as it is. Other owners of that content keep
/// what they have, and its bytes stand behind the empty content until an addition writes over them. It takes no memory.
pub fn empty_deleted(shelves: &mut [Shelf], rule: &Rule)
    requires { (doc : ℕ) → IsTrue (deletes rule.now doc) → doc < length shelves.old }
    ensures { AreEmptied (deletes rule.now) shelves.old shelves.new }
{
    if let Rule::Delete { doc } = rule {
        let shelf = &mut shelves[doc.position() as usize];
        shelf.content.truncate(0);
    }
}
