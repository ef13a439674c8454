//! Grants: each call once, and what comes back.
ghost use Rattle.std.specs.Prelude.{◌≡◌, [], ◌∷◌, length, IsTrue, IfOk};
ghost use Rattle.bl_policy.specs.declared.access.Mode.TheVariants.{Read, Append};
ghost use Rattle.bl_work.specs.Content.{IsContent};
ghost use Rattle.bl_work.specs.Modes.{declares, observes, alters};
ghost use Rattle.bl_work.specs.Script.{AreApart};
ghost use Rattle.bl_grant.specs.Loans.{accesses_of};

use crate::fixtures::{all_hold, are_back, expect, is_full, nearly_full};
use bl_grant::grant::{AppendGrant, Grant, ReadGrant, Returned, WriteGrant};
use bl_grant::grants::Grants;
use bl_policy::access::{Access, Mode};
use bl_policy::id::DocId;
use bl_work::document::Document;
use std::alloc::{AllocError, Global};
use std::process::Abort;

fn note() -> DocId
    ensures { result ≡ 1 }
{
    DocId::new(1)
}

/// The one grant of these.
fn only(rt: &impl Abort, grants: Grants) -> Grant {
    let mut grants = grants.into_grants();
    let first = grants.pop();
    assert!(rt; grants.is_empty());
    grants.destroy_empty();
    match first {
        Some(grant) => grant,
        None => panic!(rt; "no grant"),
    }
}

/// One grant of a content that nobody else has, lent to entry 7 as document 1.
fn granted(rt: &impl Abort, alloc: Global, mode: Mode, text: &[u8]) -> Result<Grant, AllocError>
    requires { IsContent text.now }
{
    let content = Document::new(alloc, text)?;
    lent(rt, alloc, mode, &content)
}

/// One grant of the content, lent to entry 7 as document 1.
fn lent(
    rt: &impl Abort,
    alloc: Global,
    mode: Mode,
    content: &Document,
) -> Result<Grant, AllocError> {
    let access = Access { mode, doc: note() };
    let contents = [content.share()?];
    let grant = only(rt, Grants::lend(alloc, 7, &[access], &contents)?);
    assert!(rt; grant.entry() == 7 && grant.access() == access);
    Ok(grant)
}

fn read(rt: &impl Abort, grant: Grant) -> ReadGrant {
    match grant {
        Grant::Read(grant) => grant,
        _ => panic!(rt; "not read"),
    }
}

fn append(rt: &impl Abort, grant: Grant) -> AppendGrant {
    match grant {
        Grant::Append(grant) => grant,
        _ => panic!(rt; "not append"),
    }
}

fn write(rt: &impl Abort, grant: Grant) -> WriteGrant {
    match grant {
        Grant::Write(grant) => grant,
        _ => panic!(rt; "not write"),
    }
}

/// Whether this comes back of the grant that was lent in this mode.
fn is_back(returned: Returned, mode: Mode, content: &[u8]) -> bool {
    let entry = returned.entry();
    let access = returned.access();
    let back = returned.into_content();
    entry == 7 && access == Access { mode, doc: note() } && back.bytes() == content
}

/// Whether a read grant of `n1` shows it and gives it back.
fn reads(rt: &impl Abort, alloc: Global) -> Result<bool, AllocError> {
    let grant = read(rt, granted(rt, alloc, Mode::Read, b"n1")?);
    let shown = grant.bytes() == b"n1".as_slice();
    let back = is_back(grant.close(), Mode::Read, b"n1");
    Ok(all_hold(&[shown, back]))
}

#[test]
fn a_read_grant_gives_back_what_it_shows(rt: HostRuntime) {
    expect(&rt, reads(&rt, rt.alloc()));
}

/// Whether two additions to `n1` come back, and their owner has `n1`.
fn appends(rt: &impl Abort, alloc: Global) -> Result<bool, AllocError> {
    let content = Document::new(alloc, b"n1")?;
    let mut grant = append(rt, lent(rt, alloc, Mode::Append, &content)?);
    let first = grant.add(alloc, b"xy").is_ok();
    let second = grant.add(alloc, b"z").is_ok();
    let back = is_back(grant.close(), Mode::Append, b"n1xyz");
    let owned = content.bytes() == b"n1".as_slice();
    Ok(all_hold(&[first, second, back, owned]))
}

#[test]
fn an_append_grant_gives_back_its_additions(rt: HostRuntime) {
    expect(&rt, appends(&rt, rt.alloc()));
}

/// Whether an addition, a new content and another addition to `n1` show at once and come back, and their owner has `n1`.
fn writes(rt: &impl Abort, alloc: Global) -> Result<bool, AllocError> {
    let content = Document::new(alloc, b"n1")?;
    let mut grant = write(rt, lent(rt, alloc, Mode::Write, &content)?);
    let added = grant.add(alloc, b"x").is_ok();
    let shown = grant.bytes() == b"n1x".as_slice();
    let replaced = grant.set(alloc, b"no").is_ok();
    let then_shown = grant.bytes() == b"no".as_slice();
    let then_added = grant.add(alloc, b"y").is_ok();
    let back = is_back(grant.close(), Mode::Write, b"noy");
    let owned = content.bytes() == b"n1".as_slice();
    Ok(all_hold(&[added, shown, replaced, then_shown, then_added, back, owned]))
}

#[test]
fn a_write_grant_is_added_to_and_set(rt: HostRuntime) {
    expect(&rt, writes(&rt, rt.alloc()));
}

/// Whether the other content, put and added to, comes back of a grant of `n1`, and stays what it was for its owner.
fn puts(rt: &impl Abort, alloc: Global) -> Result<bool, AllocError> {
    let content = Document::new(alloc, b"n1")?;
    let other = Document::new(alloc, b"m1")?;
    let shared = other.share()?;
    let mut grant = write(rt, lent(rt, alloc, Mode::Write, &content)?);
    grant.put(shared);
    let added = grant.add(alloc, b"x").is_ok();
    let back = is_back(grant.close(), Mode::Write, b"m1x");
    let owned = other.bytes() == b"m1".as_slice();
    Ok(all_hold(&[added, back, owned]))
}

#[test]
fn a_put_content_stays_its_owners(rt: HostRuntime) {
    expect(&rt, puts(&rt, rt.alloc()));
}

/// Whether an addition to `n1` is gone after a reset.
fn append_resets(rt: &impl Abort, alloc: Global) -> Result<bool, AllocError> {
    let mut grant = append(rt, granted(rt, alloc, Mode::Append, b"n1")?);
    let added = grant.add(alloc, b"x").is_ok();
    grant.reset();
    let back = is_back(grant.close(), Mode::Append, b"n1");
    Ok(all_hold(&[added, back]))
}

/// Whether a new content and an addition are gone after a reset, and what is added then comes back.
fn write_resets(rt: &impl Abort, alloc: Global) -> Result<bool, AllocError> {
    let mut grant = write(rt, granted(rt, alloc, Mode::Write, b"n1")?);
    let replaced = grant.set(alloc, b"no").is_ok();
    let added = grant.add(alloc, b"x").is_ok();
    grant.reset();
    let shown = grant.bytes() == b"n1".as_slice();
    let then_added = grant.add(alloc, b"y").is_ok();
    let back = is_back(grant.close(), Mode::Write, b"n1y");
    Ok(all_hold(&[replaced, added, shown, then_added, back]))
}

#[test]
fn a_reset_grant_has_the_lent_content(rt: HostRuntime) {
    expect(&rt, append_resets(&rt, rt.alloc()));
    expect(&rt, write_resets(&rt, rt.alloc()));
}

/// Whether two bytes that are added at once to 65,535 are cut to the first.
fn write_cuts(rt: &impl Abort, alloc: Global) -> Result<bool, AllocError> {
    let content = nearly_full(alloc)?;
    let long = content.bytes().len() == 65_535;
    let mut grant = write(rt, lent(rt, alloc, Mode::Write, &content)?);
    let added = grant.add(alloc, b"xy").is_ok();
    let back = grant.close().into_content();
    Ok(all_hold(&[long, added, is_full(&back)]))
}

/// Whether the second of two bytes that are added to 65,535 is cut.
fn append_cuts(rt: &impl Abort, alloc: Global) -> Result<bool, AllocError> {
    let content = nearly_full(alloc)?;
    let mut grant = append(rt, lent(rt, alloc, Mode::Append, &content)?);
    let first = grant.add(alloc, b"x").is_ok();
    let second = grant.add(alloc, b"y").is_ok();
    let back = grant.close().into_content();
    Ok(all_hold(&[first, second, is_full(&back)]))
}

#[test]
fn addition_cut_at_the_limit(rt: HostRuntime) {
    expect(&rt, write_cuts(&rt, rt.alloc()));
    expect(&rt, append_cuts(&rt, rt.alloc()));
}

/// `read note, append log`, lent to entry 7.
fn both(alloc: Global, accesses: &[Access], contents: &[Document]) -> Result<Grants, AllocError>
    requires accesses { accesses.now ≡ record { mode = Read; doc = 1 } ∷ record { mode = Append; doc = 2 } ∷ [] }
    requires contents { length contents.now ≡ 2 }
    ensures apart { IfOk result (λ g. AreApart (accesses_of g)) }
    ensures observes { IfOk result (λ g. IsTrue (declares observes (accesses_of g) 1)) }
    ensures alters { IfOk result (λ g. IsTrue (declares alters (accesses_of g) 2)) }
{
    Grants::lend(alloc, 7, accesses, contents)
}

/// Whether the grants had these two contents before, and give back those after.
fn are_closed(grants: Grants, before: &[Document], after: &[Document]) -> bool
    requires { length before.now ≡ 2 }
{
    let withdrawn = grants.withdraw();
    let had = withdrawn.count() == 2
        && withdrawn.had(0, &before[0])
        && withdrawn.had(1, &before[1]);
    are_back(withdrawn, after) && had
}

/// `read note, append log`.
fn read_note_append_log() -> [Access; 2]
    ensures { result ≡ record { mode = Read; doc = 1 } ∷ record { mode = Append; doc = 2 } ∷ [] }
{
    [
        Access {
            mode: Mode::Read,
            doc: note(),
        },
        Access {
            mode: Mode::Append,
            doc: DocId::new(2),
        },
    ]
}

/// Whether note is shown, and what is added to log comes back with note.
fn go_by_document(
    alloc: Global,
    contents: &[Document],
    after: &[Document],
) -> Result<bool, AllocError>
    requires { length contents.now ≡ 2 }
{
    let accesses = read_note_append_log();
    let mut grants = both(alloc, &accesses, contents)?;
    let entry = grants.entry() == 7;
    let shown = grants.content(note()).bytes() == b"n1".as_slice();
    let added = grants.add(alloc, DocId::new(2), b"x").is_ok();
    let closed = are_closed(grants, contents, after);
    Ok(all_hold(&[entry, shown, added, closed]))
}

/// Whether grants that were given up after something was added to log tell what was lent to whom, and give back what there is.
fn tell_what_was_lent(
    alloc: Global,
    contents: &[Document],
    after: &[Document],
) -> Result<bool, AllocError>
    requires { length contents.now ≡ 2 }
{
    let accesses = read_note_append_log();
    let mut grants = both(alloc, &accesses, contents)?;
    let added = grants.add(alloc, DocId::new(2), b"x").is_ok();
    let withdrawn = grants.withdraw();
    let lent = withdrawn.were_lent(7, &accesses, contents);
    let to_another = withdrawn.were_lent(8, &accesses, contents);
    let closed = are_back(withdrawn, after);
    Ok(all_hold(&[added, lent, !to_another, closed]))
}

/// Whether grants of `n1` and `l1` go by document, also when they are given up.
fn both_go(alloc: Global) -> Result<bool, AllocError> {
    let contents = [Document::new(alloc, b"n1")?, Document::new(alloc, b"l1")?];
    let after = [Document::new(alloc, b"n1")?, Document::new(alloc, b"l1x")?];
    let by_document = go_by_document(alloc, &contents, &after)?;
    let told = tell_what_was_lent(alloc, &contents, &after)?;
    Ok(by_document && told)
}

#[test]
fn grants_go_by_document(rt: HostRuntime) {
    expect(&rt, both_go(rt.alloc()));
}
