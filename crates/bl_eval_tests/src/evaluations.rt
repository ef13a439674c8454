//! What behaviours do on what they are lent.
ghost use Rattle.std.specs.Prelude.{◌≡◌, ◌<◌, ◌≤◌, length, slice_index_or};
ghost use Rattle.bl_work.specs.Content.{IsContent};
ghost use Rattle.bl_work.specs.Statements.{no_part};

use crate::bodies::{add_script, choose_script, pour_script};
use crate::fixtures::{are_back, back_of, expect, is_full, nearly_full};
use bl_eval::evaluate::eval;
use bl_eval::lent::{DoneParts, Lent, Unrun, UnrunParts};
use bl_grant::grants::Grants;
use bl_policy::access::Access;
use bl_policy::id::DocId;
use bl_work::document::Document;
use bl_work::script::Script;
use std::alloc::{AllocError, Global};
use std::process::Abort;

/// Whether the grants come back as they were lent for the script's one behaviour.
fn is_as_lent(unrun: Unrun, script: &Script, documents: &[Document]) -> bool {
    let right = unrun.is_of(7, script, 0, documents);
    let UnrunParts {
        entry: _,
        script: _,
        index: _,
        grants,
    } = unrun.into_parts();
    are_back(grants, documents) && right
}

/// The accesses of the script's one behaviour, of which there are as many as documents.
fn accesses_for<'a>(rt: &impl Abort, script: &'a Script, documents: &[Document]) -> &'a [Access]
    ensures there { 0 < length script.now }
    ensures accesses { result.now ≡ (slice_index_or script.now 0 no_part).accesses }
    ensures each { length documents.now ≡ length result.now }
    ensures some { 0 < length result.now }
    ensures few { length result.now ≤ 8 }
{
    assert!(rt; script.weight() == 1);
    let accesses = script.accesses(0);
    assert!(rt; documents.len() == accesses.len());
    assert!(rt; accesses.len() >= 1);
    assert!(rt; accesses.len() <= 8);
    accesses
}

/// What comes of a script's one behaviour on these contents. Where a growth is refused in the evaluation, the grants come back as
/// they were lent.
fn evaluated(
    rt: &impl Abort,
    alloc: Global,
    script: &Script,
    documents: &[Document],
) -> Result<DoneParts, AllocError> {
    let accesses = accesses_for(rt, script, documents);
    let own = script.share()?;
    let grants = Grants::lend(alloc, 7, accesses, documents)?;
    let lent = Lent::new(own, 0, grants);
    match eval(alloc, lent) {
        Ok(done) => Ok(done.into_parts()),
        Err(unrun) => {
            assert!(rt; is_as_lent(unrun, script, documents));
            Err(AllocError)
        }
    }
}

/// What comes of a script's one behaviour on contents of these texts.
fn evaluated_on(
    rt: &impl Abort,
    alloc: Global,
    script: &Script,
    first: &[u8],
    second: &[u8],
) -> Result<DoneParts, AllocError>
    requires first { IsContent first.now }
    requires second { IsContent second.now }
{
    let documents = [Document::new(alloc, first)?, Document::new(alloc, second)?];
    evaluated(rt, alloc, script, &documents)
}

/// Whether just these texts were shown, in order.
fn are_shown(shown: &[Document], texts: &[&[u8]]) -> bool {
    if shown.len() != texts.len() {
        return false;
    }
    for (i, text) in texts.iter().enumerate() {
        if shown[i].bytes() != *text {
            return false;
        }
    }
    true
}

/// Whether the parts are of entry 7 and have these texts, no child, and this content of the document.
fn is_expected(parts: DoneParts, texts: &[&[u8]], doc: u16, content: &[u8]) -> bool {
    let DoneParts {
        entry,
        script: _,
        index: _,
        grants,
        outputs,
        spawned,
    } = parts;
    let shown = are_shown(outputs.texts(), texts);
    let back = match back_of(grants, DocId::new(doc)) {
        Some(back) => back.bytes() == content,
        None => false,
    };
    entry == 7 && spawned.is_empty() && shown && back
}

/// Whether log, with this content before, is that one after `blind-append`.
fn pours(rt: &impl Abort, alloc: Global, before: &[u8], after: &[u8]) -> Result<bool, AllocError>
    requires { IsContent before.now }
{
    let script = pour_script(alloc)?;
    let parts = evaluated_on(rt, alloc, &script, before, b"n1")?;
    Ok(is_expected(parts, &[b"n1"], 2, after))
}

#[test]
fn blind_append_pours(rt: HostRuntime) {
    expect(&rt, pours(&rt, rt.alloc(), b"", b"n1"));
    expect(&rt, pours(&rt, rt.alloc(), b"zz", b"zzn1"));
}

/// Whether `choose-and-pour` shows these texts, and leaves this content of memo, where note is this and memo `m1`.
fn chooses(
    rt: &impl Abort,
    alloc: Global,
    note: &[u8],
    texts: &[&[u8]],
    memo: &[u8],
) -> Result<bool, AllocError>
    requires { IsContent note.now }
{
    let script = choose_script(alloc)?;
    let parts = evaluated_on(rt, alloc, &script, note, b"m1")?;
    Ok(is_expected(parts, texts, 0, memo))
}

#[test]
fn choose_and_pour(rt: HostRuntime) {
    expect(
        &rt,
        chooses(&rt, rt.alloc(), b"n1", &[b"m1n1", b"yes"], b"m1n1"),
    );
}

/// It passes with each of its growths refused, one in each run (`rt try --test --fail-alloc N`): either nothing was run, with
/// the grants as they were lent, or what comes is what comes with ample memory.
#[test]
fn a_refused_growth_changes_nothing(rt: HostRuntime) {
    if let Ok(holds) = chooses(&rt, rt.alloc(), b"n1", &[b"m1n1", b"yes"], b"m1n1") {
        assert!(rt; holds);
    }
}

#[test]
fn choose_and_pour_else(rt: HostRuntime) {
    expect(&rt, chooses(&rt, rt.alloc(), b"n2", &[b"no"], b"no"));
}

/// Whether nothing was shown, and a full content came back of the document.
fn is_cut(parts: DoneParts, doc: u16) -> bool {
    let DoneParts {
        entry: _,
        script: _,
        index: _,
        grants,
        outputs,
        spawned: _,
    } = parts;
    match back_of(grants, DocId::new(doc)) {
        Some(back) => is_full(&back) && outputs.texts().is_empty(),
        None => false,
    }
}

/// Whether a text that is added to 65,535 bytes is cut.
fn adds(rt: &impl Abort, alloc: Global) -> Result<bool, AllocError> {
    let script = add_script(alloc)?;
    let documents = [nearly_full(alloc)?];
    let long = documents[0].bytes().len() == 65_535;
    let parts = evaluated(rt, alloc, &script, &documents)?;
    Ok(is_cut(parts, 0) && long)
}

#[test]
fn addition_cut_at_the_limit(rt: HostRuntime) {
    expect(&rt, adds(&rt, rt.alloc()));
}
