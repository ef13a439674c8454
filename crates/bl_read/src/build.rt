//! From a `when` as it was read to its script. Each behaviour that is spawned stands where its text begins: its place
//! is taken before what it spawns itself is built. The outermost behaviour stands in no list, so that a script of one
//! needs none.
ghost use Rattle.std.specs.Prelude.{◌≡◌, ◌+◌, ◌≤◌, [], ◌∷◌, ◌++◌, map, length, All, IfOk, OnOk};
ghost use Rattle.bl_work.specs.Meaning.{script_of, whens};
ghost use Rattle.bl_work.specs.WhenFaults.{lists_in, IsFaultless, AreContents};
ghost use Rattle.bl_work.specs.FirstWhenFault.{HasFewAccesses};
ghost use Rattle.bl_syntax.specs.RawBodies.{raw_access, raw_body};
ghost use Rattle.bl_work.specs.Body.{statements_of};
ghost use Rattle.bl_work.specs.Script.{most_behaviours};
ghost use Rattle.bl_work.specs.Building.{when_from, IsBuilt};
ghost use Rattle.bl_check.specs.Checked.{IsChecked};
ghost use Rattle.bl_walk.specs.Spawned.{with_outermost};

use crate::lookup::Lookup;
use bl_check::check::Checked;
use bl_syntax::raw::{RawAccess, RawBody, RawStatement};
use bl_walk::parts::{choice_statement, put, unbuilt};
use bl_work::document::Document;
use bl_work::names::Names;
use bl_work::script::{Behaviour, Body, Choice, Script, Stmt};
use std::alloc::{AllocError, Global};

/// The script of a `when` that has no fault: at most 32 behaviours nested at most 8 deep, each of at most 8 accesses to
/// different documents and of statements that keep to them, with no name that is no document's. Its texts are contents.
/// What its check found out is not looked up or counted again.
pub fn build_script(
    alloc: Global,
    names: &Names,
    first: RawAccess<'_>,
    more: &[RawAccess<'_>],
    body: &RawBody<'_>,
    checked: Checked,
) -> Result<Script, AllocError>
    requires checked { IsChecked names.now (raw_access first) (map raw_access more.now) body.now checked }
    requires faultless { IsFaultless names.now (raw_access first) (map raw_access more.now) body.now }
    requires texts { AreContents body.now }
    ensures { IfOk result (λ script. script ≡ script_of names.now (raw_access first.entry)
        (map raw_access more.now) body.now) }
{
    let mut spawned = Vec::with_capacity(alloc, checked.spawned)?;
    let lookup = Lookup::over(names, first, more, checked.accesses);
    let body = body_of(alloc, &lookup, body, &mut spawned)?;
    let outermost = Behaviour::new(lookup.into_accesses(), body);
    Script::new(alloc, outermost, spawned)
}

/// Pushes the behaviours of a spawned `when` behind those that there are.
#[cycle(build)]
fn push_when(
    alloc: Global,
    names: &Names,
    first: RawAccess<'_>,
    more: &[RawAccess<'_>],
    body: &RawBody<'_>,
    spawned: &mut Vec<Behaviour>,
) -> Result<(), AllocError>
    requires few { length (with_outermost spawned.old.items) + (1 + whens body.now) ≤ most_behaviours }
    requires accesses { All HasFewAccesses ((raw_access first ∷ map raw_access more.now) ∷ lists_in body.now) }
    requires texts { AreContents body.now }
    ensures { OnOk result (with_outermost spawned.new.items ≡ with_outermost spawned.old.items
        ++ when_from names.now (length (with_outermost spawned.old.items)) (raw_access first.entry)
        (map raw_access more.now) body.now) }
{
    let place = spawned.len();
    spawned.push(unbuilt())?;
    let lookup = Lookup::new(&*names, first, &*more);
    let body = body_of(alloc, &lookup, body, spawned)?;
    let built = Behaviour::new(lookup.into_accesses(), body);
    put(spawned, place, built);
    Ok(())
}

/// The statements of a body. The behaviours that it spawns are pushed behind those that there are.
#[cycle(build)]
fn body_of(
    alloc: Global,
    lookup: &Lookup<'_>,
    body: &RawBody<'_>,
    spawned: &mut Vec<Behaviour>,
) -> Result<Body, AllocError>
    requires few { length (with_outermost spawned.old.items) + whens body.now ≤ most_behaviours }
    requires accesses { All HasFewAccesses (lists_in body.now) }
    requires texts { AreContents body.now }
    ensures { IfOk result (IsBuilt lookup.now.names.now body.now (with_outermost spawned.old.items)
        (with_outermost spawned.new.items)) }
{
    match body.statements() {
        [] => Ok(Body::empty()),
        [raw] => Ok(Body::one(statement_of(alloc, lookup, raw, spawned)?)),
        raws => long_body_of(alloc, lookup, raws, spawned),
    }
}

/// A body of these statements, in a list. The behaviours that it spawns are pushed behind those that there are.
#[cycle(build)]
fn long_body_of(
    alloc: Global,
    lookup: &Lookup<'_>,
    raws: &[RawStatement<'_>],
    spawned: &mut Vec<Behaviour>,
) -> Result<Body, AllocError>
    requires few { length (with_outermost spawned.old.items) + whens (raw_body raws.now) ≤ most_behaviours }
    requires accesses { All HasFewAccesses (lists_in (raw_body raws.now)) }
    requires texts { AreContents (raw_body raws.now) }
    ensures { IfOk result (IsBuilt lookup.now.names.now (raw_body raws.now) (with_outermost spawned.old.items)
        (with_outermost spawned.new.items)) }
{
    let mut statements = Vec::with_capacity(alloc, raws.len())?;
    for raw in raws {
        let statement = statement_of(alloc, lookup, raw, spawned)?;
        statements.push(statement)?;
    }
    Ok(Body::new(statements))
}

/// One statement. The behaviours that it spawns are pushed behind those that there are.
#[cycle(build)]
fn statement_of(
    alloc: Global,
    lookup: &Lookup<'_>,
    raw: &RawStatement<'_>,
    spawned: &mut Vec<Behaviour>,
) -> Result<Stmt, AllocError>
    requires few { length (with_outermost spawned.old.items) + whens (raw_body (raw.now ∷ [])) ≤ most_behaviours }
    requires accesses { All HasFewAccesses (lists_in (raw_body (raw.now ∷ []))) }
    requires texts { AreContents (raw_body (raw.now ∷ [])) }
    ensures { IfOk result (λ statement. IsBuilt lookup.now.names.now (raw_body (raw.now ∷ []))
        (with_outermost spawned.old.items)
        (with_outermost spawned.new.items) (statements_of (statement ∷ []))) }
{
    match raw {
        RawStatement::Show(document) => Ok(Stmt::Show(lookup.document(document))),
        RawStatement::Say(text) => Ok(Stmt::Say(Document::new(alloc, text)?)),
        RawStatement::Add { document, text } => {
            let text = Document::new(alloc, text)?;
            Ok(Stmt::Add(lookup.document(document), text))
        }
        RawStatement::Set { document, text } => {
            let text = Document::new(alloc, text)?;
            Ok(Stmt::Set(lookup.document(document), text))
        }
        RawStatement::Copy { from, to } => {
            Ok(Stmt::Copy(lookup.document(from), lookup.document(to)))
        }
        RawStatement::Pour { from, to } => {
            Ok(Stmt::Pour(lookup.document(from), lookup.document(to)))
        }
        RawStatement::IfThen(choice) => {
            let choice = choice.as_ref();
            let text = Document::new(alloc, choice.text)?;
            let body = body_of(alloc, lookup, &choice.then_body, spawned)?;
            let built = Choice {
                doc: lookup.document(choice.document),
                test: choice.test,
                text,
                then_body: body,
                else_body: Body::empty(),
            };
            let statement = choice_statement(alloc, built)?;
            Ok(statement)
        }
        RawStatement::IfElse(choice) => {
            let choice = choice.as_ref();
            let text = Document::new(alloc, choice.text)?;
            let then_body = body_of(alloc, lookup, &choice.then_body, spawned)?;
            let else_body = body_of(alloc, lookup, &choice.else_body, spawned)?;
            let built = Choice {
                doc: lookup.document(choice.document),
                test: choice.test,
                text,
                then_body,
                else_body,
            };
            let statement = choice_statement(alloc, built)?;
            Ok(statement)
        }
        RawStatement::Spawn(when) => {
            let when = when.as_ref();
            let number = 1 + spawned.len();
            push_when(
                alloc,
                lookup.names,
                when.first,
                &when.more,
                &when.body,
                spawned,
            )?;
            Ok(Stmt::Spawn(number as u8))
        }
    }
}
