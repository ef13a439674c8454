//! The first document from the left that the names do not know.
ghost use Rattle.std.specs.Prelude.{◌≡◌, ◌<◌, [], ◌∷◌, map, length, All, Contains, MatchResult};
ghost use Rattle.bl_syntax.specs.RawBodies.{raw_access, raw_body};
ghost use Rattle.bl_work.specs.First.{IsNameOfFirst};
ghost use Rattle.bl_work.specs.Meaning.{access_of as spelled_access};
ghost use Rattle.bl_work.specs.WhenFaults.{documents_in, names_in, names_of_when};
ghost use Rattle.bl_work.specs.FirstWhenFault.{same_name};
ghost use Rattle.bl_check.specs.OfDocuments.{AreOfDocuments};

use crate::once::has_document;
use bl_policy::access::Access;
use bl_syntax::raw::{RawAccess, RawBody, RawStatement};
use bl_work::accesses::{Accesses, MOST_ACCESSES};
use bl_work::names::Names;

/// The accesses of a `when`, in order, their documents looked up. Err has the first name from the left, in the `when` and all within
/// it, that is no document's, and Ok says that there is none.
pub(crate) fn look_up_when<'a>(
    names: &Names,
    first: RawAccess<'a>,
    more: &[RawAccess<'a>],
    body: &RawBody<'a>,
) -> Result<Accesses, &'a [u8]>
    requires { length more.now < MOST_ACCESSES }
    ensures { let P = Contains names.now.documents in
        let xs = names_of_when (raw_access first.entry) (map raw_access more.now) body.now in
        MatchResult result (λ accesses. All P xs × (accesses ≡ map (spelled_access names.now) (raw_access first.entry ∷ map raw_access more.now)))
        (λ name. IsNameOfFirst P same_name xs name.now) }
{
    let accesses = look_up(names, first, more)?;
    check_known(names, first, more, body)?;
    Ok(accesses)
}

/// These accesses, in order, their documents looked up. Err has the first of their names that is no document's.
fn look_up<'a>(
    names: &Names,
    first: RawAccess<'a>,
    more: &[RawAccess<'a>],
) -> Result<Accesses, &'a [u8]>
    requires { length more.now < MOST_ACCESSES }
    ensures { let P = Contains names.now.documents in
        let xs = documents_in (raw_access first.entry ∷ map raw_access more.now) in
        MatchResult result (λ accesses. All P xs × (accesses ≡ map (spelled_access names.now) (raw_access first.entry ∷ map raw_access more.now)))
        (λ name. IsNameOfFirst P same_name xs name.now) }
{
    let mut accesses = Accesses::new(access_of(names, first)?);
    for access in more {
        accesses.push(access_of(names, *access)?);
    }
    Ok(accesses)
}

/// The access, its document looked up; or the name of it, where it is no document's.
fn access_of<'a>(names: &Names, access: RawAccess<'a>) -> Result<Access, &'a [u8]>
    ensures { let P = Contains names.now.documents in
        let xs = access.entry.document.now ∷ [] in
        MatchResult result (λ found. All P xs × (found ≡ spelled_access names.now (raw_access access.entry))) (λ name. IsNameOfFirst P same_name xs name.now) }
{
    match names.document(access.document) {
        Some(doc) => Ok(Access {
            mode: access.mode,
            doc,
        }),
        None => Err(access.document),
    }
}

/// Err has the first name from the left, in a `when` and all within it, that is no document's, and Ok says that there is none.
#[cycle(known)]
pub fn check_when_known<'a>(
    names: &Names,
    first: RawAccess<'a>,
    more: &[RawAccess<'a>],
    body: &RawBody<'a>,
) -> Result<(), &'a [u8]>
    ensures { let P = Contains names.now.documents in
        let xs = names_of_when (raw_access first.entry) (map raw_access more.now) body.now in
        MatchResult result (λ _. All P xs) (λ name. IsNameOfFirst P same_name xs name.now) }
{
    check_accesses_known(names, first, more)?;
    check_known(names, first, more, body)
}

/// The name of the first document in this body that the names do not know. The innermost `when` round the body has these accesses.
#[cycle(known)]
fn check_known<'a>(
    names: &Names,
    first: RawAccess<'a>,
    more: &[RawAccess<'a>],
    body: &RawBody<'a>,
) -> Result<(), &'a [u8]>
    requires { AreOfDocuments names.now (raw_access first ∷ map raw_access more.now) }
    ensures { let P = Contains names.now.documents in
        MatchResult result (λ _. All P (names_in body.now)) (λ name. IsNameOfFirst P same_name (names_in body.now) name.now) }
{
    for statement in body.statements() {
        check_statement_known(names, first, more, statement)?;
    }
    Ok(())
}

/// The name of the first document in this statement that the names do not know. The innermost `when` round it has these accesses.
#[cycle(known)]
fn check_statement_known<'a>(
    names: &Names,
    first: RawAccess<'a>,
    more: &[RawAccess<'a>],
    statement: &RawStatement<'a>,
) -> Result<(), &'a [u8]>
    requires { AreOfDocuments names.now (raw_access first ∷ map raw_access more.now) }
    ensures { let P = Contains names.now.documents in
        let xs = names_in (raw_body (statement.now ∷ [])) in
        MatchResult result (λ _. All P xs) (λ name. IsNameOfFirst P same_name xs name.now) }
{
    match statement {
        RawStatement::Say(_) => Ok(()),
        RawStatement::Show(document)
        | RawStatement::Add { document, .. }
        | RawStatement::Set { document, .. } => check_used_known(names, first, more, document),
        RawStatement::Copy { from, to } => {
            check_used_known(names, first, more, from)?;
            check_used_known(names, first, more, to)
        }
        RawStatement::Pour { from, to } => {
            check_used_known(names, first, more, from)?;
            check_used_known(names, first, more, to)
        }
        RawStatement::IfThen(choice) => {
            let choice = choice.as_ref();
            check_used_known(names, first, more, choice.document)?;
            check_known(names, first, more, &choice.then_body)
        }
        RawStatement::IfElse(choice) => {
            let choice = choice.as_ref();
            check_used_known(names, first, more, choice.document)?;
            check_known(names, first, more, &choice.then_body)?;
            check_known(names, first, more, &choice.else_body)
        }
        RawStatement::Spawn(when) => {
            let when = when.as_ref();
            check_when_known(names, when.first, &when.more, &when.body)
        }
    }
}

/// The name of the first document of these accesses that the names do not know.
fn check_accesses_known<'a>(
    names: &Names,
    first: RawAccess<'a>,
    more: &[RawAccess<'a>],
) -> Result<(), &'a [u8]>
    ensures { let P = Contains names.now.documents in
        let xs = documents_in (raw_access first.entry ∷ map raw_access more.now) in
        MatchResult result (λ _. All P xs) (λ name. IsNameOfFirst P same_name xs name.now) }
{
    check_document_known(names, first.document)?;
    for access in more {
        check_document_known(names, access.document)?;
    }
    Ok(())
}

/// This name, where it is no document that the names know. It is sought first among these accesses, which they know.
fn check_used_known<'a>(
    names: &Names,
    first: RawAccess<'a>,
    more: &[RawAccess<'a>],
    name: &'a [u8],
) -> Result<(), &'a [u8]>
    requires { AreOfDocuments names.now (raw_access first ∷ map raw_access more.now) }
    ensures { let P = Contains names.now.documents in
        let xs = name.now ∷ [] in
        MatchResult result (λ _. All P xs) (λ unknown. IsNameOfFirst P same_name xs unknown.now) }
{
    if first.document == name {
        return Ok(());
    }
    if has_document(more, name) {
        return Ok(());
    }
    check_document_known(names, name)
}

/// This name, where it is no document that the names know.
fn check_document_known<'a>(names: &Names, name: &'a [u8]) -> Result<(), &'a [u8]>
    ensures { let P = Contains names.now.documents in
        let xs = name.now ∷ [] in
        MatchResult result (λ _. All P xs) (λ unknown. IsNameOfFirst P same_name xs unknown.now) }
{
    match names.document(name) {
        Some(_) => Ok(()),
        None => Err(name),
    }
}
