//! The first document from the left that is declared a second time in one `when`.
ghost use Rattle.std.specs.Prelude.{◌↔◌, [], ◌∷◌, map, All, Contains, IsTrue, MatchResult};
ghost use Rattle.bl_syntax.specs.RawBodies.{raw_access, raw_body};
ghost use Rattle.bl_work.specs.First.{IsNameOfFirst};
ghost use Rattle.bl_work.specs.WhenFaults.{documents_in, IsOnce, declarations_in, declarations_behind, declarations_of_when};
ghost use Rattle.bl_work.specs.FirstWhenFault.{declared_document};

use bl_syntax::raw::{RawAccess, RawBody, RawStatement};

/// Err has the first document from the left that is declared a second time in one `when`, this one or one within it, and Ok says
/// that there is none.
pub fn check_when_once<'a>(
    first: RawAccess<'a>,
    more: &[RawAccess<'a>],
    body: &RawBody<'a>,
) -> Result<(), &'a [u8]>
    ensures { let xs = declarations_of_when (raw_access first.entry) (map raw_access more.now) body.now in
        MatchResult result (λ _. All IsOnce xs) (λ name. IsNameOfFirst IsOnce declared_document xs name.now) }
{
    check_accesses_once(first, more)?;
    check_once(body)
}

/// The first document from the left that is declared a second time in one `when` of this body.
#[cycle(once)]
fn check_once<'a>(body: &RawBody<'a>) -> Result<(), &'a [u8]>
    ensures { let xs = declarations_in body.now in
        MatchResult result (λ _. All IsOnce xs) (λ name. IsNameOfFirst IsOnce declared_document xs name.now) }
{
    for statement in body.statements() {
        check_statement_once(statement)?;
    }
    Ok(())
}

/// The first document from the left that is declared a second time in one `when` of this statement.
#[cycle(once)]
fn check_statement_once<'a>(statement: &RawStatement<'a>) -> Result<(), &'a [u8]>
    ensures { let xs = declarations_in (raw_body (statement.now ∷ [])) in
        MatchResult result (λ _. All IsOnce xs) (λ name. IsNameOfFirst IsOnce declared_document xs name.now) }
{
    match statement {
        RawStatement::IfThen(choice) => {
            let choice = choice.as_ref();
            check_once(&choice.then_body)
        }
        RawStatement::IfElse(choice) => {
            let choice = choice.as_ref();
            check_once(&choice.then_body)?;
            check_once(&choice.else_body)
        }
        RawStatement::Spawn(when) => {
            let when = when.as_ref();
            check_accesses_once(when.first, &when.more)?;
            check_once(&when.body)
        }
        _ => Ok(()),
    }
}

/// The first document of these accesses that an earlier one has.
fn check_accesses_once<'a>(first: RawAccess<'a>, more: &[RawAccess<'a>]) -> Result<(), &'a [u8]>
    ensures { let xs = declarations_behind [] (raw_access first.entry ∷ map raw_access more.now) in
        MatchResult result (λ _. All IsOnce xs) (λ name. IsNameOfFirst IsOnce declared_document xs name.now) }
{
    for (i, access) in more.iter().enumerate() {
        if access.document == first.document || has_document(&more[..i], access.document) {
            return Err(access.document);
        }
    }
    Ok(())
}

/// Whether an access is of this document.
pub(crate) fn has_document(accesses: &[RawAccess<'_>], document: &[u8]) -> bool
    ensures { IsTrue result ↔ Contains (documents_in (map raw_access accesses.now)) document.now }
{
    for access in accesses {
        if access.document == document {
            return true;
        }
    }
    false
}
