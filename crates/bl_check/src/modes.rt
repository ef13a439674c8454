//! The first document from the left, in a statement, that the innermost `when` round it does not declare in a mode that the
//! statement asks for.
ghost use Rattle.std.specs.Prelude.{◌≡◌, [], ◌∷◌, map, All, MatchResult};
ghost use Rattle.bl_syntax.specs.RawBodies.{raw_access, raw_body};
ghost use Rattle.bl_work.specs.First.{IsNameOfFirst};
ghost use Rattle.bl_work.specs.WhenFaults.{IsDeclared, uses_in};
ghost use Rattle.bl_work.specs.FirstWhenFault.{used_document};
ghost use Rattle.bl_check.specs.Uses.{passes, declares_so};

use bl_policy::access::Mode;
use bl_syntax::raw::{RawAccess, RawBody, RawStatement};

/// What a statement does with a document that it names.
#[derive(Clone, Copy)]
enum Does {
    /// It looks at the content.
    Observes,
    /// It adds to the content.
    Alters,
    /// It puts another content in its place.
    Replaces,
}

/// Err has the first document from the left, in a statement of this body, that the innermost `when` round it does not declare in
/// a mode that the statement asks for, and Ok says that there is none. The innermost `when` round the body has these accesses.
#[cycle(declared)]
pub fn check_declared<'a>(
    first: RawAccess<'a>,
    more: &[RawAccess<'a>],
    body: &RawBody<'a>,
) -> Result<(), &'a [u8]>
    ensures { let xs = uses_in (raw_access first.entry ∷ map raw_access more.now) body.now in
        MatchResult result (λ _. All IsDeclared xs) (λ name. IsNameOfFirst IsDeclared used_document xs name.now) }
{
    for statement in body.statements() {
        check_statement_declared(first, more, statement)?;
    }
    Ok(())
}

/// The first document from the left, in this statement and those within it, that the innermost `when` round it does not declare
/// in a mode that the statement asks for. The innermost round this statement has these accesses.
#[cycle(declared)]
fn check_statement_declared<'a>(
    first: RawAccess<'a>,
    more: &[RawAccess<'a>],
    statement: &RawStatement<'a>,
) -> Result<(), &'a [u8]>
    ensures { let xs = uses_in (raw_access first.entry ∷ map raw_access more.now) (raw_body (statement.now ∷ [])) in
        MatchResult result (λ _. All IsDeclared xs) (λ name. IsNameOfFirst IsDeclared used_document xs name.now) }
{
    match statement {
        RawStatement::Show(document) => check_use(first, more, Does::Observes, document),
        RawStatement::Say(_) => Ok(()),
        RawStatement::Add { document, .. } => check_use(first, more, Does::Alters, document),
        RawStatement::Set { document, .. } => check_use(first, more, Does::Replaces, document),
        RawStatement::Copy { from, to } => {
            check_use(first, more, Does::Observes, from)?;
            check_use(first, more, Does::Replaces, to)
        }
        RawStatement::Pour { from, to } => {
            check_use(first, more, Does::Observes, from)?;
            check_use(first, more, Does::Alters, to)
        }
        RawStatement::IfThen(choice) => {
            let choice = choice.as_ref();
            check_use(first, more, Does::Observes, choice.document)?;
            check_declared(first, more, &choice.then_body)
        }
        RawStatement::IfElse(choice) => {
            let choice = choice.as_ref();
            check_use(first, more, Does::Observes, choice.document)?;
            check_declared(first, more, &choice.then_body)?;
            check_declared(first, more, &choice.else_body)
        }
        RawStatement::Spawn(when) => {
            let when = when.as_ref();
            check_declared(when.first, &when.more, &when.body)
        }
    }
}

/// This document, where no access declares it in a mode in which one may do so with it.
fn check_use<'a>(
    first: RawAccess<'a>,
    more: &[RawAccess<'a>],
    does: Does,
    document: &'a [u8],
) -> Result<(), &'a [u8]>
    ensures { let declared = raw_access first.entry ∷ map raw_access more.now in
        let xs = record { declared = declared; asked = passes does; document = document.now } ∷ [] in
        MatchResult result (λ _. All IsDeclared xs) (λ name. IsNameOfFirst IsDeclared used_document xs name.now) }
{
    if declares(first, does, document) {
        return Ok(());
    }
    for access in more {
        if declares(*access, does, document) {
            return Ok(());
        }
    }
    Err(document)
}

/// Whether the access is of this document, in a mode in which one may do so with it.
fn declares(access: RawAccess<'_>, does: Does, document: &[u8]) -> bool
    ensures { result ≡ declares_so (passes does) document.now (raw_access access.entry) }
{
    access.document == document && may_do(access.mode, does)
}

/// Whether one may do so in this mode.
fn may_do(mode: Mode, does: Does) -> bool
    ensures { result ≡ passes does mode }
{
    match (does, mode) {
        (Does::Observes, Mode::Read) => true,
        (Does::Alters, Mode::Append) => true,
        (_, Mode::Write) => true,
        _ => false,
    }
}
