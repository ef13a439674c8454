//! The lines of remarks.
ghost use Rattle.std.specs.Prelude.{◌≡◌, ◌<◌, ◌∷◌, [], IfOk, IfSome, length};
ghost use Rattle.bl_explain_text.specs.Reasons.{document_name, joined, subject_name};
ghost use Rattle.bl_rights_text.specs.Remarks.{admin_line, classify_line, down_line, end_name, fall_line, idle_line, never_line, never_lines, unread_line, unusable_line, way_lines};
ghost use Rattle.bl_rights_text.specs.Table.{IsRowOf};

use bl_policy::access::Mode;
use bl_policy::id::{DocId, SubjectId};
use bl_rights::permission::Permission;
use bl_rights::remarks::{has_admin, is_idle, is_unread, way_down, way_end};
use bl_rights::rows::Row;
use bl_setup::setup::Setup;
use bl_work::modes::letter_of;
use std::alloc::{AllocError, Global};

/// The name of a subject.
fn subject_name(setup: &Setup, subject: SubjectId) -> &[u8]
    requires { subject < length setup.now.names.subjects }
    ensures { result.now ≡ subject_name setup.now.names subject }
{
    setup.names().subject_name(subject).bytes()
}

/// The name of a document.
fn document_name(setup: &Setup, doc: DocId) -> &[u8]
    requires { doc < length setup.now.names.documents }
    ensures { result.now ≡ document_name setup.now.names doc }
{
    setup.names().document_name(doc).bytes()
}

/// A name between two texts.
fn between(alloc: Global, before: &[u8], name: &[u8], after: &[u8]) -> Result<Vec<u8>, AllocError>
    ensures { IfOk result (λ text. text.items ≡ joined (before.now ∷ name.now ∷ after.now ∷ [])) }
{
    let mut text = Vec::new(alloc);
    text.extend_from_slice(before)?;
    text.extend_from_slice(name)?;
    text.extend_from_slice(after)?;
    Ok(text)
}

/// The line of a right that can never be used.
fn unusable_line(alloc: Global, setup: &Setup, row: &Row, mode: Mode) -> Result<Vec<u8>, AllocError>
    requires { IsRowOf setup.now row.now }
    ensures { IfOk result (λ text. text.items ≡ unusable_line setup.now row.now mode) }
{
    let subject = subject_name(setup, row.subject);
    let mut text = Vec::new(alloc);
    text.extend_from_slice(b"  never: ")?;
    text.extend_from_slice(subject)?;
    text.extend_from_slice(b" has ")?;
    text.extend_from_slice(letter_of(mode))?;
    text.extend_from_slice(b" of ")?;
    text.extend_from_slice(document_name(setup, row.doc))?;
    text.extend_from_slice(b", and no current level of ")?;
    text.extend_from_slice(subject)?;
    text.extend_from_slice(b" lets it be used\n")?;
    Ok(text)
}

/// The line of a right, where it can never be used.
fn never_line(
    alloc: Global,
    setup: &Setup,
    row: &Row,
    mode: Mode,
    permission: Permission,
) -> Result<Vec<u8>, AllocError>
    requires { IsRowOf setup.now row.now }
    ensures { IfOk result (λ text. text.items ≡ never_line setup.now row.now mode permission) }
{
    match permission {
        Permission::Never => unusable_line(alloc, setup, row, mode),
        Permission::NoRight
        | Permission::Now
        | Permission::Exempt
        | Permission::From(_)
        | Permission::At(_)
        | Permission::UpTo(_) => Ok(Vec::new(alloc)),
    }
}

/// The lines of the rights of a row that can never be used.
pub(crate) fn never_lines(alloc: Global, setup: &Setup, row: &Row) -> Result<Vec<u8>, AllocError>
    requires { IsRowOf setup.now row.now }
    ensures { IfOk result (λ text. text.items ≡ never_lines setup.now row.now) }
{
    let read = never_line(alloc, setup, row, Mode::Read, row.read)?;
    let append = never_line(alloc, setup, row, Mode::Append, row.append)?;
    let write = never_line(alloc, setup, row, Mode::Write, row.write)?;
    let mut text = Vec::new(alloc);
    text.extend_from_slice(&read)?;
    text.extend_from_slice(&append)?;
    text.extend_from_slice(&write)?;
    Ok(text)
}

/// The line of a trusted subject that is an administrator.
fn classify_line(alloc: Global, setup: &Setup, subject: SubjectId) -> Result<Vec<u8>, AllocError>
    requires { subject < length setup.now.policy.subjects }
    ensures { IfOk result (λ text. text.items ≡ classify_line setup.now subject) }
{
    if !setup.policy().is_admin(subject) {
        return Ok(Vec::new(alloc));
    }
    let name = subject_name(setup, subject);
    between(
        alloc,
        b"  way down: ",
        name,
        b", a trusted administrator, may classify any document\n",
    )
}

/// The name of a document, where there is one.
fn end_name(setup: &Setup, end: Option<DocId>) -> &[u8]
    requires { IfSome end (λ o. o < length setup.now.policy.documents) }
    ensures { result.now ≡ end_name setup.now end }
{
    match end {
        Some(doc) => setup.names().document_name(doc).bytes(),
        None => b"",
    }
}

/// The line of a trusted subject that may look at this document, and alter one whose level does not dominate it.
fn fall_line(
    alloc: Global,
    setup: &Setup,
    subject: SubjectId,
    from: DocId,
) -> Result<Vec<u8>, AllocError>
    requires known { subject < length setup.now.policy.subjects }
    requires there { from < length setup.now.policy.documents }
    ensures { IfOk result (λ text. text.items ≡ fall_line setup.now subject from) }
{
    let end = end_name(setup, way_end(setup.policy(), subject, from));
    let mut text = Vec::new(alloc);
    text.extend_from_slice(b"  way down: ")?;
    text.extend_from_slice(subject_name(setup, subject))?;
    text.extend_from_slice(b", a trusted subject, may look at ")?;
    text.extend_from_slice(document_name(setup, from))?;
    text.extend_from_slice(b" and alter ")?;
    text.extend_from_slice(end)?;
    text.extend_from_slice(b", whose level does not dominate it\n")?;
    Ok(text)
}

/// The same, where there is such a document.
fn down_line(
    alloc: Global,
    setup: &Setup,
    subject: SubjectId,
    from: Option<DocId>,
) -> Result<Vec<u8>, AllocError>
    requires known { subject < length setup.now.policy.subjects }
    requires there { IfSome from (λ o. o < length setup.now.policy.documents) }
    ensures { IfOk result (λ text. text.items ≡ down_line setup.now subject from) }
{
    match from {
        None => Ok(Vec::new(alloc)),
        Some(from) => fall_line(alloc, setup, subject, from),
    }
}

/// The lines of a subject by which what it has seen can go down: none where it is not trusted.
pub(crate) fn way_lines(
    alloc: Global,
    setup: &Setup,
    subject: SubjectId,
) -> Result<Vec<u8>, AllocError>
    requires { subject < length setup.now.policy.subjects }
    ensures { IfOk result (λ text. text.items ≡ way_lines setup.now subject) }
{
    let mut text = Vec::new(alloc);
    if setup.policy().is_trusted(subject) {
        let from = way_down(setup.policy(), subject);
        let classify = classify_line(alloc, setup, subject)?;
        let down = down_line(alloc, setup, subject, from)?;
        text.extend_from_slice(&classify)?;
        text.extend_from_slice(&down)?;
    }
    Ok(text)
}

/// The line of a document that nobody may look at.
pub(crate) fn unread_line(alloc: Global, setup: &Setup, doc: DocId) -> Result<Vec<u8>, AllocError>
    requires { doc < length setup.now.policy.documents }
    ensures { IfOk result (λ text. text.items ≡ unread_line setup.now doc) }
{
    if !is_unread(setup.policy(), doc) {
        return Ok(Vec::new(alloc));
    }
    let name = document_name(setup, doc);
    between(alloc, b"  unread: nobody may look at ", name, b"\n")
}

/// The line of a subject without a right.
pub(crate) fn idle_line(
    alloc: Global,
    setup: &Setup,
    subject: SubjectId,
) -> Result<Vec<u8>, AllocError>
    requires { subject < length setup.now.policy.subjects }
    ensures { IfOk result (λ text. text.items ≡ idle_line setup.now subject) }
{
    if !is_idle(setup.policy(), subject) {
        return Ok(Vec::new(alloc));
    }
    let name = subject_name(setup, subject);
    between(alloc, b"  idle: ", name, b" has no right\n")
}

/// The line of a setup without an administrator.
pub(crate) fn admin_line(setup: &Setup) -> &'static [u8]
    ensures { result.now ≡ admin_line setup.now }
{
    if has_admin(setup.policy()) {
        b""
    } else {
        b"  nobody administers: no subject is an administrator\n"
    }
}
