//! Why a test of an access is answered so, in words.
ghost use Rattle.std.specs.Prelude.{◌≡◌, ◌↔◌, ◌<◌, ◌∷◌, ◌++◌, [], IfOk, IsTrue, OnOk, length};
ghost use Rattle.bl_level.specs.Scheme.{HoldsLevel};
ghost use Rattle.bl_explain_text.specs.Reasons.{HoldsGrounds, behind, carry_reason, carry_words, current_pieces, document_name, dominates_words, flow_reason, greatest_words, joined, level_name, matrix_reason, matrix_words, presence_reason, reason, same_words, simple_reason, star_reason, subject_name, there_words, trust_words, trusted_words};

use bl_explain::grounds::Grounds;
use bl_explain::tests::flows;
use bl_level::level::Level;
use bl_level::scheme::Scheme;
use bl_policy::access::{Access, Mode};
use bl_policy::denial::Clause;
use bl_policy::id::{DocId, SubjectId};
use bl_work::modes::letter_of;
use bl_work::names::Names;
use std::alloc::{AllocError, Global};

/// Two texts, one behind the other.
pub(crate) fn both(alloc: Global, first: &[u8], second: &[u8]) -> Result<Vec<u8>, AllocError>
    ensures { IfOk result (λ text. text.items ≡ joined (first.now ∷ second.now ∷ [])) }
{
    let mut text = Vec::new(alloc);
    text.extend_from_slice(first)?;
    text.extend_from_slice(second)?;
    Ok(text)
}

/// A text of one's own.
pub(crate) fn owned(alloc: Global, words: &[u8]) -> Result<Vec<u8>, AllocError>
    ensures { IfOk result (λ text. text.items ≡ words.now) }
{
    let mut text = Vec::new(alloc);
    text.extend_from_slice(words)?;
    Ok(text)
}

/// The name of a subject.
pub(crate) fn subject_name(names: &Names, subject: SubjectId) -> &[u8]
    requires { subject < length names.now.subjects }
    ensures { result.now ≡ subject_name names.now subject }
{
    names.subject_name(subject).bytes()
}

/// The name of a document.
pub(crate) fn document_name(names: &Names, doc: DocId) -> &[u8]
    requires { doc < length names.now.documents }
    ensures { result.now ≡ document_name names.now doc }
{
    names.document_name(doc).bytes()
}

/// The text of a level.
pub(crate) fn level_name(names: &Names, level: &Level) -> Result<Vec<u8>, AllocError>
    requires { HoldsLevel names.now.scheme level.now }
    ensures { IfOk result (λ text. text.items ≡ level_name names.now level.now) }
{
    names.scheme().write_level(level)
}

/// Puts the text of a level behind another text.
pub(crate) fn put_level(text: &mut Vec<u8>, names: &Names, level: &Level) -> Result<(), AllocError>
    requires { HoldsLevel names.now.scheme level.now }
    ensures { OnOk result (text.new.items ≡ text.old.items ++ level_name names.now level.now) }
{
    let name = level_name(names, level)?;
    text.extend_from_slice(&name)
}

pub(crate) fn there_words(present: bool) -> &'static [u8]
    ensures { result.now ≡ there_words present }
{
    if present {
        b" is there"
    } else {
        b" is not there"
    }
}

pub(crate) fn dominates_words(holds: bool) -> &'static [u8]
    ensures { result.now ≡ dominates_words holds }
{
    if holds {
        b" dominates "
    } else {
        b" does not dominate "
    }
}

fn same_words(holds: bool) -> &'static [u8]
    ensures { result.now ≡ same_words holds }
{
    if holds { b", is " } else { b", is not " }
}

fn matrix_words(holds: bool) -> &'static [u8]
    ensures { result.now ≡ matrix_words holds }
{
    if holds {
        b"the matrix has "
    } else {
        b"the matrix has no "
    }
}

pub(crate) fn trusted_words(trusted: bool) -> &'static [u8]
    ensures { result.now ≡ trusted_words trusted }
{
    if trusted {
        b" is trusted"
    } else {
        b" is not trusted"
    }
}

/// What is said of trust, where the levels alone do not let the access pass.
fn trust_words(
    alloc: Global,
    passes: bool,
    trusted: bool,
    name: &[u8],
) -> Result<Vec<u8>, AllocError>
    ensures { IfOk result (λ text. text.items ≡ trust_words passes trusted name.now) }
{
    if passes {
        return Ok(Vec::new(alloc));
    }
    let mut text = Vec::new(alloc);
    text.extend_from_slice(b"; ")?;
    text.extend_from_slice(name)?;
    text.extend_from_slice(trusted_words(trusted))?;
    Ok(text)
}

/// Whether the scheme has names for all levels of the grounds.
pub fn holds_grounds(scheme: &Scheme, grounds: &Grounds) -> bool
    ensures { IsTrue result ↔ HoldsGrounds scheme.now grounds.now }
{
    scheme.holds(&grounds.level)
        && scheme.holds(&grounds.greatest)
        && scheme.holds(&grounds.current)
        && scheme.holds(&grounds.carried)
}

/// Whether the document is present.
fn presence(
    alloc: Global,
    names: &Names,
    access: &Access,
    grounds: &Grounds,
) -> Result<Vec<u8>, AllocError>
    requires { access.now.doc < length names.now.documents }
    ensures { IfOk result (λ text. text.items ≡ presence_reason names.now access.now grounds.now) }
{
    let name = document_name(names, access.doc);
    both(alloc, name, there_words(grounds.present))
}

/// What the greatest level of a subject says of a level.
pub(crate) fn greatest_words(
    alloc: Global,
    names: &Names,
    subject: SubjectId,
    greatest: &Level,
    level: &Level,
) -> Result<Vec<u8>, AllocError>
    requires known { subject < length names.now.subjects }
    requires greatest { HoldsLevel names.now.scheme greatest.now }
    requires level { HoldsLevel names.now.scheme level.now }
    ensures { IfOk result (λ text. text.items ≡ greatest_words names.now subject greatest.now level.now) }
{
    let mut text = Vec::new(alloc);
    text.extend_from_slice(b"greatest of ")?;
    text.extend_from_slice(subject_name(names, subject))?;
    text.extend_from_slice(b", ")?;
    put_level(&mut text, names, greatest)?;
    text.extend_from_slice(b",")?;
    text.extend_from_slice(dominates_words(greatest.dominates(level)))?;
    put_level(&mut text, names, level)?;
    Ok(text)
}

/// What the greatest level dominates.
fn simple(
    alloc: Global,
    names: &Names,
    subject: SubjectId,
    mode: Mode,
    grounds: &Grounds,
) -> Result<Vec<u8>, AllocError>
    requires known { subject < length names.now.subjects }
    requires held { HoldsGrounds names.now.scheme grounds.now }
    ensures { IfOk result (λ text. text.items ≡ simple_reason names.now subject mode grounds.now) }
{
    match mode {
        Mode::Append => owned(alloc, b"an append observes nothing"),
        Mode::Read | Mode::Write => {
            greatest_words(alloc, names, subject, &grounds.greatest, &grounds.level)
        }
    }
}

/// Puts a current level, with whose it is, behind another text.
fn put_current(
    text: &mut Vec<u8>,
    names: &Names,
    subject: SubjectId,
    current: &Level,
) -> Result<(), AllocError>
    requires known { subject < length names.now.subjects }
    requires held { HoldsLevel names.now.scheme current.now }
    ensures { OnOk result (text.new.items ≡ behind text.old.items (current_pieces names.now subject current.now)) }
{
    text.extend_from_slice(b"current of ")?;
    text.extend_from_slice(subject_name(names, subject))?;
    text.extend_from_slice(b", ")?;
    put_level(text, names, current)
}

/// How the current level dominates the document's, or does not.
fn flow_of_read(
    alloc: Global,
    names: &Names,
    subject: SubjectId,
    grounds: &Grounds,
) -> Result<Vec<u8>, AllocError>
    requires known { subject < length names.now.subjects }
    requires held { HoldsGrounds names.now.scheme grounds.now }
    ensures { IfOk result (λ text. text.items ≡ flow_reason names.now subject Mode.Read grounds.now) }
{
    let mut text = Vec::new(alloc);
    let holds = flows(&grounds.current, &grounds.level, Mode::Read);
    put_current(&mut text, names, subject, &grounds.current)?;
    text.extend_from_slice(b",")?;
    text.extend_from_slice(dominates_words(holds))?;
    put_level(&mut text, names, &grounds.level)?;
    Ok(text)
}

/// How the document's level dominates the current one, or does not.
fn flow_of_append(
    alloc: Global,
    names: &Names,
    subject: SubjectId,
    grounds: &Grounds,
) -> Result<Vec<u8>, AllocError>
    requires known { subject < length names.now.subjects }
    requires held { HoldsGrounds names.now.scheme grounds.now }
    ensures { IfOk result (λ text. text.items ≡ flow_reason names.now subject Mode.Append grounds.now) }
{
    let mut text = Vec::new(alloc);
    let holds = flows(&grounds.current, &grounds.level, Mode::Append);
    put_level(&mut text, names, &grounds.level)?;
    text.extend_from_slice(dominates_words(holds))?;
    put_current(&mut text, names, subject, &grounds.current)?;
    Ok(text)
}

/// How the current level is the document's, or is not.
fn flow_of_write(
    alloc: Global,
    names: &Names,
    subject: SubjectId,
    grounds: &Grounds,
) -> Result<Vec<u8>, AllocError>
    requires known { subject < length names.now.subjects }
    requires held { HoldsGrounds names.now.scheme grounds.now }
    ensures { IfOk result (λ text. text.items ≡ flow_reason names.now subject Mode.Write grounds.now) }
{
    let mut text = Vec::new(alloc);
    let holds = flows(&grounds.current, &grounds.level, Mode::Write);
    put_current(&mut text, names, subject, &grounds.current)?;
    text.extend_from_slice(same_words(holds))?;
    put_level(&mut text, names, &grounds.level)?;
    Ok(text)
}

/// How the current level and the document's stand to each other.
fn flow(
    alloc: Global,
    names: &Names,
    subject: SubjectId,
    mode: Mode,
    grounds: &Grounds,
) -> Result<Vec<u8>, AllocError>
    requires known { subject < length names.now.subjects }
    requires held { HoldsGrounds names.now.scheme grounds.now }
    ensures { IfOk result (λ text. text.items ≡ flow_reason names.now subject mode grounds.now) }
{
    match mode {
        Mode::Read => flow_of_read(alloc, names, subject, grounds),
        Mode::Append => flow_of_append(alloc, names, subject, grounds),
        Mode::Write => flow_of_write(alloc, names, subject, grounds),
    }
}

/// The same, and the subject's trust where the levels alone do not let the access pass.
fn star(
    alloc: Global,
    names: &Names,
    subject: SubjectId,
    mode: Mode,
    grounds: &Grounds,
) -> Result<Vec<u8>, AllocError>
    requires known { subject < length names.now.subjects }
    requires held { HoldsGrounds names.now.scheme grounds.now }
    ensures { IfOk result (λ text. text.items ≡ star_reason names.now subject mode grounds.now) }
{
    let name = subject_name(names, subject);
    let passes = flows(&grounds.current, &grounds.level, mode);
    let flow = flow(alloc, names, subject, mode, grounds)?;
    let trust = trust_words(alloc, passes, grounds.trusted, name)?;
    both(alloc, &flow, &trust)
}

/// Whether the matrix has the mode.
fn matrix(
    alloc: Global,
    names: &Names,
    subject: SubjectId,
    access: &Access,
    grounds: &Grounds,
) -> Result<Vec<u8>, AllocError>
    requires known { subject < length names.now.subjects }
    requires there { access.now.doc < length names.now.documents }
    ensures { IfOk result (λ text. text.items ≡ matrix_reason names.now subject access.now grounds.now) }
{
    let mut text = Vec::new(alloc);
    text.extend_from_slice(matrix_words(grounds.allowed))?;
    text.extend_from_slice(letter_of(access.mode))?;
    text.extend_from_slice(b" for ")?;
    text.extend_from_slice(subject_name(names, subject))?;
    text.extend_from_slice(b" and ")?;
    text.extend_from_slice(document_name(names, access.doc))?;
    Ok(text)
}

/// Whether the document's level dominates what is carried.
fn carry_words(
    alloc: Global,
    names: &Names,
    subject: SubjectId,
    grounds: &Grounds,
) -> Result<Vec<u8>, AllocError>
    requires known { subject < length names.now.subjects }
    requires held { HoldsGrounds names.now.scheme grounds.now }
    ensures { IfOk result (λ text. text.items ≡ carry_words names.now subject grounds.now) }
{
    let name = subject_name(names, subject);
    let holds = grounds.level.dominates(&grounds.carried);
    let trust = trust_words(alloc, holds || !grounds.trusted, grounds.trusted, name)?;
    let mut text = Vec::new(alloc);
    put_level(&mut text, names, &grounds.level)?;
    text.extend_from_slice(dominates_words(holds))?;
    text.extend_from_slice(b"carried ")?;
    put_level(&mut text, names, &grounds.carried)?;
    text.extend_from_slice(&trust)?;
    Ok(text)
}

/// Whether what is altered dominates what is carried.
fn carry(
    alloc: Global,
    names: &Names,
    subject: SubjectId,
    mode: Mode,
    grounds: &Grounds,
) -> Result<Vec<u8>, AllocError>
    requires known { subject < length names.now.subjects }
    requires held { HoldsGrounds names.now.scheme grounds.now }
    ensures { IfOk result (λ text. text.items ≡ carry_reason names.now subject mode grounds.now) }
{
    match mode {
        Mode::Read => owned(alloc, b"a read alters nothing"),
        Mode::Append | Mode::Write => carry_words(alloc, names, subject, grounds),
    }
}

/// Why the test of this property, of the access of a subject on these grounds, is answered as it is. No access is tested by
/// a condition of rules: of such a clause the text is empty. `holds_grounds` tests what the scheme has to hold. An error
/// comes only where a growth is refused.
pub fn reason(
    alloc: Global,
    names: &Names,
    subject: SubjectId,
    access: &Access,
    grounds: &Grounds,
    clause: Clause,
) -> Result<Vec<u8>, AllocError>
    requires known { subject < length names.now.subjects }
    requires there { access.now.doc < length names.now.documents }
    requires held { HoldsGrounds names.now.scheme grounds.now }
    ensures { IfOk result (λ text. text.items ≡ reason names.now subject access.now grounds.now clause) }
{
    match clause {
        Clause::Absent => presence(alloc, names, access, grounds),
        Clause::Simple => simple(alloc, names, subject, access.mode, grounds),
        Clause::Star => star(alloc, names, subject, access.mode, grounds),
        Clause::Discretionary => matrix(alloc, names, subject, access, grounds),
        Clause::Carry => carry(alloc, names, subject, access.mode, grounds),
        Clause::Admin | Clause::Trusted | Clause::Greatest | Clause::Present => Ok(Vec::new(alloc)),
    }
}
