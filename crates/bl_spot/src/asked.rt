//! The first name of a declaration that is at fault.
ghost use Rattle.std.specs.Prelude.{◌≡◌, ◌↔◌, ◌+◌, ◌*◌, ◌^◌, ◌<◌, ◌∷◌, [], length, Contains, IsTrue, IfOk};
ghost use Rattle.bl_level.specs.LevelText.{spell_level};
ghost use Rattle.bl_declare.specs.Declaration.{spell_declaration, spell_document, spell_subject};
ghost use Rattle.bl_declare.specs.Words.{allow_text, declaration_of, document_text, level_text, names_of, subject_text};
ghost use Rattle.bl_setup.specs.FirstSetupFault.{SoFar, IsDue};
ghost use Rattle.bl_spot.specs.Asking.{Fails, ask, ask_allow, ask_categories, ask_document, ask_entry, ask_level, ask_names, ask_subject};
ghost use Rattle.bl_spot.specs.Located.{IsBefore};
ghost use Rattle.bl_spot.specs.declared.located.Named.TheVariants as named;

use crate::before::Before;
use crate::located::Named;
use bl_declare::declaration::{AllowWords, DocumentWords, LevelWords, SubjectWords, Words};
use bl_declare::fault::SetupFaultKind;
use bl_level::scheme::Scheme;
use bl_work::names::Names;
use std::alloc::{AllocError, Global};

/// A name at fault.
#[derive(Clone, Copy)]
pub struct Asked {
    /// How many tokens of the line stand before it.
    pub token: usize,
    pub named: Named,
    /// It is unknown, or repeated.
    pub kind: SetupFaultKind,
}

/// Whether two names are one.
fn is_same_name(one: &[u8], other: &[u8]) -> bool
    ensures { IsTrue result ↔ (one.now ≡ other.now) }
{
    one == other
}

/// Whether a name is among some.
fn is_among(names: &[&[u8]], name: &[u8]) -> bool
    ensures { IsTrue result ↔ Contains (names_of names.now) name.now }
{
    let mut rest = names;
    while let [other, behind @ ..] = rest {
        if is_same_name(other, name) {
            return true;
        }
        rest = behind;
    }
    false
}

/// The first of the names that stood before; the first of them is at this token, and each other one right behind.
fn first_repeated(names: &[&[u8]], token: usize, named: Named) -> Option<Asked>
    requires { token + length names.now < 2 ^ 32 }
    ensures { Fails (ask_names token named [] (names_of names.now)) result }
{
    let mut rest = names;
    let mut count = 0;
    while let [name, behind @ ..] = rest {
        if is_among(&names[..count], name) {
            return Some(Asked {
                token: token + count,
                named,
                kind: SetupFaultKind::Repeated,
            });
        }
        rest = behind;
        count += 1;
    }
    None
}

/// The first category of a level that is not the scheme's or stood before; the first of them is at this token, and each other
/// one behind a comma.
fn category_at_fault(scheme: &Scheme, names: &[&[u8]], token: usize) -> Option<Asked>
    requires { token + 2 * length names.now < 2 ^ 33 }
    ensures { Fails (ask_categories scheme.now token [] (names_of names.now)) result }
{
    let mut rest = names;
    let mut count = 0;
    while let [name, behind @ ..] = rest {
        if scheme.categories().position_of(name).is_none() {
            return Some(category(token + 2 * count, SetupFaultKind::Unknown));
        }
        if is_among(&names[..count], name) {
            return Some(category(token + 2 * count, SetupFaultKind::Repeated));
        }
        rest = behind;
        count += 1;
    }
    None
}

/// A category at fault.
fn category(token: usize, kind: SetupFaultKind) -> Asked
    ensures { result ≡ record { token = token; named = named.Category; kind = kind } }
{
    Asked {
        token,
        named: Named::Category,
        kind,
    }
}

/// The first name of a level that is at fault; its rank is at this token.
fn level_at_fault(scheme: &Scheme, level: &LevelWords<'_>, token: usize) -> Option<Asked>
    requires { token + length (spell_level (level_text level.now)) < 2 ^ 32 }
    ensures { Fails (ask_level scheme.now token (level_text level.now)) result }
{
    if scheme.ranks().position_of(level.rank).is_none() {
        return Some(Asked {
            token,
            named: Named::Rank,
            kind: SetupFaultKind::Unknown,
        });
    }
    category_at_fault(scheme, level.categories.as_slice(), token + 2)
}

/// How many tokens a level has.
pub fn level_width(level: &LevelWords<'_>) -> usize
    requires { length (spell_level (level_text level.now)) < 2 ^ 32 }
    ensures { result ≡ length (spell_level (level_text level.now)) }
{
    if level.categories.is_empty() {
        1
    } else {
        2 + 2 * level.categories.len()
    }
}

/// The first name of a subject's line that is at fault.
fn subject_at_fault(names: &Names, subject: &SubjectWords<'_>) -> Option<Asked>
    requires { length (spell_subject (subject_text subject.now)) < 2 ^ 32 }
    ensures { Fails (ask_subject names.now (subject_text subject.now)) result }
{
    if names.subject(subject.name).is_some() {
        return Some(Asked {
            token: 1,
            named: Named::Subject,
            kind: SetupFaultKind::Repeated,
        });
    }
    match level_at_fault(names.scheme(), &subject.greatest, 3) {
        Some(asked) => Some(asked),
        None => level_at_fault(
            names.scheme(),
            &subject.current,
            4 + level_width(&subject.greatest),
        ),
    }
}

/// The first name of a document's line that is at fault.
fn document_at_fault(names: &Names, document: &DocumentWords<'_>) -> Option<Asked>
    requires { length (spell_document (document_text document.now)) < 2 ^ 32 }
    ensures { Fails (ask_document names.now (document_text document.now)) result }
{
    if names.document(document.name).is_some() {
        return Some(Asked {
            token: 1,
            named: Named::Document,
            kind: SetupFaultKind::Repeated,
        });
    }
    level_at_fault(names.scheme(), &document.level, 2)
}

/// The first name of a right's line that is at fault.
fn allow_at_fault(names: &Names, allow: &AllowWords<'_>) -> Option<Asked>
    ensures { Fails (ask_allow names.now (allow_text allow.now)) result }
{
    if names.subject(allow.subject).is_none() {
        return Some(Asked {
            token: 1,
            named: Named::Subject,
            kind: SetupFaultKind::Unknown,
        });
    }
    if names.document(allow.document).is_none() {
        return Some(Asked {
            token: 2,
            named: Named::Document,
            kind: SetupFaultKind::Unknown,
        });
    }
    None
}

/// The first of the ranks that stood before.
fn rank_at_fault(
    alloc: Global,
    lowest: &[u8],
    higher: &[&[u8]],
) -> Result<Option<Asked>, AllocError>
    requires { 2 + length higher.now < 2 ^ 32 }
    ensures { IfOk result (λ asked. Fails (ask_names 1 named.Rank [] (lowest.now ∷ names_of higher.now)) asked) }
{
    let mut names = Vec::new(alloc);
    names.push(lowest)?;
    for name in higher {
        names.push(*name)?;
    }
    Ok(first_repeated(names.as_slice(), 1, Named::Rank))
}

/// The first name of an entry's line that is at fault.
fn entry_at_fault(names: &Names, words: &Words<'_>) -> Option<Asked>
    requires { length (spell_declaration (declaration_of words.now)) < 2 ^ 32 }
    ensures { Fails (ask_entry names.now (declaration_of words.now)) result }
{
    match words {
        Words::Ranks(_, _) | Words::Categories(_) => None,
        Words::Subject(subject) => subject_at_fault(names, subject),
        Words::Document(document) => document_at_fault(names, document),
        Words::Allow(allow) => allow_at_fault(names, allow),
    }
}

/// The first name of a declaration that is at fault, behind what was declared before.
pub fn name_at_fault(
    alloc: Global,
    before: &Before,
    words: &Words<'_>,
) -> Result<Option<Asked>, AllocError>
    requires { length (spell_declaration (declaration_of words.now)) < 2 ^ 32 }
    ensures { IfOk result (λ asked. (after : SoFar) → IsBefore after before.now → IsDue after (declaration_of words.now)
        → Fails (ask after (declaration_of words.now)) asked) }
{
    match words {
        Words::Ranks(lowest, higher) => rank_at_fault(alloc, lowest, higher.as_slice()),
        Words::Categories(names) => Ok(first_repeated(names.as_slice(), 1, Named::Category)),
        _ => match before {
            Before::Declared(setup) => Ok(entry_at_fault(setup.names(), words)),
            Before::Nothing | Before::Ranked => Ok(None),
        },
    }
}
