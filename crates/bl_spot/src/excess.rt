//! What a declaration has too many of.
ghost use Rattle.std.specs.Prelude.{◌^◌, ◌<◌, MatchOption, length};
ghost use Rattle.bl_declare.specs.Declaration as text;
ghost use Rattle.bl_declare.specs.Declaration.{spell_declaration, spell_document};
ghost use Rattle.bl_declare.specs.Words.{declaration_of, document_text, subject_text};
ghost use Rattle.bl_setup.specs.FirstSetupFault as first;
ghost use Rattle.bl_setup.specs.FirstSetupFault.{SoFar, IsDue, IsTooMuch};
ghost use Rattle.bl_spot.specs.Located.{IsBefore, IsExcess};

use crate::asked::level_width;
use crate::before::Before;
use crate::located::{Excess, Named};
use bl_declare::declaration::{DocumentWords, SubjectWords, Words};
use bl_level::scheme::{MOST_CATEGORIES, MOST_RANKS};
use bl_policy::policy::{MOST_DOCUMENTS, MOST_SUBJECTS};
use bl_setup::setup::Setup;
use bl_work::document::MOST_BYTES;

/// A token with which there is too much.
#[derive(Clone, Copy)]
pub struct Over {
    /// How many tokens of the line stand before it.
    pub token: usize,
    pub excess: Excess,
}

/// The token with which a subject's line has too much.
fn subject_over(setup: &Setup, subject: &SubjectWords<'_>) -> Option<Over>
    ensures { MatchOption result (IsTooMuch (first.declared setup.now) (text.subject (subject_text subject.now)) → ⊥)
        (λ over. IsExcess (first.declared setup.now) (text.subject (subject_text subject.now)) over.token over.excess) }
{
    if setup.names().subjects() >= MOST_SUBJECTS {
        Some(Over {
            token: 1,
            excess: Excess::Names(Named::Subject),
        })
    } else {
        None
    }
}

/// The token with which a document's line has too much.
fn document_over(setup: &Setup, document: &DocumentWords<'_>) -> Option<Over>
    requires { length (spell_document (document_text document.now)) < 2 ^ 32 }
    ensures { MatchOption result (IsTooMuch (first.declared setup.now) (text.document (document_text document.now)) → ⊥)
        (λ over. IsExcess (first.declared setup.now) (text.document (document_text document.now)) over.token over.excess) }
{
    if setup.names().documents() >= MOST_DOCUMENTS {
        return Some(Over {
            token: 1,
            excess: Excess::Names(Named::Document),
        });
    }
    if document.content.unwrap_or(b"").len() > MOST_BYTES {
        return Some(Over {
            token: 2 + level_width(&document.level),
            excess: Excess::Content,
        });
    }
    None
}

/// The token with which an entry's line has too much.
fn entry_over(setup: &Setup, words: &Words<'_>) -> Option<Over>
    requires { length (spell_declaration (declaration_of words.now)) < 2 ^ 32 }
    ensures { MatchOption result (IsTooMuch (first.declared setup.now) (declaration_of words.now) → ⊥)
        (λ over. IsExcess (first.declared setup.now) (declaration_of words.now) over.token over.excess) }
{
    match words {
        Words::Subject(subject) => subject_over(setup, subject),
        Words::Document(document) => document_over(setup, document),
        Words::Ranks(_, _) | Words::Categories(_) | Words::Allow(_) => None,
    }
}

/// The token with which a declaration has too much, behind what was declared before.
pub fn over_of(before: &Before, words: &Words<'_>) -> Option<Over>
    requires { length (spell_declaration (declaration_of words.now)) < 2 ^ 32 }
    ensures { (after : SoFar) → IsBefore after before.now → IsDue after (declaration_of words.now)
        → MatchOption result (IsTooMuch after (declaration_of words.now) → ⊥) (λ over. IsExcess after (declaration_of words.now) over.token over.excess) }
{
    match words {
        Words::Ranks(_, higher) if higher.len() >= MOST_RANKS => Some(Over {
            token: 17,
            excess: Excess::Names(Named::Rank),
        }),
        Words::Categories(names) if names.len() > MOST_CATEGORIES => Some(Over {
            token: 33,
            excess: Excess::Names(Named::Category),
        }),
        Words::Ranks(_, _) | Words::Categories(_) => None,
        _ => match before {
            Before::Declared(setup) => entry_over(setup, words),
            Before::Nothing | Before::Ranked => None,
        },
    }
}
