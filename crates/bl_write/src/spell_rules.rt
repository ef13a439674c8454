//! The tokens of a rule, put one after the other: its names, its letter, and its level with the categories in the
//! scheme's order.
ghost use Rattle.std.specs.Prelude.{◌≡◌, ◌<◌, if◌then◌else◌, [], ◌∷◌, fold, length, OnOk};
ghost use Rattle.bl_name.specs.declared.token.Sign.TheVariants.{Comma, Open};
ghost use Rattle.bl_level.specs.LevelText.{held_names, spell_level, spell_categories, text_of};
ghost use Rattle.bl_level.specs.Scheme.{HoldsLevel};
ghost use Rattle.bl_level.specs.Token.{reserved, name};
ghost use Rattle.bl_work.specs.SpelledRules as spelled;
ghost use Rattle.bl_write.specs.There.{IsRuleThere};
ghost use Rattle.bl_write.specs.Unread.{name_at, subject_at, unread_rule};

use crate::sink::{Sink, put_all};
use crate::spell::name_of;
use bl_level::level::Level;
use bl_level::scheme::Scheme;
use bl_level::token::{Keyword, Sign, Token};
use bl_policy::access::Mode;
use bl_policy::id::{DocId, SubjectId};
use bl_policy::rule::Rule;
use bl_work::modes::letter_of;
use bl_work::names::Names;

/// Puts a rule that gives or rescinds a mode, by its word.
fn put_right<S: Sink>(
    sink: &mut S,
    names: &Names,
    word: Keyword,
    subject: SubjectId,
    doc: DocId,
    mode: Mode,
) -> Result<(), S::Refusal>
    requires subject { subject < length names.now.subjects }
    requires document { doc < length names.now.documents }
    ensures { OnOk result (sink.new ≡ fold S.taken sink.old
        (reserved word ∷ name (subject_at names.now subject) ∷ name (name_at names.now doc)
        ∷ name (spelled.letter_of mode) ∷ [])) }
{
    let whose = Token::Name(names.subject_name(subject).bytes());
    let document = Token::Name(name_of(names, doc));
    let letter = Token::Name(letter_of(mode));
    put_all(sink, &[Token::Reserved(word), whose, document, letter])
}

/// The sign before a category: a comma after another one, or else the opening brace.
fn sign_before(opened: bool) -> Sign
    ensures { result ≡ if opened then Comma else Open }
{
    if opened { Sign::Comma } else { Sign::Open }
}

/// Puts the categories of a level in braces, in the scheme's order, and nothing where it has none.
fn put_categories<S: Sink>(sink: &mut S, scheme: &Scheme, level: &Level) -> Result<(), S::Refusal>
    ensures { OnOk result (sink.new ≡ fold S.taken sink.old
        (spell_categories (held_names level.now 0 scheme.now.categories))) }
{
    let categories = scheme.categories();
    let mut opened = false;
    for place in 0..categories.len() {
        if level.has_category(place as u32) {
            let sign = Token::Sign(sign_before(opened));
            let category = categories.get(place).unwrap();
            put_all(sink, &[sign, Token::Name(category.bytes())])?;
            opened = true;
        }
    }
    if opened {
        sink.put(Token::Sign(Sign::Close))?;
    }
    Ok(())
}

/// Puts a level that the scheme holds: its rank, and behind it in braces its categories in the scheme's order, or no
/// braces where it has none. It ends at the first refusal; what was taken before stays taken.
pub fn put_level<S: Sink>(sink: &mut S, scheme: &Scheme, level: &Level) -> Result<(), S::Refusal>
    requires { HoldsLevel scheme.now level.now }
    ensures { OnOk result (sink.new ≡ fold S.taken sink.old (spell_level (text_of scheme.now level.now))) }
{
    let rank = scheme.ranks().get(usize::from(level.rank())).unwrap();
    sink.put(Token::Name(rank.bytes()))?;
    put_categories(sink, scheme, level)
}

/// Puts a rule whose names are there.
pub(crate) fn put_rule<S: Sink>(sink: &mut S, names: &Names, rule: Rule) -> Result<(), S::Refusal>
    requires { IsRuleThere names.now rule }
    ensures { OnOk result (sink.new ≡ fold S.taken sink.old (spelled.spell_rule (unread_rule names.now rule))) }
{
    match rule {
        Rule::Give { subject, doc, mode } => {
            put_right(sink, names, Keyword::Give, subject, doc, mode)
        }
        Rule::Rescind { subject, doc, mode } => {
            put_right(sink, names, Keyword::Rescind, subject, doc, mode)
        }
        Rule::Current { level } => {
            sink.put(Token::Reserved(Keyword::Current))?;
            put_level(sink, names.scheme(), &level)
        }
        Rule::Classify { doc, level } => {
            let document = Token::Name(name_of(names, doc));
            put_all(sink, &[Token::Reserved(Keyword::Classify), document])?;
            put_level(sink, names.scheme(), &level)
        }
        Rule::Create { doc } => {
            let document = Token::Name(name_of(names, doc));
            put_all(sink, &[Token::Reserved(Keyword::Create), document])
        }
        Rule::Delete { doc } => {
            let document = Token::Name(name_of(names, doc));
            put_all(sink, &[Token::Reserved(Keyword::Delete), document])
        }
    }
}
