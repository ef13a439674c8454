//! The items that a declaration is made of behind its first word, and which tokens they take.
ghost use Rattle.std.specs.Prelude.{◌≡◌};
ghost use Rattle.bl_level.specs.Token.{tok};
ghost use Rattle.bl_due.specs.Due as kinds;
ghost use Rattle.bl_due.specs.Items as items;

use crate::due::{Due, Section};
use bl_level::token::{Keyword, Sign, Token};
use bl_work::modes::mode_of;

/// An item of a declaration.
#[derive(Clone, Copy)]
pub enum Item {
    /// This word.
    Word(Keyword),
    /// This word, or nothing.
    MaybeWord(Keyword),
    /// A name.
    Name,
    /// Any number of names, up to the line's end.
    Names,
    /// The letter of a mode.
    Letter,
    /// Any number of letters, up to the line's end.
    Letters,
    /// A text.
    Text,
    /// Categories in braces, or nothing.
    Categories,
    /// A category, with what is behind it up to the closing brace.
    Category,
    /// A comma and a further category, or the closing brace.
    More,
}

/// How an item takes a token.
#[derive(Clone, Copy)]
pub enum Fit {
    /// It does not: the token may not stand there.
    Never,
    /// It is left out: the token is for the next item.
    LeftOut,
    /// The token is the item's last.
    Ends,
    /// The token is the item's, and this is due behind it.
    Becomes(Item),
}

/// Whether the token is this word.
fn is_word(word: Keyword, token: &Token<'_>) -> bool
    ensures { result ≡ kinds.is_word word (tok token.now) }
{
    match token {
        Token::Reserved(found) => *found == word,
        _ => false,
    }
}

/// Whether the token is a name.
fn is_name(token: &Token<'_>) -> bool
    ensures { result ≡ kinds.is_name (tok token.now) }
{
    match token {
        Token::Name(_) => true,
        _ => false,
    }
}

/// Whether the token is the letter of a mode.
fn is_letter(token: &Token<'_>) -> bool
    ensures { result ≡ kinds.is_letter (tok token.now) }
{
    match token {
        Token::Name(letter) => mode_of(letter).is_some(),
        _ => false,
    }
}

/// Whether the token is a text.
fn is_text(token: &Token<'_>) -> bool
    ensures { result ≡ kinds.is_text (tok token.now) }
{
    match token {
        Token::Text(_) => true,
        _ => false,
    }
}

/// Whether the token is this sign.
fn is_sign(sign: Sign, token: &Token<'_>) -> bool
    ensures { result ≡ kinds.is_sign sign (tok token.now) }
{
    match token {
        Token::Sign(found) => *found == sign,
        _ => false,
    }
}

/// The one fit where the test holds, or else the other.
fn choose(test: bool, one: Fit, other: Fit) -> Fit
    ensures { result ≡ items.choose test one other }
{
    if test { one } else { other }
}

/// How a comma and a further category, or the closing brace, take a token.
fn fit_more(token: &Token<'_>) -> Fit
    ensures { result ≡ items.fit_more (tok token.now) }
{
    let closes = choose(is_sign(Sign::Close, token), Fit::Ends, Fit::Never);
    choose(
        is_sign(Sign::Comma, token),
        Fit::Becomes(Item::Category),
        closes,
    )
}

impl Item {
    /// How the item takes a token.
    pub fn fit(self, token: &Token<'_>) -> Fit
        ensures { result ≡ items.fit self (tok token.now) }
    {
        match self {
            Item::Word(word) => choose(is_word(word, token), Fit::Ends, Fit::Never),
            Item::MaybeWord(word) => choose(is_word(word, token), Fit::Ends, Fit::LeftOut),
            Item::Name => choose(is_name(token), Fit::Ends, Fit::Never),
            Item::Names => choose(is_name(token), Fit::Becomes(Item::Names), Fit::Never),
            Item::Letter => choose(is_letter(token), Fit::Ends, Fit::Never),
            Item::Letters => choose(is_letter(token), Fit::Becomes(Item::Letters), Fit::Never),
            Item::Text => choose(is_text(token), Fit::Ends, Fit::Never),
            Item::Categories => choose(
                is_sign(Sign::Open, token),
                Fit::Becomes(Item::Category),
                Fit::LeftOut,
            ),
            Item::Category => choose(is_name(token), Fit::Becomes(Item::More), Fit::Never),
            Item::More => fit_more(token),
        }
    }

    /// Whether the item may be left out.
    pub fn may_be_left(self) -> bool
        ensures { result ≡ items.may_be_left self }
    {
        matches!(self, Item::MaybeWord(_) | Item::Categories)
    }

    /// Whether the line may end within the item.
    pub fn runs_on(self) -> bool
        ensures { result ≡ items.runs_on self }
    {
        matches!(self, Item::Names | Item::Letters)
    }

    /// What the item begins with.
    pub fn due(self) -> Due
        ensures { result ≡ items.first_due self }
    {
        match self {
            Item::Word(word) | Item::MaybeWord(word) => Due::Word(word),
            Item::Name | Item::Names | Item::Category => Due::Name,
            Item::Letter | Item::Letters => Due::Letter,
            Item::Text => Due::Text,
            Item::Categories => Due::Sign(Sign::Open),
            Item::More => Due::Sign(Sign::Comma),
        }
    }

    /// What else may stand in its place, apart from the next item.
    pub fn further_due(self) -> Option<Due>
        ensures { result ≡ items.further_due self }
    {
        match self {
            Item::Names | Item::Letters => Some(Due::End),
            Item::More => Some(Due::Sign(Sign::Close)),
            _ => None,
        }
    }
}

const RANKS: &[Item] = &[Item::Name, Item::Names];

const CATEGORIES: &[Item] = &[Item::Names];

const SUBJECT: &[Item] = &[
    Item::Name,
    Item::Word(Keyword::Greatest),
    Item::Name,
    Item::Categories,
    Item::Word(Keyword::Current),
    Item::Name,
    Item::Categories,
    Item::MaybeWord(Keyword::Trusted),
    Item::MaybeWord(Keyword::Admin),
];

const DOCUMENT: &[Item] = &[Item::Name, Item::Name, Item::Categories, Item::Text];

const RESERVE: &[Item] = &[Item::Name, Item::Name, Item::Categories];

const ALLOW: &[Item] = &[Item::Name, Item::Name, Item::Letter, Item::Letters];

/// The items of an entry behind its first word.
fn entry_behind(word: Keyword) -> Option<&'static [Item]>
    ensures { items.form result ≡ items.entry_behind word }
{
    match word {
        Keyword::Subject => Some(SUBJECT),
        Keyword::Document => Some(DOCUMENT),
        Keyword::Reserve => Some(RESERVE),
        Keyword::Allow => Some(ALLOW),
        _ => None,
    }
}

/// The items of a declaration behind its first word, where one with this word is due in the section.
pub fn items_behind(section: Section, word: Keyword) -> Option<&'static [Item]>
    ensures { items.form result ≡ items.items_behind section word }
{
    match section {
        Section::Ranks => match word {
            Keyword::Ranks => Some(RANKS),
            _ => None,
        },
        Section::Categories => match word {
            Keyword::Categories => Some(CATEGORIES),
            _ => None,
        },
        Section::Entries => entry_behind(word),
    }
}
