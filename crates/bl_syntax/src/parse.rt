//! From bytes to a line, by recursive descent: a function for each part of the grammar. A token is cut from the bytes when
//! the one before it is taken, so that none is kept. It is looked at once, and once more where a part may be over.
ghost use Rattle.std.specs.Prelude.{◌≡◌, ◌<◌, ◌^◌, ◌∷◌, ◌++◌, [], map, MatchResult, MatchOption, MatchBool, length};
ghost use Rattle.bl_level.specs.Token.{reserved, name, text, sign};
ghost use Rattle.bl_name.specs.declared.token.Keyword.TheVariants.{When, To, If, Then};
ghost use Rattle.bl_name.specs.declared.token.Sign.TheVariants.{Comma};
ghost use Rattle.bl_level.specs.LevelText.{spell_level, spell_categories};
ghost use Rattle.bl_work.specs.Grammar.{spell};
ghost use Rattle.bl_work.specs.Fault.{ReadsAs};
ghost use Rattle.bl_syntax.specs.Tokens.{tokens_of, end_of};
ghost use Rattle.bl_work.specs.Spelled.{mode_word, asks_word, spell_access, spell_more, spell_body, spell_when};
ghost use Rattle.bl_syntax.specs.RawBodies.{raw_access};
ghost use Rattle.bl_syntax.specs.RawRules.{raw_level, raw_names};
ghost use Rattle.bl_work.specs.SpelledRules.{letter_of};
ghost use Rattle.bl_syntax.specs.RawView.{raw_view};
ghost use Rattle.bl_work.specs.Machine.{word, a_name, a_text, a_sign, a_mode, is_or_has, more_accesses, a_body, rest_of_if, a_letter, rest_of_level, a_line, access_due, if_due, when_due, cell_due, level_due};
ghost use Rattle.bl_syntax.specs.Parsing.{Gives, IsFirstFault, IsNotAt, BeginsNone, first_word, start_word, start_due, spell_statement, left, ending, LevelEnds, LineEnds};
ghost use Rattle.bl_syntax.specs.declared.stop.Stop.TheVariants.{At};

use crate::raw::{
    RawAccess, RawBody, RawIfElse, RawIfThen, RawLevel, RawLine, RawRight, RawRule, RawStatement,
    RawWhen,
};
use crate::stop::Stop;
use bl_level::lexer::{Front, next_token};
use bl_level::token::{Keyword, Sign, Token};
use bl_policy::access::Mode;
use bl_work::few::Few;
use bl_work::modes::mode_of;
use bl_work::script::Condition;
use std::alloc::Global;

/// The word that begins a line.
#[derive(Clone, Copy)]
enum First {
    Hello,
    Wait,
    When,
    Give,
    Rescind,
    Current,
    Classify,
    Create,
    Delete,
}

/// The word that begins a statement.
#[derive(Clone, Copy)]
enum Start {
    Show,
    Say,
    Add,
    Set,
    Copy,
    Pour,
    If,
    Spawn,
}

/// What an `if` asks of a document.
#[derive(Drop)]
struct Test<'a> {
    document: &'a [u8],
    test: Condition,
    text: &'a [u8],
}

/// How many tokens stand in bytes, up to the first lexical fault or the end.
fn count_of(bytes: &[u8]) -> usize
    ensures value { result ≡ length (tokens_of bytes.now) }
    // One more can be counted.
    ensures room { result < 2 ^ 63 }
{
    let mut count = 0;
    let mut rest = bytes;
    while let Front::Token(_, more) = next_token(rest) {
        count += 1;
        rest = more;
    }
    count
}

/// The tokens that are left: what stands at the front, with the bytes behind it.
#[derive(Drop)]
struct Cursor<'a> {
    front: Front<'a>,
}

impl<'a> Cursor<'a> {
    /// All the tokens of these bytes are left.
    #[inline(always)]
    fn new(bytes: &'a [u8]) -> Cursor<'a>
        ensures left { left result ≡ tokens_of bytes.now }
        ensures ending { ending result ≡ end_of bytes.now }
    {
        Cursor {
            front: next_token(bytes),
        }
    }

    /// Goes on to these bytes.
    fn advance(&mut self, more: &'a [u8])
        ensures left { left self.new ≡ tokens_of more.now }
        ensures ending { ending self.new ≡ end_of more.now }
    {
        *self = Cursor::new(more);
    }

    /// The token at the front is at fault.
    fn stop<X>(&self) -> Result<X, Stop>
        ensures { result ≡ Err (At (length (left self.now))) }
    {
        let left = match self.front {
            Front::Token(_, more) => 1 + count_of(more),
            Front::Nothing | Front::Broken(_) => 0,
        };
        Err(Stop::At(left))
    }

    #[inline(always)]
    fn key(&mut self, k: Keyword) -> Result<(), Stop>
        ensures gives { Gives (λ _. left self.old ≡ reserved k ∷ left self.new) (word k ∷ []) (left self.old) result }
        ensures ending { ending self.new ≡ ending self.old }
    {
        let front = self.front;
        match front {
            Front::Token(Token::Reserved(w), more) if w == k => {
                self.advance(more);
                Ok(())
            }
            _ => self.stop(),
        }
    }

    #[inline(always)]
    fn sign(&mut self, s: Sign) -> Result<(), Stop>
        ensures gives { Gives (λ _. left self.old ≡ sign s ∷ left self.new) (a_sign s ∷ []) (left self.old) result }
        ensures ending { ending self.new ≡ ending self.old }
    {
        let front = self.front;
        match front {
            Front::Token(Token::Sign(t), more) if t == s => {
                self.advance(more);
                Ok(())
            }
            _ => self.stop(),
        }
    }

    #[inline(always)]
    fn name(&mut self) -> Result<&'a [u8], Stop>
        ensures gives { Gives (λ n. left self.old ≡ name n.now ∷ left self.new) (a_name ∷ []) (left self.old) result }
        ensures ending { ending self.new ≡ ending self.old }
    {
        match self.front {
            Front::Token(Token::Name(n), more) => {
                self.advance(more);
                Ok(n)
            }
            _ => self.stop(),
        }
    }

    #[inline(always)]
    fn text(&mut self) -> Result<&'a [u8], Stop>
        ensures gives { Gives (λ x. left self.old ≡ text x.now ∷ left self.new) (a_text ∷ []) (left self.old) result }
        ensures ending { ending self.new ≡ ending self.old }
    {
        match self.front {
            Front::Token(Token::Text(x), more) => {
                self.advance(more);
                Ok(x)
            }
            _ => self.stop(),
        }
    }

    #[inline(always)]
    fn mode(&mut self) -> Result<Mode, Stop>
        ensures gives { Gives (λ m. left self.old ≡ reserved (mode_word m) ∷ left self.new) (a_mode ∷ []) (left self.old) result }
        ensures ending { ending self.new ≡ ending self.old }
    {
        let (mode, more) = match self.front {
            Front::Token(Token::Reserved(Keyword::Read), more) => (Mode::Read, more),
            Front::Token(Token::Reserved(Keyword::Append), more) => (Mode::Append, more),
            Front::Token(Token::Reserved(Keyword::Write), more) => (Mode::Write, more),
            _ => return self.stop(),
        };
        self.advance(more);
        Ok(mode)
    }

    /// `r`, `a` or `w`.
    fn letter(&mut self) -> Result<Mode, Stop>
        ensures gives { Gives (λ m. left self.old ≡ name (letter_of m) ∷ left self.new) (a_letter ∷ []) (left self.old) result }
        ensures ending { ending self.new ≡ ending self.old }
    {
        match self.front {
            Front::Token(Token::Name(letter), more) => match mode_of(letter) {
                Some(mode) => {
                    self.advance(more);
                    Ok(mode)
                }
                None => self.stop(),
            },
            _ => self.stop(),
        }
    }

    /// `is` or `has`.
    #[inline(always)]
    fn condition(&mut self) -> Result<Condition, Stop>
        ensures gives { Gives (λ c. left self.old ≡ reserved (asks_word c) ∷ left self.new) (is_or_has ∷ []) (left self.old) result }
        ensures ending { ending self.new ≡ ending self.old }
    {
        let (condition, more) = match self.front {
            Front::Token(Token::Reserved(Keyword::Is), more) => (Condition::Is, more),
            Front::Token(Token::Reserved(Keyword::Has), more) => (Condition::Has, more),
            _ => return self.stop(),
        };
        self.advance(more);
        Ok(condition)
    }

    /// Takes this word where it is the next token.
    #[inline(always)]
    fn takes(&mut self, k: Keyword) -> bool
        ensures gives { MatchBool result (left self.old ≡ reserved k ∷ left self.new)
            ((left self.new ≡ left self.old) × IsNotAt (reserved k) (left self.old)) }
        ensures ending { ending self.new ≡ ending self.old }
    {
        let front = self.front;
        match front {
            Front::Token(Token::Reserved(w), more) if w == k => {
                self.advance(more);
                true
            }
            _ => false,
        }
    }

    /// Takes this sign where it is the next token.
    #[inline(always)]
    fn takes_sign(&mut self, s: Sign) -> bool
        ensures gives { MatchBool result (left self.old ≡ sign s ∷ left self.new)
            ((left self.new ≡ left self.old) × IsNotAt (sign s) (left self.old)) }
        ensures ending { ending self.new ≡ ending self.old }
    {
        let front = self.front;
        match front {
            Front::Token(Token::Sign(found), more) if found == s => {
                self.advance(more);
                true
            }
            _ => false,
        }
    }

    /// Takes a comma where it is the next token.
    #[inline(always)]
    fn takes_comma(&mut self) -> bool
        ensures gives { MatchBool result (left self.old ≡ sign Comma ∷ left self.new)
            ((left self.new ≡ left self.old) × IsNotAt (sign Comma) (left self.old)) }
        ensures ending { ending self.new ≡ ending self.old }
    {
        self.takes_sign(Sign::Comma)
    }

    /// Takes the word that begins a statement, where one is the next token.
    #[inline(always)]
    fn start(&mut self) -> Option<Start>
        ensures gives { MatchOption result ((left self.new ≡ left self.old) × BeginsNone (left self.old))
            (λ s. left self.old ≡ reserved (start_word s) ∷ left self.new) }
        ensures ending { ending self.new ≡ ending self.old }
    {
        let (start, more) = match self.front {
            Front::Token(Token::Reserved(Keyword::Show), more) => (Start::Show, more),
            Front::Token(Token::Reserved(Keyword::Say), more) => (Start::Say, more),
            Front::Token(Token::Reserved(Keyword::Add), more) => (Start::Add, more),
            Front::Token(Token::Reserved(Keyword::Set), more) => (Start::Set, more),
            Front::Token(Token::Reserved(Keyword::Copy), more) => (Start::Copy, more),
            Front::Token(Token::Reserved(Keyword::Pour), more) => (Start::Pour, more),
            Front::Token(Token::Reserved(Keyword::If), more) => (Start::If, more),
            Front::Token(Token::Reserved(Keyword::Spawn), more) => (Start::Spawn, more),
            _ => return None,
        };
        self.advance(more);
        Some(start)
    }

    /// Takes the word that begins a line.
    fn first(&mut self) -> Result<First, Stop>
        ensures gives { Gives (λ f. left self.old ≡ reserved (first_word f) ∷ left self.new) (a_line ∷ []) (left self.old) result }
        ensures ending { ending self.new ≡ ending self.old }
    {
        let (first, more) = match self.front {
            Front::Token(Token::Reserved(Keyword::Hello), more) => (First::Hello, more),
            Front::Token(Token::Reserved(Keyword::Wait), more) => (First::Wait, more),
            Front::Token(Token::Reserved(Keyword::When), more) => (First::When, more),
            Front::Token(Token::Reserved(Keyword::Give), more) => (First::Give, more),
            Front::Token(Token::Reserved(Keyword::Rescind), more) => (First::Rescind, more),
            Front::Token(Token::Reserved(Keyword::Current), more) => (First::Current, more),
            Front::Token(Token::Reserved(Keyword::Classify), more) => (First::Classify, more),
            Front::Token(Token::Reserved(Keyword::Create), more) => (First::Create, more),
            Front::Token(Token::Reserved(Keyword::Delete), more) => (First::Delete, more),
            _ => return self.stop(),
        };
        self.advance(more);
        Ok(first)
    }

    #[inline(always)]
    fn access(&mut self) -> Result<RawAccess<'a>, Stop>
        ensures gives { Gives (λ a. left self.old ≡ spell_access (raw_access a) (left self.new)) (access_due []) (left self.old) result }
        ensures ending { ending self.new ≡ ending self.old }
    {
        let mode = self.mode()?;
        let document = self.name()?;
        Ok(RawAccess { mode, document })
    }

    /// Further accesses, each behind a comma, as many as there are.
    fn more_accesses(&mut self, alloc: Global) -> Result<Vec<RawAccess<'a>>, Stop>
        ensures gives { Gives (λ more. (left self.old ≡ spell_more (map raw_access more.items) (left self.new)) × IsNotAt (sign Comma) (left self.new))
            (more_accesses ∷ []) (left self.old) result }
        ensures ending { ending self.new ≡ ending self.old }
    {
        let mut accesses = Vec::new(alloc);
        while self.takes_comma() {
            let access = self.access()?;
            accesses.push(access)?;
        }
        Ok(accesses)
    }

    /// A document and a text.
    fn name_and_text(&mut self) -> Result<(&'a [u8], &'a [u8]), Stop>
        ensures gives { Gives (λ both. left self.old ≡ name both.0.now ∷ text both.1.now ∷ left self.new) (a_name ∷ a_text ∷ []) (left self.old) result }
        ensures ending { ending self.new ≡ ending self.old }
    {
        let document = self.name()?;
        let text = self.text()?;
        Ok((document, text))
    }

    /// A document, `to` and a document.
    fn from_and_to(&mut self) -> Result<(&'a [u8], &'a [u8]), Stop>
        ensures gives { Gives (λ both. left self.old ≡ name both.0.now ∷ reserved To ∷ name both.1.now ∷ left self.new)
            (a_name ∷ word To ∷ a_name ∷ []) (left self.old) result }
        ensures ending { ending self.new ≡ ending self.old }
    {
        let from = self.name()?;
        self.key(Keyword::To)?;
        let to = self.name()?;
        Ok((from, to))
    }

    /// An `if` behind its first word, up to its first body.
    fn test(&mut self) -> Result<Test<'a>, Stop>
        ensures gives { Gives (λ t. left self.old ≡ name t.document.now ∷ reserved (asks_word t.test) ∷ text t.text.now ∷ reserved Then ∷ left self.new)
            (if_due []) (left self.old) result }
        ensures ending { ending self.new ≡ ending self.old }
    {
        let document = self.name()?;
        let test = self.condition()?;
        let text = self.text()?;
        self.key(Keyword::Then)?;
        Ok(Test {
            document,
            test,
            text,
        })
    }

    /// A statement behind its first word, up to its semicolon.
    #[cycle(parser)]
    fn statement(&mut self, alloc: Global, start: Start) -> Result<RawStatement<'a>, Stop>
        ensures gives { Gives (λ s. reserved (start_word start) ∷ left self.old ≡ spell_statement s ++ left self.new)
            (start_due start) (left self.old) result }
        ensures ending { ending self.new ≡ ending self.old }
    {
        match start {
            Start::Show => Ok(RawStatement::Show(self.name()?)),
            Start::Say => Ok(RawStatement::Say(self.text()?)),
            Start::Add => {
                let (document, text) = self.name_and_text()?;
                Ok(RawStatement::Add { document, text })
            }
            Start::Set => {
                let (document, text) = self.name_and_text()?;
                Ok(RawStatement::Set { document, text })
            }
            Start::Copy => {
                let (from, to) = self.from_and_to()?;
                Ok(RawStatement::Copy { from, to })
            }
            Start::Pour => {
                let (from, to) = self.from_and_to()?;
                Ok(RawStatement::Pour { from, to })
            }
            Start::If => self.choice(alloc),
            Start::Spawn => {
                self.key(Keyword::When)?;
                let when = self.when(alloc)?;
                Ok(RawStatement::Spawn(Box::new(alloc, when)?))
            }
        }
    }

    /// An `if` behind its first word.
    #[cycle(parser)]
    fn choice(&mut self, alloc: Global) -> Result<RawStatement<'a>, Stop>
        ensures gives { Gives (λ s. reserved If ∷ left self.old ≡ spell_statement s ++ left self.new)
            (if_due (a_body ∷ rest_of_if ∷ [])) (left self.old) result }
        ensures ending { ending self.new ≡ ending self.old }
    {
        let Test {
            document,
            test,
            text,
        } = self.test()?;
        let then_body = self.body(alloc)?;
        if self.takes(Keyword::Else) {
            let else_body = self.body(alloc)?;
            self.key(Keyword::End)?;
            let choice = RawIfElse {
                document,
                test,
                text,
                then_body,
                else_body,
            };
            Ok(RawStatement::IfElse(Box::new(alloc, choice)?))
        } else {
            self.key(Keyword::End)?;
            let choice = RawIfThen {
                document,
                test,
                text,
                then_body,
            };
            Ok(RawStatement::IfThen(Box::new(alloc, choice)?))
        }
    }

    /// A behaviour behind its `when`.
    #[cycle(parser)]
    fn when(&mut self, alloc: Global) -> Result<RawWhen<'a>, Stop>
        ensures gives { Gives (λ w. reserved When ∷ left self.old ≡ spell_when (raw_access w.first) (map raw_access w.more.items) w.body ++ left self.new)
            (when_due []) (left self.old) result }
        ensures ending { ending self.new ≡ ending self.old }
    {
        let first = self.access()?;
        let more = self.more_accesses(alloc)?;
        self.key(Keyword::Do)?;
        let body = self.body(alloc)?;
        self.key(Keyword::End)?;
        Ok(RawWhen { first, more, body })
    }

    /// Statements, as many as there are.
    #[cycle(parser)]
    fn body(&mut self, alloc: Global) -> Result<RawBody<'a>, Stop>
        ensures gives { Gives (λ b. (left self.old ≡ spell_body b ++ left self.new) × BeginsNone (left self.new)) (a_body ∷ []) (left self.old) result }
        ensures ending { ending self.new ≡ ending self.old }
    {
        let mut statements = Few::Nothing;
        while let Some(start) = self.start() {
            let statement = self.statement(alloc, start)?;
            self.sign(Sign::Semicolon)?;
            statements.push(alloc, statement)?;
        }
        Ok(RawBody::new(statements))
    }

    /// A subject, a document and a letter.
    fn right(&mut self) -> Result<RawRight<'a>, Stop>
        ensures gives { Gives (λ r. left self.old ≡ name r.subject.now ∷ name r.document.now ∷ name (letter_of r.mode) ∷ left self.new)
            (cell_due []) (left self.old) result }
        ensures ending { ending self.new ≡ ending self.old }
    {
        let subject = self.name()?;
        let document = self.name()?;
        let mode = self.letter()?;
        Ok(RawRight {
            subject,
            document,
            mode,
        })
    }

    /// Categories in braces, where there are any.
    fn categories(&mut self, alloc: Global) -> Result<Vec<&'a [u8]>, Stop>
        ensures gives { Gives (λ cs. (left self.old ≡ spell_categories (raw_names cs.items) ++ left self.new) × LevelEnds (raw_names cs.items) (left self.new))
            (rest_of_level ∷ []) (left self.old) result }
        ensures ending { ending self.new ≡ ending self.old }
    {
        let mut categories = Vec::new(alloc);
        if !self.takes_sign(Sign::Open) {
            return Ok(categories);
        }
        categories.push(self.name()?)?;
        while self.takes_sign(Sign::Comma) {
            categories.push(self.name()?)?;
        }
        self.sign(Sign::Close)?;
        Ok(categories)
    }

    /// A level.
    fn level(&mut self, alloc: Global) -> Result<RawLevel<'a>, Stop>
        ensures gives { Gives (λ l. (left self.old ≡ spell_level (raw_level l) ++ left self.new) × LevelEnds (raw_names l.categories.items) (left self.new))
            (level_due []) (left self.old) result }
        ensures ending { ending self.new ≡ ending self.old }
    {
        let rank = self.name()?;
        let categories = self.categories(alloc)?;
        Ok(RawLevel { rank, categories })
    }

    /// A line.
    fn line(&mut self, alloc: Global) -> Result<RawLine<'a>, Stop>
        ensures gives { Gives (λ l. (left self.old ≡ spell (raw_view l) ++ left self.new) × LineEnds (raw_view l) (left self.new)) (a_line ∷ []) (left self.old) result }
        ensures ending { ending self.new ≡ ending self.old }
    {
        match self.first()? {
            First::Hello => Ok(RawLine::Hello(self.name()?)),
            First::Wait => Ok(RawLine::Wait),
            First::When => Ok(RawLine::When(self.when(alloc)?)),
            First::Give => Ok(RawLine::Rule(RawRule::Give(self.right()?))),
            First::Rescind => Ok(RawLine::Rule(RawRule::Rescind(self.right()?))),
            First::Current => Ok(RawLine::Rule(RawRule::Current(self.level(alloc)?))),
            First::Classify => {
                let document = self.name()?;
                let level = self.level(alloc)?;
                Ok(RawLine::Rule(RawRule::Classify { document, level }))
            }
            First::Create => Ok(RawLine::Rule(RawRule::Create(self.name()?))),
            First::Delete => Ok(RawLine::Rule(RawRule::Delete(self.name()?))),
        }
    }
}

/// The line that the bytes spell, with nothing behind it; or else the first fault from the left.
pub fn parse_line<'a>(alloc: Global, bytes: &'a [u8]) -> Result<RawLine<'a>, Stop>
    ensures { MatchResult result (λ l. ReadsAs bytes.now (raw_view l)) (λ e. IsFirstFault bytes.now e) }
{
    let mut cursor = Cursor::new(bytes);
    let line = cursor.line(alloc)?;
    match cursor.front {
        Front::Nothing => Ok(line),
        Front::Broken(from) => Err(Stop::Broken(bytes.len() - from.len())),
        Front::Token(_, _) => cursor.stop(),
    }
}
