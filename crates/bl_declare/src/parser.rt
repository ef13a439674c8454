//! From the tokens of a line to its declaration, from left to right.
ghost use Rattle.std.specs.Prelude.{◌≡◌, ◌≢◌, ℕ, ◌∷◌, ◌++◌, [], List, Some, None, Bool, MatchResult, MatchOption, MatchBool, IfOk, IfErr};
ghost use Rattle.bl_level.specs.Token.{toks, reserved, name as name_token, sign as sign_token, text as text_token};
ghost use Rattle.bl_level.specs.LevelText.{LevelText};
ghost use Rattle.bl_name.specs.declared.token.Keyword.{Keyword};
ghost use Rattle.bl_policy.specs.declared.access.Mode.{Mode};
ghost use Rattle.bl_declare.specs.Reading as read;
ghost use Rattle.bl_declare.specs.Reading.{Onward};
ghost use Rattle.bl_declare.specs.Parsing.{left, IsNotAt, IsNoName, IsNoText, IsNoMode, BeginsWithMode};
ghost use Rattle.bl_declare.specs.Faults.{OfSyntax};
ghost use Rattle.bl_declare.specs.Words.{names_of, level_text, subject_text, document_text, allow_text, declaration_of};
ghost use Rattle.bl_declare.specs.Declaration as text;

use crate::declaration::{AllowWords, DocumentWords, LevelWords, SubjectWords, Words};
use crate::fault::SetupFaultKind;
use bl_level::token::{Keyword, Sign, Token};
use bl_policy::access::Mode;
use bl_work::modes::mode_of;
use std::alloc::Global;

/// The tokens that are left.
#[derive(Drop)]
struct Cursor<'t, 'a> {
    rest: &'t [Token<'a>],
}

impl<'t, 'a> Cursor<'t, 'a> {
    /// Takes a word where it is the next token.
    fn takes(&mut self, word: Keyword) -> bool
        ensures { MatchBool result (left self.old ≡ reserved word ∷ left self.new)
            ((left self.new ≡ left self.old) × IsNotAt (reserved word) (left self.old)) }
    {
        match self.rest {
            [Token::Reserved(found), rest @ ..] if *found == word => {
                self.rest = rest;
                true
            }
            _ => false,
        }
    }

    /// Takes a sign where it is the next token.
    fn takes_sign(&mut self, sign: Sign) -> bool
        ensures { MatchBool result (left self.old ≡ sign_token sign ∷ left self.new)
            ((left self.new ≡ left self.old) × IsNotAt (sign_token sign) (left self.old)) }
    {
        match self.rest {
            [Token::Sign(found), rest @ ..] if *found == sign => {
                self.rest = rest;
                true
            }
            _ => false,
        }
    }

    /// Takes a name where one is the next token.
    fn takes_name(&mut self) -> Option<&'a [u8]>
        ensures { MatchOption result ((left self.new ≡ left self.old) × IsNoName (left self.old))
            (λ n. left self.old ≡ name_token n.now ∷ left self.new) }
    {
        match self.rest {
            [Token::Name(name), rest @ ..] => {
                self.rest = rest;
                Some(name)
            }
            _ => None,
        }
    }

    /// Takes a letter where one is the next token.
    fn takes_mode(&mut self) -> Option<Mode>
        ensures { MatchOption result ((left self.new ≡ left self.old) × IsNoMode (left self.old))
            (λ m. BeginsWithMode (left self.old) m (left self.new)) }
    {
        match self.rest {
            [Token::Name(letter), rest @ ..] => {
                let mode = mode_of(letter)?;
                self.rest = rest;
                Some(mode)
            }
            _ => None,
        }
    }

    /// Takes a word.
    fn key(&mut self, word: Keyword) -> Result<(), SetupFaultKind>
        ensures { MatchResult result (λ _. left self.old ≡ reserved word ∷ left self.new)
            (λ e. OfSyntax e (IsNotAt (reserved word) (left self.old))) }
    {
        if self.takes(word) {
            Ok(())
        } else {
            Err(SetupFaultKind::Syntax)
        }
    }

    /// Takes a name.
    fn name(&mut self) -> Result<&'a [u8], SetupFaultKind>
        ensures { MatchResult result (λ n. left self.old ≡ name_token n.now ∷ left self.new)
            (λ e. OfSyntax e (IsNoName (left self.old))) }
    {
        match self.takes_name() {
            Some(name) => Ok(name),
            None => Err(SetupFaultKind::Syntax),
        }
    }

    /// Takes a text.
    fn text(&mut self) -> Result<&'a [u8], SetupFaultKind>
        ensures { MatchResult result (λ x. left self.old ≡ text_token x.now ∷ left self.new)
            (λ e. OfSyntax e (IsNoText (left self.old))) }
    {
        match self.rest {
            [Token::Text(text), rest @ ..] => {
                self.rest = rest;
                Ok(text)
            }
            _ => Err(SetupFaultKind::Syntax),
        }
    }

    /// Takes a letter.
    fn mode(&mut self) -> Result<Mode, SetupFaultKind>
        ensures { MatchResult result (λ m. BeginsWithMode (left self.old) m (left self.new))
            (λ e. OfSyntax e (IsNoMode (left self.old))) }
    {
        match self.takes_mode() {
            Some(mode) => Ok(mode),
            None => Err(SetupFaultKind::Syntax),
        }
    }

    /// Nothing is left.
    fn end(&mut self) -> Result<(), SetupFaultKind>
        ensures { MatchResult result (λ _. left self.old ≡ [])
            (λ e. OfSyntax e (left self.old ≢ [])) }
    {
        if self.rest.is_empty() {
            Ok(())
        } else {
            Err(SetupFaultKind::Syntax)
        }
    }

    /// Takes as many names as there are.
    fn names(&mut self, alloc: Global) -> Result<Vec<&'a [u8]>, SetupFaultKind>
        ensures { MatchResult result (λ ns. (next : List (List ℕ) → Onward) → read.names_then next (left self.old) ≡ next (names_of ns.items) (left self.new))
            (λ e. OfSyntax e ⊥) }
    {
        let mut names = Vec::new(alloc);
        while let Some(name) = self.takes_name() {
            names.push(name)?;
        }
        Ok(names)
    }

    /// Takes as many letters as there are.
    fn modes(&mut self, alloc: Global) -> Result<Vec<Mode>, SetupFaultKind>
        ensures { MatchResult result (λ ms. (next : List Mode → Onward) → read.modes_then next (left self.old) ≡ next ms.items (left self.new))
            (λ e. OfSyntax e ⊥) }
    {
        let mut modes = Vec::new(alloc);
        while let Some(mode) = self.takes_mode() {
            modes.push(mode)?;
        }
        Ok(modes)
    }

    /// Takes categories in braces, where there are any.
    fn categories(&mut self, alloc: Global) -> Result<Vec<&'a [u8]>, SetupFaultKind>
        ensures { MatchResult result (λ cs. (next : List (List ℕ) → Onward) → read.categories_then next (left self.old) ≡ next (names_of cs.items) (left self.new))
            (λ e. OfSyntax e ((next : List (List ℕ) → Onward) → read.categories_then next (left self.old) ≡ None)) }
    {
        let mut categories = Vec::new(alloc);
        if !self.takes_sign(Sign::Open) {
            return Ok(categories);
        }
        categories.push(self.name()?)?;
        while self.takes_sign(Sign::Comma) {
            categories.push(self.name()?)?;
        }
        if self.takes_sign(Sign::Close) {
            Ok(categories)
        } else {
            Err(SetupFaultKind::Syntax)
        }
    }

    /// Takes a level.
    fn level(&mut self, alloc: Global) -> Result<LevelWords<'a>, SetupFaultKind>
        ensures { MatchResult result (λ l. (next : LevelText → Onward) → read.level_then next (left self.old) ≡ next (level_text l) (left self.new))
            (λ e. OfSyntax e ((next : LevelText → Onward) → read.level_then next (left self.old) ≡ None)) }
    {
        let rank = self.name()?;
        let categories = self.categories(alloc)?;
        Ok(LevelWords { rank, categories })
    }

    /// A subject behind its first word.
    fn subject(&mut self, alloc: Global) -> Result<Words<'a>, SetupFaultKind>
        ensures { MatchResult result (λ w. read.subject_then (left self.old) ≡ Some (declaration_of w))
            (λ e. OfSyntax e (read.subject_then (left self.old) ≡ None)) }
    {
        let name = self.name()?;
        self.key(Keyword::Greatest)?;
        let greatest = self.level(alloc)?;
        self.key(Keyword::Current)?;
        let current = self.level(alloc)?;
        let trusted = self.takes(Keyword::Trusted);
        let admin = self.takes(Keyword::Admin);
        self.end()?;
        Ok(Words::Subject(SubjectWords {
            name,
            greatest,
            current,
            trusted,
            admin,
        }))
    }

    /// A document behind its first word.
    fn document(&mut self, alloc: Global) -> Result<Words<'a>, SetupFaultKind>
        ensures { MatchResult result (λ w. read.document_then (left self.old) ≡ Some (declaration_of w))
            (λ e. OfSyntax e (read.document_then (left self.old) ≡ None)) }
    {
        let name = self.name()?;
        let level = self.level(alloc)?;
        let content = self.text()?;
        self.end()?;
        Ok(Words::Document(DocumentWords {
            name,
            level,
            content: Some(content),
        }))
    }

    /// A document that is not present, behind its first word.
    fn reserve(&mut self, alloc: Global) -> Result<Words<'a>, SetupFaultKind>
        ensures { MatchResult result (λ w. read.reserve_then (left self.old) ≡ Some (declaration_of w))
            (λ e. OfSyntax e (read.reserve_then (left self.old) ≡ None)) }
    {
        let name = self.name()?;
        let level = self.level(alloc)?;
        self.end()?;
        Ok(Words::Document(DocumentWords {
            name,
            level,
            content: None,
        }))
    }

    /// Modes for a cell behind their first word.
    fn allow(&mut self, alloc: Global) -> Result<Words<'a>, SetupFaultKind>
        ensures { MatchResult result (λ w. read.allow_then (left self.old) ≡ Some (declaration_of w))
            (λ e. OfSyntax e (read.allow_then (left self.old) ≡ None)) }
    {
        let subject = self.name()?;
        let document = self.name()?;
        let mode = self.mode()?;
        let modes = self.modes(alloc)?;
        self.end()?;
        Ok(Words::Allow(AllowWords {
            subject,
            document,
            mode,
            modes,
        }))
    }

    /// Ranks behind their first word.
    fn ranks(&mut self, alloc: Global) -> Result<Words<'a>, SetupFaultKind>
        ensures { MatchResult result (λ w. read.ranks_then (left self.old) ≡ Some (declaration_of w))
            (λ e. OfSyntax e (read.ranks_then (left self.old) ≡ None)) }
    {
        let lowest = self.name()?;
        let higher = self.names(alloc)?;
        self.end()?;
        Ok(Words::Ranks(lowest, higher))
    }

    /// Categories behind their first word.
    fn categories_line(&mut self, alloc: Global) -> Result<Words<'a>, SetupFaultKind>
        ensures { MatchResult result (λ w. read.categories_line_then (left self.old) ≡ Some (declaration_of w))
            (λ e. OfSyntax e (read.categories_line_then (left self.old) ≡ None)) }
    {
        let names = self.names(alloc)?;
        self.end()?;
        Ok(Words::Categories(names))
    }

    /// Takes a reserved word, whichever it is.
    fn word(&mut self) -> Result<Keyword, SetupFaultKind>
        ensures { MatchResult result (λ k. left self.old ≡ reserved k ∷ left self.new)
            (λ e. OfSyntax e (read.declaration_at (left self.old) ≡ None)) }
    {
        match self.rest {
            [Token::Reserved(word), rest @ ..] => {
                self.rest = rest;
                Ok(*word)
            }
            _ => Err(SetupFaultKind::Syntax),
        }
    }

    /// A declaration.
    fn declaration(&mut self, alloc: Global) -> Result<Words<'a>, SetupFaultKind>
        ensures { MatchResult result (λ w. read.declaration_at (left self.old) ≡ Some (declaration_of w))
            (λ e. OfSyntax e (read.declaration_at (left self.old) ≡ None)) }
    {
        match self.word()? {
            Keyword::Ranks => self.ranks(alloc),
            Keyword::Categories => self.categories_line(alloc),
            Keyword::Subject => self.subject(alloc),
            Keyword::Document => self.document(alloc),
            Keyword::Reserve => self.reserve(alloc),
            Keyword::Allow => self.allow(alloc),
            _ => Err(SetupFaultKind::Syntax),
        }
    }
}

/// The declaration that the tokens spell.
pub fn parse<'a>(alloc: Global, tokens: &[Token<'a>]) -> Result<Words<'a>, SetupFaultKind>
    ensures { MatchResult result (λ w. read.declaration_at (toks tokens.now) ≡ Some (declaration_of w))
        (λ e. OfSyntax e (read.declaration_at (toks tokens.now) ≡ None)) }
{
    let mut cursor = Cursor { rest: tokens };
    cursor.declaration(alloc)
}
