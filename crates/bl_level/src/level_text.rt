//! The text of a level, both ways: `secret` or `secret{nato,crypto}`.
ghost use Rattle.std.specs.Prelude.{◌≡◌, ◌↔◌, ℕ, List, [], ◌∷◌, ◌++◌, map, if◌then◌else◌, false, IsTrue, OnOk, IfOk, IfSome, IfNone, Ok, Err, Result};
ghost use Rattle.bl_name.specs.Lexing.{past_blanks};
ghost use Rattle.bl_name.specs.Token.{name as name_token, sign as sign_token};
ghost use Rattle.bl_level.specs.Scheme.{HoldsLevel};
ghost use Rattle.bl_level.specs.LevelText.{LevelText, ReadsAsLevel, canonical_level, held_names};
ghost use Rattle.bl_level.specs.LevelFault.{Reads, IsReadBack};
ghost use Rattle.bl_level.specs.LevelFronts.{StandsFirst, Closes, with_name, ReadsOn, tail_of};

use crate::level::Level;
use crate::scheme::{LevelFault, Scheme};
use bl_name::lexer::{Front, next_token};
use bl_name::name::Name;
use bl_name::token::{Sign, Token};
use std::alloc::AllocError;

/// The name at the front, and what is behind it.
fn name_at<'a>(bytes: &'a [u8]) -> Option<(&'a [u8], &'a [u8])>
    ensures some { IfSome result (λ found. StandsFirst bytes.now (name_token found.0.now) found.1.now) }
    ensures none { IfNone result ((word rest : List ℕ) → StandsFirst bytes.now (name_token word) rest → ⊥) }
{
    match next_token(bytes) {
        Front::Token(Token::Name(word), behind) => Some((word, behind)),
        _ => None,
    }
}

/// What is behind the sign, where it stands at the front.
fn after_sign<'a>(bytes: &'a [u8], sign: Sign) -> Option<&'a [u8]>
    ensures some { IfSome result (λ rest. StandsFirst bytes.now (sign_token sign) rest.now) }
    ensures none { IfNone result ((rest : List ℕ) → StandsFirst bytes.now (sign_token sign) rest → ⊥) }
{
    match next_token(bytes) {
        Front::Token(Token::Sign(found), behind) => {
            if found == sign { Some(behind) } else { None }
        }
        _ => None,
    }
}

/// Whether nothing but blanks is left.
fn is_at_end(bytes: &[u8]) -> bool
    ensures { IsTrue result ↔ ([] ≡ past_blanks bytes.now) }
{
    match next_token(bytes) {
        Front::Nothing => true,
        _ => false,
    }
}

/// Whether the closing brace stands at the front, and nothing but blanks behind it.
fn closes(bytes: &[u8]) -> bool
    ensures { IsTrue result ↔ Closes bytes.now }
{
    match after_sign(bytes, Sign::Close) {
        Some(rest) => is_at_end(rest),
        None => false,
    }
}

impl Scheme {
    /// What was read of a level, and one more category.
    fn with_category(
        &self,
        so_far: Result<Level, LevelFault>,
        category: &[u8],
    ) -> Result<Level, LevelFault>
        ensures { (text : LevelText) → Reads self.now text so_far → Reads self.now (with_name text category.now) result }
    {
        let level = match so_far {
            Ok(level) => level,
            Err(fault) => return Err(fault),
        };
        match self.categories().position_of(category) {
            None => Err(LevelFault::UnknownCategory),
            Some(place) => {
                let k = place as u32;
                if level.has_category(k) {
                    return Err(LevelFault::RepeatedCategory);
                }
                Ok(level.with_category(k))
            }
        }
    }

    /// The level of this rank without a category.
    fn ranked(&self, rank: &[u8]) -> Result<Level, LevelFault>
        ensures { Reads self.now (record { rank = rank.now; categories = [] }) result }
    {
        match self.ranks().position_of(rank) {
            None => Err(LevelFault::UnknownRank),
            Some(place) => Ok(Level::new(place as u8, 0).unwrap()),
        }
    }

    /// The level of a rank and categories that were read, or the first fault: `UnknownRank`, and then for the first
    /// category at fault from the left `UnknownCategory` or `RepeatedCategory`. It takes no memory.
    pub fn level(&self, rank: &[u8], categories: &[&[u8]]) -> Result<Level, LevelFault>
        ensures { Reads self.now (record { rank = rank.now; categories = map (λ c. c.now) categories.now }) result }
    {
        let mut so_far = self.ranked(rank);
        for category in categories {
            so_far = self.with_category(so_far, category);
        }
        so_far
    }

    /// The categories that the bytes list up to the closing brace, behind what was read so far.
    fn read_categories(
        &self,
        so_far: Result<Level, LevelFault>,
        bytes: &[u8],
    ) -> Result<Level, LevelFault>
        ensures { ReadsOn self.now so_far bytes.now result }
    {
        let mut so_far = so_far;
        let mut rest = bytes;
        'categories: loop {
            let Some((category, behind)) = name_at(rest) else {
                return Err(LevelFault::Syntax);
            };
            so_far = self.with_category(so_far, category);
            match after_sign(behind, Sign::Comma) {
                Some(more) => rest = more,
                None => {
                    if closes(behind) {
                        return so_far;
                    }
                    return Err(LevelFault::Syntax);
                }
            }
        }
    }

    /// The level that the bytes mean. Where they are not spelled as a level the answer is `Syntax`; otherwise the first
    /// fault, as of `level`. It takes no memory.
    pub fn read_level(&self, bytes: &[u8]) -> Result<Level, LevelFault>
        ensures reads { (text : LevelText) → ReadsAsLevel bytes.now text → Reads self.now text result }
        ensures syntax { ((text : LevelText) → ReadsAsLevel bytes.now text → ⊥) → result ≡ Err LevelFault.Syntax }
    {
        let Some((rank, behind)) = name_at(bytes) else {
            return Err(LevelFault::Syntax);
        };
        let so_far = self.ranked(rank);
        if is_at_end(behind) {
            return so_far;
        }
        match after_sign(behind, Sign::Open) {
            Some(categories) => self.read_categories(so_far, categories),
            None => Err(LevelFault::Syntax),
        }
    }

    /// The canonical text of a level that the scheme holds: no blank, the categories in the scheme's order, and no
    /// braces where there is none.
    pub fn write_level(&self, level: &Level) -> Result<Vec<u8>, AllocError>
        requires { HoldsLevel self.now level.now }
        ensures text { IfOk result (λ text. text.items ≡ canonical_level self.now level.now) }
        ensures again { IfOk result (λ text. IsReadBack self.now level.now text.items) }
    {
        let mut text = Vec::new(self.ranks().allocator());
        let rank = self.ranks().get(usize::from(level.rank())).unwrap();
        text.extend_from_slice(rank.bytes())?;
        self.write_categories(level, &mut text)?;
        Ok(text)
    }

    /// Writes the categories of a level behind its rank.
    fn write_categories(&self, level: &Level, text: &mut Vec<u8>) -> Result<(), AllocError>
        ensures { OnOk result (text.new.items ≡ text.old.items ++ tail_of false (held_names level.now 0 self.now.categories)) }
    {
        let categories = self.categories();
        let mut opened = false;
        for place in 0..categories.len() {
            if level.has_category(place as u32) {
                write_category(text, opened, categories.get(place).unwrap())?;
                opened = true;
            }
        }
        if opened {
            text.push(b'}')?;
        }
        Ok(())
    }
}

/// Writes a category behind the opening brace, or behind a comma where one was opened.
fn write_category(text: &mut Vec<u8>, opened: bool, category: &Name) -> Result<(), AllocError>
    ensures { OnOk result (text.new.items ≡ text.old.items ++ ((if opened then 44 else 123) ∷ category.now)) }
{
    text.push(if opened { b',' } else { b'{' })?;
    text.extend_from_slice(category.bytes())
}
