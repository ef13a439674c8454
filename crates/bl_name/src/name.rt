//! A name: a word of 1 to 32 bytes that is not reserved.
ghost use Rattle.std.specs.Prelude.{◌≡◌, ℕ, ◌↔◌, IsTrue, IsSome, IfSome, List, length, ◌≤◌};
ghost use Rattle.std.specs.List.{list_all, fold};
ghost use Rattle.std.specs.Hash as fed;
ghost use Rattle.std.specs.Hash.{same_Alike};
ghost use Rattle.std.specs.Cmp.Lexicographic.{bytes_decides, nat_list_eq_equiv};
ghost use Rattle.std.specs.Str.{bytes_eq};
ghost use Rattle.std.specs.Cmp.Rules.{hashing};
ghost use Rattle.std.proofs.Common.{ap, rules};
ghost use Rattle.bl_name.specs.Lexing.{is_word_byte};
ghost use Rattle.bl_name.specs.Name.{IsName, IsWord, begins_with_letter};

use crate::lexer::{Class, is_in, keyword_of};
use arrayvec::ArrayVec;
use indexmap::Equivalent;
use std::hash::{Hash, Hasher};
use std::marker::Model;

/// A name, which contracts see as its bytes.
#[derive(PartialEq, Eq, Debug, Drop)]
pub struct Name {
    bytes: ArrayVec<u8, 32>,
}

impl Model for Name {
    ghost Value = { List ℕ };

    ghost view = { λ n. n.bytes.items };

    ghost invariant = { λ n. IsName n.bytes.items };

    ghost inverse = { λ bs. record { bytes = record { items = bs } } };
}

impl Name {
    /// The name of these bytes. None exactly where they are no word of 1 to 32 bytes, or a reserved one.
    pub fn new(bytes: &[u8]) -> Option<Name>
        ensures some { IsSome result ↔ IsName bytes.now }
        ensures value { IfSome result (λ name. name ≡ bytes.now) }
    {
        if !is_word(bytes) {
            return None;
        }
        match keyword_of(bytes) {
            Some(_) => None,
            None => Some(Name { bytes: kept(bytes) }),
        }
    }

    /// The bytes of the name.
    pub fn bytes(&self) -> &[u8]
        ensures value { result.now ≡ self.now }
        ensures name { IsName self.now }
    {
        self.bytes.as_slice()
    }

    /// The same name again. It takes no memory.
    pub fn copy(&self) -> Name
        ensures { result ≡ self.now }
    {
        Name {
            bytes: kept(self.bytes.as_slice()),
        }
    }
}

/// What a name's bytes feed a hasher: one write, in place of one for each byte.
fn feed<H: Hasher>(bytes: &[u8], state: &mut H)
    ensures { state.new ≡ fold H.write state.old (fed.str bytes.now) }
{
    state.write(bytes);
    state.write_u8(0xff);
}

impl Hash for Name {
    ghost hash_input = { fed.str };

    ghost respects_eq = { (same_Alike fed.str bytes_decides).fed };

    fn hash<H: Hasher>(&self, state: &mut H) {
        feed(self.bytes(), state);
    }
}

/// Bytes that a name is looked up by, whether they are a name or not.
#[derive(Clone, Copy, PartialEq, Eq)]
pub(crate) struct Spelled<'a> {
    pub(crate) bytes: &'a [u8],
}

impl<'a> Hash for Spelled<'a> {
    ghost hash_input = { λ s. fed.str s.bytes.now };

    ghost respects_eq = { Prim.search (hashing, rules) };

    fn hash<H: Hasher>(&self, state: &mut H) {
        feed(self.bytes, state);
    }
}

impl<'a> Equivalent<Name> for Spelled<'a> {
    ghost equivalent = { λ s name. bytes_eq s.bytes.now name };

    ghost respects_hash = { λ s name h. ap fed.str ((bytes_decides s.bytes.now name).0 h) };

    ghost respects_eq = { λ s a b. nat_list_eq_equiv.congr s.bytes.now a b };

    fn equivalent(&self, key: &Name) -> bool {
        self.bytes == key.bytes()
    }
}

/// Whether the bytes begin with a letter.
fn begins_with_letter(bytes: &[u8]) -> bool
    ensures { result ≡ begins_with_letter bytes.now }
{
    match bytes {
        [] => false,
        [first, _rest @ ..] => first.is_ascii_lowercase(),
    }
}

/// Whether each byte may stand in a word.
fn are_word_bytes(bytes: &[u8]) -> bool
    ensures { result ≡ list_all is_word_byte bytes.now }
{
    bytes.iter().all(|byte| is_in(Class::Word, *byte))
}

/// Whether the bytes are a word, reserved or not.
fn is_word(bytes: &[u8]) -> bool
    ensures { IsTrue result ↔ IsWord bytes.now }
{
    if !begins_with_letter(bytes) {
        return false;
    }
    if bytes.len() > 32 {
        return false;
    }
    are_word_bytes(bytes)
}

/// At most 32 bytes, in an array.
fn kept(bytes: &[u8]) -> ArrayVec<u8, 32>
    requires { length bytes.now ≤ 32 }
    ensures { result.items ≡ bytes.now }
{
    let mut kept = ArrayVec::new();
    kept.try_extend_from_slice(bytes).unwrap();
    kept
}
