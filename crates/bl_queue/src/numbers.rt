//! A set of numbers as rows of bits: one bit for each number, one for each 64 of these bits, and one for each 64 of those. From any
//! number on the next member is found by a look at five words at most.
ghost use Rattle.std.specs.Prelude.{◌≡◌, ◌≢◌, ℕ, ◌+◌, ◌/◌, ◌<◌, ◌≤◌, ◌^◌, length, replicate, IfOk, MatchBool};
ghost use Rattle.bl_queue.specs.Numbers.{mark, most_numbers, IsFirst, IsFirstInWord, IsOver, IsMarked, IsUnmarked, IsWordEmpty, IsWordLeft};

use std::alloc::{AllocError, Global};
use std::marker::Model;

/// How many bits a word has.
const WORD: u32 = 64;

/// A set of numbers below a limit. Its value is its lowest row, which has one bit for each number.
#[derive(Drop)]
pub(crate) struct Numbers {
    low: Vec<u64>,
    middle: Vec<u64>,
    top: Vec<u64>,
}

impl Model for Numbers {
    ghost use Rattle.std.specs.Prelude.{ℕ, List};

    ghost Value = { List ℕ };

    ghost use Rattle.bl_queue.specs.NumberRows.{AreRows};

    ghost view = { λ n. n.low.items };

    ghost invariant = { AreRows };
}

/// Words without a member.
fn empty_words(alloc: Global, count: u32) -> Result<Vec<u64>, AllocError>
    ensures { IfOk result (λ words. words.items ≡ replicate count 0) }
{
    let mut words = Vec::with_capacity(alloc, count as usize)?;
    for _n in 0..count {
        words.push_reserved(0);
    }
    Ok(words)
}

/// The number is a member.
fn put(words: &mut [u64], n: u32)
    requires { n / 64 < length words.old }
    ensures { IsMarked words.old n words.new }
{
    let place = (n / WORD) as usize;
    words[place] |= 1 << (n % WORD);
}

/// The number is no member. Says whether its word has another member.
fn take(words: &mut [u64], n: u32) -> bool
    requires { n / 64 < length words.old }
    ensures marks { IsUnmarked words.old n words.new }
    ensures left { MatchBool result (IsWordLeft words.new n) (IsWordEmpty words.new n) }
{
    let place = (n / WORD) as usize;
    let word = words[place] & !(1 << (n % WORD));
    words[place] = word;
    word != 0
}

/// The first member from this number on that is in its word.
fn first_in_word(words: &[u64], from: u32) -> Option<u32>
    requires { from + 64 < 2 ^ 32 }
    ensures { IsFirstInWord words.now from result }
{
    let place = (from / WORD) as usize;
    if place >= words.len() {
        return None;
    }
    let rest = words[place] & (u64::MAX << (from % WORD));
    if rest == 0 {
        return None;
    }
    Some(from / WORD * WORD + rest.trailing_zeros())
}

/// The first member of the middle row from this number on.
fn next_word(middle: &[u64], top: &[u64], from: u32) -> Option<u32>
    requires over { IsOver middle.now top.now }
    requires top { length top.now ≡ 1 }
    requires few { from < most_numbers }
    ensures { IsFirst middle.now from result }
{
    if let Some(word) = first_in_word(middle, from) {
        return Some(word);
    }
    let region = first_in_word(top, from / WORD + 1)?;
    first_in_word(middle, region * WORD)
}

impl Numbers {
    /// No number, of those up to this one. No other call takes memory.
    pub(crate) fn new(alloc: Global, last: u32) -> Result<Numbers, AllocError>
        requires { last < most_numbers }
        ensures room { IfOk result (λ numbers. last / 64 < length numbers) }
        ensures none { IfOk result (λ numbers. (n : ℕ) → mark numbers n ≡ 0) }
    {
        Ok(Numbers {
            low: empty_words(alloc, last / WORD + 1)?,
            middle: empty_words(alloc, last / WORD / WORD + 1)?,
            top: empty_words(alloc, 1)?,
        })
    }

    /// The number is a member from now on.
    pub(crate) fn insert(&mut self, n: u32)
        requires { n / 64 < length self.old }
        ensures { IsMarked self.old n self.new }
    {
        put(self.low.as_mut_slice(), n);
        put(self.middle.as_mut_slice(), n / WORD);
        put(self.top.as_mut_slice(), n / WORD / WORD);
    }

    /// The number is no member from now on.
    pub(crate) fn remove(&mut self, n: u32)
        requires { n / 64 < length self.old }
        ensures { IsUnmarked self.old n self.new }
    {
        if take(self.low.as_mut_slice(), n) {
            return;
        }
        if take(self.middle.as_mut_slice(), n / WORD) {
            return;
        }
        take(self.top.as_mut_slice(), n / WORD / WORD);
    }

    /// The first member from this number on.
    pub(crate) fn next(&self, from: u32) -> Option<u32>
        requires { from < most_numbers }
        ensures { IsFirst self.now from result }
    {
        if let Some(n) = first_in_word(self.low.as_slice(), from) {
            return Some(n);
        }
        let word = next_word(self.middle.as_slice(), self.top.as_slice(), from / WORD + 1)?;
        first_in_word(self.low.as_slice(), word * WORD)
    }
}
