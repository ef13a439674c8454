//! Which works some text reads as, by given names: those whose subjects and documents are among the names, whose level
//! the scheme holds, and whose canonical text is no longer than a line. The text is counted and not written, so that no
//! memory is taken.
ghost use Rattle.std.specs.Prelude.{◌≡◌, ◌↔◌, ◌≤◌, length, IsTrue};
ghost use Rattle.bl_level.specs.Token.{tok};
ghost use Rattle.bl_level.specs.Canonical.{spelled};
ghost use Rattle.bl_write.specs.Counting.{counted, nothing_counted};
ghost use Rattle.bl_write.specs.CanonicalLine.{canonical_line};
ghost use Rattle.bl_work.specs.LineGrammar.{most_line_bytes};
ghost use Rattle.bl_work.specs.Readable.{IsReadable};
ghost use Rattle.bl_work.specs.Script.{IsScript};
ghost use Rattle.bl_write.specs.There.{AreIn, AreThere, HasHeldLevel, IsRuleThere, IsWorkThere};
ghost use Rattle.bl_work.specs.declared.asked.Line.TheVariants as asked;

use crate::canonical::readable_is_known;
use crate::room::is_word;
use crate::sink::Sink;
use crate::spell_work::put_work;
use bl_level::scheme::Scheme;
use bl_level::token::Token;
use bl_policy::access::Access;
use bl_policy::rule::Rule;
use bl_work::asked::MOST_LINE_BYTES;
use bl_work::names::Names;
use bl_work::script::Script;
use bl_work::work::Work;
use std::convert::Infallible;
use std::marker::Model;

/// The length of a text while it is written, counted up to one more than a line has.
#[derive(Drop)]
pub(crate) struct Length {
    bytes: usize,
    ends_with_word: bool,
}

impl Model for Length {
    ghost use Rattle.bl_write.specs.Counting.{Counted};

    ghost Value = { Counted };

    ghost view = { λ l. record { bytes = l.bytes; word = l.ends_with_word } };
}

/// How many bytes a token has.
fn bytes_of(token: Token<'_>) -> usize
    ensures { result ≡ length (spelled (tok token.entry)) }
{
    match token {
        Token::Reserved(word) => word.text().len(),
        Token::Name(name) => name.len(),
        Token::Text(text) => text.len() + 2,
        Token::Sign(_) => 1,
    }
}

impl Length {
    /// Of no text.
    pub(crate) fn new() -> Length
        ensures { result ≡ nothing_counted }
    {
        Length {
            bytes: 0,
            ends_with_word: false,
        }
    }

    /// How many bytes there are, up to one more than a line has.
    pub(crate) fn bytes(&self) -> usize
        ensures { result ≡ self.now.bytes }
    {
        self.bytes
    }

    /// Whether the text is no longer than a line.
    fn fits(&self) -> bool
        ensures { IsTrue result ↔ (self.now.bytes ≤ most_line_bytes) }
    {
        self.bytes <= MOST_LINE_BYTES
    }
}

impl Sink for Length {
    type Refusal = Infallible;

    ghost taken = { counted };

    /// Counts a token, and a space before it where it follows a word and is one.
    fn put(&mut self, token: Token<'_>) -> Result<(), Infallible> {
        let gap = usize::from(self.ends_with_word && is_word(token));
        let bytes = self
            .bytes
            .saturating_add(gap)
            .saturating_add(bytes_of(token));
        self.bytes = bytes.min(MOST_LINE_BYTES + 1);
        self.ends_with_word = is_word(token);
        Ok(())
    }
}

/// Whether each document that these accesses declare is one of so many.
fn are_in(documents: usize, accesses: &[Access]) -> bool
    ensures { IsTrue result ↔ AreIn documents accesses.now }
{
    for access in accesses {
        if usize::from(access.doc.position()) >= documents {
            return false;
        }
    }
    true
}

/// Whether each document that the script declares is among the names.
fn are_there(names: &Names, script: &Script) -> bool
    ensures there { IsTrue result ↔ AreThere names.now script.now }
    ensures script { IsScript script.now }
{
    for index in 0..script.weight() {
        if !are_in(names.documents(), script.accesses(index)) {
            return false;
        }
    }
    true
}

/// Whether the scheme holds the rule's level, where it has one.
fn has_held_level(scheme: &Scheme, rule: &Rule) -> bool
    ensures { IsTrue result ↔ HasHeldLevel scheme.now rule.now }
{
    match rule {
        Rule::Give { .. } | Rule::Rescind { .. } => true,
        Rule::Create { .. } | Rule::Delete { .. } => true,
        Rule::Current { level } | Rule::Classify { level, .. } => scheme.holds(level),
    }
}

/// Whether the rule's subject and document are among the names, and its level is the scheme's.
fn is_rule_there(names: &Names, rule: &Rule) -> bool
    ensures { IsTrue result ↔ IsRuleThere names.now rule.now }
{
    rule.has_ids_below(names.subjects(), names.documents()) && has_held_level(names.scheme(), rule)
}

/// Whether what the work names is there.
fn is_there(names: &Names, work: &Work) -> bool
    ensures { IsTrue result ↔ IsWorkThere names.now work.now }
{
    match work {
        Work::Behaviour(script) => are_there(names, script),
        Work::Rule(rule) => is_rule_there(names, rule),
    }
}

/// Whether the canonical text of a work whose names are there is no longer than a line.
fn is_short(names: &Names, work: &Work) -> bool
    requires { IsWorkThere names.now work.now }
    ensures { IsTrue result ↔ (length (canonical_line names.now (asked.Work work.now)) ≤ most_line_bytes) }
{
    let mut length = Length::new();
    match put_work(&mut length, names, work) {
        Ok(()) => length.fits(),
        Err(never) => match never {},
    }
}

/// What can tell which works some text reads as.
pub trait KnowsWorks {
    /// Whether some text reads as this work. It takes no memory.
    fn knows(&self, work: &Work) -> bool;
}

impl KnowsWorks for Names {
    /// Whether some text reads as this work by these names: each subject and document that it names is among them, its
    /// level is the scheme's, and its canonical text has at most 8,192 bytes. It takes no memory.
    fn knows(&self, work: &Work) -> bool
        ensures { IsTrue result ↔ IsReadable self.now work.now }
    {
        readable_is_known();
        // asked for the proof alone: no name stands twice in a table
        let _ = self.scheme();
        is_there(self, work) && is_short(self, work)
    }
}
