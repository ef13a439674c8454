// Laws of the tokens: what their definitions promise to every reader and writer of texts.

ghost use Rattle.std.specs.Prelude.{◌≡◌, ◌≤◌, ℕ, List, [], length};
ghost use Rattle.bl_name.specs.Token.{Tok};
ghost use Rattle.bl_name.specs.Lexing.{Begins};
ghost use Rattle.bl_name.specs.Name.{AreProper};
ghost use Rattle.bl_name.specs.Canonical.{canonical};

/// The canonical text of proper tokens reads as them.
pub fn canonical_reads_again()
    ensures { (tokens : List Tok) → AreProper tokens → Begins (canonical tokens) tokens [] }
{}

/// No text that reads as some tokens is shorter than their canonical text.
pub fn canonical_is_shortest()
    ensures { (tokens : List Tok) (bytes rest : List ℕ) → Begins bytes tokens rest → length (canonical tokens) ≤ length bytes }
{}

/// A text reads as at most one list of tokens.
pub fn one_reading()
    ensures { (bytes : List ℕ) (these those : List Tok) → Begins bytes these [] → Begins bytes those [] → these ≡ those }
{}

/// The tokens that a text begins with are proper.
pub fn read_tokens_are_proper()
    ensures { (bytes rest : List ℕ) (tokens : List Tok) → Begins bytes tokens rest → AreProper tokens }
{}
