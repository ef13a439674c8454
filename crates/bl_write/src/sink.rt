//! What takes tokens, one after the other.
ghost use Rattle.std.specs.Prelude.{◌≡◌, fold, OnOk};
ghost use Rattle.bl_level.specs.Token.{Tok, tok, toks};

use bl_level::token::Token;

/// What takes tokens, as a text that is written or a count of its bytes. What it has become is told by `taken`, token by
/// token.
pub trait Sink {
    /// Why a token is refused.
    type Refusal: Drop;

    ghost taken: { Self → Tok → Self };

    /// Takes a token after those that it has taken. What it is after a refusal no clause says.
    fn put(&mut self, token: Token<'_>) -> Result<(), Self::Refusal>
        ensures { OnOk result (self.new ≡ taken self.old (tok token.entry)) };
}

/// Puts tokens into what takes them, from the left. It ends at the first refusal; what was taken before stays taken.
pub fn put_all<S: Sink>(sink: &mut S, tokens: &[Token<'_>]) -> Result<(), S::Refusal>
    ensures { OnOk result (sink.new ≡ fold S.taken sink.old (toks tokens.now)) }
{
    for token in tokens {
        sink.put(*token)?;
    }
    Ok(())
}
