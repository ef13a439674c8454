//! The letters of modes, which lines and setup files share: `r` for read, `a` for append, `w` for write.
ghost use Rattle.std.specs.Prelude.{◌≡◌, IfSome};
ghost use Rattle.bl_work.specs.Letters as letters;

use bl_policy::access::Mode;

/// The mode of a letter, where it is one.
pub fn mode_of(letter: &[u8]) -> Option<Mode>
    ensures value { result ≡ letters.mode_of letter.now }
    ensures letter { IfSome result (λ mode. letters.letter_of mode ≡ letter.now) }
{
    match letter {
        b"r" => Some(Mode::Read),
        b"a" => Some(Mode::Append),
        b"w" => Some(Mode::Write),
        _ => None,
    }
}

/// The letter of a mode.
pub fn letter_of(mode: Mode) -> &'static [u8]
    ensures { result.now ≡ letters.letter_of mode }
{
    match mode {
        Mode::Read => b"r",
        Mode::Append => b"a",
        Mode::Write => b"w",
    }
}
