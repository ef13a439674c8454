// The tokens that session lines, levels and the setup file are written in.

/// A reserved word. No name is spelled like one.
#[derive(Clone, Copy, PartialEq, Eq, Debug)]
pub enum Keyword {
    Hello,
    Wait,
    Give,
    Rescind,
    Current,
    Classify,
    When,
    Read,
    Append,
    Write,
    Do,
    End,
    Show,
    Say,
    Add,
    Set,
    Copy,
    Pour,
    To,
    If,
    Is,
    Has,
    Then,
    Else,
    Spawn,
    Ranks,
    Categories,
    Subject,
    Greatest,
    Document,
    Allow,
    Trusted,
    Admin,
    Create,
    Delete,
    Reserve,
}

impl Keyword {
    ghost use Rattle.std.specs.Prelude.{◌≡◌};
    ghost use Rattle.bl_name.specs.Lexing.{word_text};

    /// The bytes of the word.
    pub fn text(self) -> &'static [u8]
        ensures { result.now ≡ word_text self }
    {
        match self {
            Keyword::Hello => b"hello",
            Keyword::Wait => b"wait",
            Keyword::Give => b"give",
            Keyword::Rescind => b"rescind",
            Keyword::Current => b"current",
            Keyword::Classify => b"classify",
            Keyword::When => b"when",
            Keyword::Read => b"read",
            Keyword::Append => b"append",
            Keyword::Write => b"write",
            Keyword::Do => b"do",
            Keyword::End => b"end",
            Keyword::Show => b"show",
            Keyword::Say => b"say",
            Keyword::Add => b"add",
            Keyword::Set => b"set",
            Keyword::Copy => b"copy",
            Keyword::Pour => b"pour",
            Keyword::To => b"to",
            Keyword::If => b"if",
            Keyword::Is => b"is",
            Keyword::Has => b"has",
            Keyword::Then => b"then",
            Keyword::Else => b"else",
            Keyword::Spawn => b"spawn",
            Keyword::Ranks => b"ranks",
            Keyword::Categories => b"categories",
            Keyword::Subject => b"subject",
            Keyword::Greatest => b"greatest",
            Keyword::Document => b"document",
            Keyword::Allow => b"allow",
            Keyword::Trusted => b"trusted",
            Keyword::Admin => b"admin",
            Keyword::Create => b"create",
            Keyword::Delete => b"delete",
            Keyword::Reserve => b"reserve",
        }
    }
}

/// A sign that stands for itself: `,` `;` `{` `}`.
#[derive(Clone, Copy, PartialEq, Eq, Debug)]
pub enum Sign {
    Comma,
    Semicolon,
    Open,
    Close,
}

/// A token, which borrows its bytes from the text that it was read in.
#[derive(Clone, Copy, PartialEq, Eq, Debug)]
pub enum Token<'a> {
    Reserved(Keyword),
    /// A word that is not reserved: 1 to 32 bytes.
    Name(&'a [u8]),
    /// The bytes between the two quotes, of which there may be none.
    Text(&'a [u8]),
    Sign(Sign),
}
