//! What a text has after its right part.
ghost use Rattle.std.specs.Prelude.{◌≡◌, ◌≤◌, ◌↔◌, IsTrue, codes, length};
ghost use Rattle.bl_record.specs.Completing.{IsRest};
ghost use Rattle.bl_record.specs.Recovering.{lines_in};

/// What a text has after its right part.
#[derive(Clone, Copy, Debug, PartialEq, Eq, Drop)]
pub(crate) struct Rest {
    /// Whether it is a closing `stop`, and nothing else.
    pub(crate) is_stop: bool,
    /// How many bytes it has.
    pub(crate) bytes: usize,
    /// How many whole lines it has.
    pub(crate) lines: usize,
    /// The number of its first line in the text, counted from 1.
    pub(crate) first: u64,
}

/// How many whole lines are in a text.
fn count_lines(text: &[u8]) -> usize
    ensures value { result ≡ lines_in text.now }
    ensures few { result ≤ length text.now }
{
    text.iter().filter(|byte| **byte == b'\n').count()
}

/// Whether a text is a closing `stop`.
fn is_stop(text: &[u8]) -> bool
    ensures { IsTrue result ↔ (text.now ≡ codes "stop\n") }
{
    text == b"stop\n".as_slice()
}

/// What a text has after so many bytes.
pub(crate) fn rest_of(text: &[u8], right: usize) -> Rest
    requires { right ≤ length text.now }
    ensures { IsRest text.now right result }
{
    let (front, rest) = text.split_at(right);
    let first = count_lines(front) as u64 + 1;
    Rest {
        is_stop: is_stop(rest),
        bytes: rest.len(),
        lines: count_lines(rest),
        first,
    }
}
