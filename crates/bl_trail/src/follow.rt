//! The events of a trail, line by line, as whatever follows them takes them.
ghost use Rattle.std.specs.Prelude.{◌≡◌, ◌++◌, ◌∷◌, [], ℕ, List, IfOk, true, false, MatchOption, IsTrue, ◌↔◌, codes};
ghost use Rattle.bl_order.specs.Machine.{State};
ghost use Rattle.bl_trail.specs.Asks.{HasNo};
ghost use Rattle.bl_trail.specs.Follow.{IsNoEvent, IsFollowed, IsLine, IsMore, IsTaken};

use crate::ask::split_word;
use crate::verdict::Verdict;
use std::alloc::AllocError;

/// What follows the events of a trail.
pub trait Follows {
    // the events so far lead to this state, and this text is still to come
    ghost stands: { Self → State → List ℕ → Type 0 };

    /// Takes the next line, if it is an event's that may come next: whether it is. Where it is not, or a growth is
    /// refused, no further line may be taken.
    fn take(&mut self, line: &[u8]) -> Result<bool, AllocError>
        requires plain { HasNo 10 line.now }
        requires stands { (x : State) × (rest : List ℕ) × stands self.old x (line.now ++ 10 ∷ rest) }
        ensures right { IfOk result (λ right. right ≡ true → (x : State) (rest : List ℕ)
            → stands self.old x (line.now ++ 10 ∷ rest)
            → IsTaken x line.now (λ y. stands self.new y rest)) }
        ensures wrong { IfOk result (λ right. right ≡ false → (x : State) (rest : List ℕ)
            → stands self.old x (line.now ++ 10 ∷ rest)
            → IsNoEvent x line.now) };
}

/// The first line without its LF, and what stands behind it; `None` where no LF is there.
pub fn first_line(text: &[u8]) -> Option<(&[u8], &[u8])>
    ensures { MatchOption result (HasNo 10 text.now) (λ cut. IsLine text.now cut.0.now cut.1.now) }
{
    let (line, behind) = split_word(text, b'\n');
    match behind {
        Some(rest) => Some((line, rest)),
        None => None,
    }
}

/// Whether the line closes the trail.
fn is_stop(line: &[u8]) -> bool
    ensures { IsTrue result ↔ (line.now ≡ codes "stop") }
{
    line == b"stop".as_slice()
}

/// The verdict on the lines behind the head, as the machine takes them: in time that is proportional to the text, the
/// machine's own time apart.
pub fn follow<M: Follows>(machine: &mut M, text: &[u8]) -> Result<Verdict, AllocError>
    requires { (x : State) × M.stands machine.old x text.now }
    ensures { IfOk result (λ verdict. (x : State) → M.stands machine.old x text.now → IsFollowed x text.now verdict) }
{
    let mut rest = text;
    let mut count: u64 = 0;
    'lines: loop {
        let Some((line, behind)) = first_line(rest) else {
            return Ok(Verdict::Rejected(count + 3));
        };
        if is_stop(line) {
            if behind.is_empty() {
                return Ok(Verdict::Accepted(count));
            }
            return Ok(Verdict::Rejected(count + 4));
        }
        if !machine.take(line)? {
            return Ok(Verdict::Rejected(count + 3));
        }
        count += 1;
        rest = behind;
    }
}
