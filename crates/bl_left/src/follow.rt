//! The lines of a trail, followed to its end.
ghost use Rattle.std.specs.Prelude.{◌≡◌, ◌↔◌, IfOk, IsTrue, codes};
ghost use Rattle.bl_order.specs.Machine.{State};
ghost use Rattle.bl_replay.specs.Keeps.{Replays};
ghost use Rattle.bl_left.specs.Ended.{IsAtItsEnd};

use bl_replay::replayer::Replayer;
use bl_trail::follow::{Follows, first_line};
use bl_trail::verdict::Verdict;
use std::alloc::AllocError;

/// Whether the line closes the trail.
fn is_stop(line: &[u8]) -> bool
    ensures { IsTrue result ↔ (line.now ≡ codes "stop") }
{
    line == b"stop".as_slice()
}

/// The verdict on the lines behind the head. Where it is that they are accepted, the replayer has then taken all their
/// events. An error comes only where a growth is refused.
pub(crate) fn follow_all(replayer: &mut Replayer, text: &[u8]) -> Result<Verdict, AllocError>
    requires { (x : State) × Replays replayer.old x text.now }
    ensures { IfOk result (λ verdict. (x : State) → Replays replayer.old x text.now
        → IsAtItsEnd x text.now replayer.new verdict) }
{
    let mut rest = text;
    let mut count: u64 = 0;
    'lines: loop {
        let Some((line, behind)) = first_line(rest) else {
            return Ok(Verdict::Rejected(count + 3));
        };
        if is_stop(line) {
            if behind.is_empty() {
                return Ok(Verdict::Accepted(count));
            }
            return Ok(Verdict::Rejected(count + 4));
        }
        if !replayer.take(line)? {
            return Ok(Verdict::Rejected(count + 3));
        }
        count += 1;
        rest = behind;
    }
}
