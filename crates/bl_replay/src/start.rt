//! What the start of a place says, from what a monitor answers that was told of later losses.
ghost use Rattle.std.specs.Prelude.{◌≡◌, ◌<◌, ℕ, Bool, IfSome, List, length, map};
ghost use Rattle.bl_setup.specs.Setup.{Setup as AnySetup};
ghost use Rattle.bl_order.specs.AtHand.{RestsOnEndedPlaces};
ghost use Rattle.bl_order.specs.Machine.{State, MayStart, past_at};
ghost use Rattle.bl_order.specs.Order.{Entry, is_rule, unnamed};
ghost use Rattle.bl_replay.specs.Fed.{IsFed};
ghost use Rattle.bl_replay.specs.Marks.{AreForetold};
ghost use Rattle.bl_replay.specs.Words.{AreWords, KnowsWords};
ghost use Rattle.bl_trail.specs.StartWords.{words_of};

use bl_monitor::monitor::Monitor;
use bl_trail::text::Words;
use bl_work::answer::Answer;

/// What an answer says at the start of its place.
fn answer_words(answer: &Answer) -> Option<Words>
    ensures { result ≡ words_of answer.now }
{
    match answer {
        Answer::Done(_) => Some(Words::Run),
        Answer::RuleDone => Some(Words::Rule),
        Answer::Denied(denial) => Some(Words::Denied(*denial)),
        Answer::Lost => None,
    }
}

/// What a start says of a place that may start. A place that is lost later is not answered, but the policy's fault
/// tells whether it runs: it must, since otherwise it would end at its start.
pub fn start_words(
    monitor: &Monitor,
    answers: &[Answer],
    later: bool,
    rule: bool,
    n: u32,
) -> Option<Words>
    requires { n < length answers.now }
    ensures words { (x : State) (marks : ℕ → Bool) → IsFed x.setup marks (map unnamed x.order) monitor.now answers.now
        → AreForetold marks x
        → RestsOnEndedPlaces x → MayStart x n → later ≡ marks n → rule ≡ is_rule (past_at x n).task
        → AreWords x n later result }
    ensures known { (setup : AnySetup) (marks : ℕ → Bool) (order : List Entry)
        → IsFed setup marks order monitor.now answers.now
        → IfSome result (KnowsWords setup) }
{
    if later {
        if rule {
            return None;
        }
        return match monitor.fault(n) {
            Some(_) => None,
            None => Some(Words::Run),
        };
    }
    answer_words(&answers[n as usize])
}
