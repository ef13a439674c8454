//! What a replay answers.
ghost use Rattle.std.specs.Prelude.{◌≡◌, ◌++◌, ℕ, List};
ghost use Rattle.bl_setup.specs.Agreement.{Agree};
ghost use Rattle.bl_setup.specs.Setup.{Setup, by_version};
ghost use Rattle.bl_setup.specs.declared.version.Version.{Version as AnyVersion};
ghost use Rattle.bl_order.specs.Machine.{start};
ghost use Rattle.bl_work.specs.Names.{AreNames};
ghost use Rattle.bl_trail.specs.Follow.{IsFollowed, IsVerdict};
ghost use Rattle.bl_trail.specs.TrueText.{FirstWrong, IsLimit, IsTrueText, head_lines, joined};
ghost use Rattle.bl_trail.specs.Versions.{HasSetup};
ghost use Rattle.bl_trail.specs.declared.verdict.Verdict.{Verdict as AnyVerdict};
ghost use Rattle.bl_trail.specs.declared.verdict.Verdict.TheVariants.{Accepted};

use bl_order::laws::{each_place_has_a_phase, steps_lead_on, the_order_has_room};
use bl_read::line::one_answer;
use bl_write::canonical::canonical_works_read_again;

/// The verdict on a text.
#[derive(Clone, Copy, Debug, PartialEq, Eq)]
pub enum Verdict {
    /// The text is true, and has so many events.
    Accepted(u64),
    /// The first line that is not right, counted from 1.
    Rejected(u64),
}

/// A text has one verdict at most: where it is true, no line of it is wrong.
pub fn one_verdict()
    ensures { (setup : Setup) (text : List ℕ) (count number : ℕ) → IsTrueText setup text count
        → FirstWrong setup text number → ⊥ }
{}

/// The verdict on a true text is that it is accepted, with the number of its events.
pub fn true_texts_are_accepted()
    ensures { (setup : Setup) (text : List ℕ) (count : ℕ) (verdict : AnyVerdict) → IsTrueText setup text count
        → IsVerdict setup text verdict
        → verdict ≡ Accepted count }
{
    one_verdict();
}

/// Where the lines after the head were followed to their end, in a run that is judged by the version of the head, the
/// verdict on them is the verdict on the whole text: a line that is the text of no event that may come next stands in
/// no true text after the lines before it. The version has to have the setup.
pub fn what_was_followed_tells_the_verdict()
    ensures { (setup : Setup) (version : AnyVersion) (limit : ℕ) → HasSetup version setup → IsLimit limit → Agree setup
        → AreNames setup.names
        → (text : List ℕ) (verdict : AnyVerdict) → IsFollowed (start (by_version version setup) limit) text verdict
        → IsVerdict setup (joined (head_lines version limit) ++ text) verdict }
{
    each_place_has_a_phase();
    steps_lead_on();
    the_order_has_room();
    one_answer();
    canonical_works_read_again();
}
