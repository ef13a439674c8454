//! That the text of a trail stays within a limit, whoever keeps the count.
ghost use Rattle.std.specs.Prelude.{◌≡◌, ◌≤◌, ◌<◌, ℕ, false, List, length};
ghost use Rattle.bl_order.specs.Headline.{IsReached};
ghost use Rattle.bl_order.specs.Machine.{Event, IsTrail, State, has_ended, start, state_after};
ghost use Rattle.bl_setup.specs.Setup.{Setup, by_version};
ghost use Rattle.bl_setup.specs.declared.version.Version.{Version as AnyVersion};
ghost use Rattle.bl_sizes.specs.Counts.{IsCounted, LeadsOn};
ghost use Rattle.bl_sizes.specs.Sizes.{EachFits, FitsAlone, FitsIn, HoldsDocuments, frame_size, written_size};
ghost use Rattle.bl_trail.specs.TrueText.{joined, trail_lines};
ghost use Rattle.bl_work.specs.Names.{AreNames};
ghost use Rattle.bl_work.specs.declared.work.Work.{Work};

use bl_work::laws::lines_ask_scripts;

/// The text of a trail is no longer than what is counted as written, and where each line fitted when it was admitted it
/// stays within the limit.
pub fn texts_stay_within()
    ensures counted { (version : AnyVersion) (setup : Setup) (limit : ℕ) (events : List Event) → AreNames setup.names →
        limit ≤ 100000 → IsTrail (start (by_version version setup) limit) events →
        length (joined (trail_lines version setup limit events))
        ≤ written_size (state_after (start (by_version version setup) limit) events) }
    ensures within { (version : AnyVersion) (setup : Setup) (limit most : ℕ) (events : List Event) →
        AreNames setup.names → HoldsDocuments setup → limit ≤ 100000 →
        IsTrail (start (by_version version setup) limit) events → frame_size ≤ most →
        EachFits most (start (by_version version setup) limit) events →
        length (joined (trail_lines version setup limit events)) ≤ most }
{
    lines_ask_scripts();
}

/// A line waits only where a place has not ended: where it fits alone and not now, something may still come of what was
/// admitted.
pub fn waits_only_for_others()
    ensures { (most : ℕ) (x : State) (work : Work) → FitsAlone most x work → ¬ FitsIn most x work →
        (n : ℕ) × (n < length x.order) × (has_ended x n ≡ false) }
{}

/// A count of what may come of the lines before a place of the order stays right while the run goes on: nothing but a
/// line adds to it.
pub fn counts_stay()
    ensures { (x y : State) (count place : ℕ) → IsReached x → HoldsDocuments x.setup → LeadsOn x y →
        IsCounted x count place → IsCounted y count place }
{
    lines_ask_scripts();
}
