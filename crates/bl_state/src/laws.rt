//! What holds of the setup that stands where all has ended, and of its text.
ghost use Rattle.std.specs.Prelude.{◌≡◌, ◌≤◌, ℕ, Bool, List, length, map};
ghost use Rattle.bl_setup.specs.Grammar.{IsSetup, IsSetupWithin, most_setup_bytes};
ghost use Rattle.bl_setup.specs.Setup.{Setup, by_version};
ghost use Rattle.bl_setup.specs.declared.version.Version.TheVariants as Version;
ghost use Rattle.bl_order.specs.Headline.{IsReached};
ghost use Rattle.bl_order.specs.Labels.{replies_to};
ghost use Rattle.bl_order.specs.Machine.{State, is_lost};
ghost use Rattle.bl_order.specs.Order.{Entry};
ghost use Rattle.bl_order.specs.Standing.{HaveAllEnded, setup_after, setup_now};
ghost use Rattle.bl_state.specs.Chains.{AreAllToldAsOne, AreRuns, IsChain, Last, Run, nothing_yet, run_of};
ghost use Rattle.bl_state.specs.Orders.{GoesOnAlike, IsEmptyBeyond};
ghost use Rattle.bl_state.specs.Texts.{most_text_bytes, setup_text};
ghost use Rattle.bl_state.specs.Told.{AreToldAsOne, StandBehindParents, StayApart, replies_of};
ghost use Rattle.bl_state.specs.Whole.{IsWhole};

use bl_name::laws::{canonical_reads_again, read_tokens_are_proper};
use bl_order::laws::{
    absent_documents_are_empty, lines_are_readable, tasks_are_of_scripts,
    what_is_at_hand_rests_on_ended_places,
};
use bl_policy::laws::{matrix_is_a_set, rule_fault_is_the_first};
use bl_work::laws::{contents_stay_contents, read_lines_are_known};

/// The text of a setup reads as exactly that setup: as a setup file where it is no longer than one may be, and always
/// where texts that a program has written are read.
pub fn written_setups_read_again()
    ensures file { (setup : Setup) → IsWhole setup → length (setup_text setup) ≤ most_setup_bytes →
        IsSetup (setup_text setup) setup }
    ensures always { (setup : Setup) → IsWhole setup → IsSetupWithin most_text_bytes (setup_text setup) setup }
{
    canonical_reads_again();
    read_tokens_are_proper();
    matrix_is_a_set();
}

/// The text of a setup has 134,217,728 bytes at most.
pub fn whole_setups_are_short()
    ensures { (setup : Setup) → IsWhole setup → length (setup_text setup) ≤ most_text_bytes }
{}

/// What was read is whole, and so has a text.
pub fn read_setups_are_whole()
    ensures { (most : ℕ) (bytes : List ℕ) (setup : Setup) → IsSetupWithin most bytes setup → IsWhole setup }
{
    read_tokens_are_proper();
    matrix_is_a_set();
}

/// Where all has ended, what stands is whole, if the setup was that the run began with; by whatever version the run was
/// judged, as a setup of version 2.
pub fn states_stay_whole()
    ensures now { (x : State) → IsReached x → HaveAllEnded x → IsWhole x.setup → IsWhole (setup_now x) }
    ensures as_two { (x : State) → IsReached x → HaveAllEnded x → IsWhole (by_version Version.Two x.setup) →
        IsWhole (by_version Version.Two (setup_now x)) }
{
    matrix_is_a_set();
    rule_fault_is_the_first();
    read_lines_are_known();
    contents_stay_contents();
    lines_are_readable();
    tasks_are_of_scripts();
    absent_documents_are_empty();
}

/// To cut a history in two changes no answer: the second part goes on from the setup that the first one makes just as it
/// does behind it.
pub fn histories_go_on_alike()
    ensures { (setup : Setup) (lost : ℕ → Bool) (order : List Entry) (lost2 : ℕ → Bool) (order2 : List Entry) →
        IsEmptyBeyond setup lost order → GoesOnAlike setup lost order lost2 order2 }
{}

/// So it is of a run in which all has ended: what stands then is the setup that its order makes.
pub fn runs_go_on_alike()
    ensures stands { (x : State) → HaveAllEnded x → setup_now x ≡ setup_after x.setup (is_lost x) x.order }
    ensures alike { (x : State) (lost : ℕ → Bool) (order : List Entry) → IsReached x → HaveAllEnded x → IsWhole x.setup →
        GoesOnAlike x.setup (is_lost x) x.order lost order }
{
    matrix_is_a_set();
    rule_fault_is_the_first();
    read_lines_are_known();
    contents_stay_contents();
    lines_are_readable();
    tasks_are_of_scripts();
    absent_documents_are_empty();
}

/// Histories one after another are told as one: whatever numbers sessions of the second one go on by, the replies to a
/// line that one of them has are those of that one.
pub fn histories_are_told_as_one()
    ensures { (setup : Setup) (lost : ℕ → Bool) (order : List Entry) (lost2 : ℕ → Bool) (order2 : List Entry) (f : ℕ → ℕ) →
        IsEmptyBeyond setup lost order → StandBehindParents order2 → StayApart f →
        AreToldAsOne setup lost order lost2 order2 f }
{}

/// So are any number of runs, each over the setup that the one before left: as one history over the first setup.
pub fn chains_are_told_as_one()
    ensures { (setup : Setup) (runs : List Run) → AreRuns setup runs → AreAllToldAsOne setup setup nothing_yet runs }
{}

/// Runs of the machine, each over the setup that stood at the end of the one before, are such runs; and what a state
/// answers to a line is what its history does.
pub fn runs_make_chains()
    ensures runs { (setup : Setup) (lasts : List Last) → IsWhole setup → IsChain setup lasts →
        AreRuns setup (map run_of lasts) }
    ensures replies { (x : State) (session ordinal : ℕ) →
        replies_to x session ordinal (length x.order) ≡ replies_of x.setup (is_lost x) x.order session ordinal }
{
    matrix_is_a_set();
    rule_fault_is_the_first();
    read_lines_are_known();
    contents_stay_contents();
    lines_are_readable();
    tasks_are_of_scripts();
    absent_documents_are_empty();
    what_is_at_hand_rests_on_ended_places();
}
