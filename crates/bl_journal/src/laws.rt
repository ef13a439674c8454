//! What a journal's file says, whatever a crash made of its end. Each function does nothing, and its contract is the
//! law.
ghost use Rattle.std.specs.Prelude.{◌≡◌, ◌++◌, ℕ, List, codes, length};
ghost use Rattle.bl_disk.specs.File.{Begins, File, Keeps, MayLeave};
ghost use Rattle.bl_journal.specs.Journals.{GoesOnFrom, IsHeadOf, IsHistory, IsRecovered, Journal, journal_text};
ghost use Rattle.bl_journal.specs.Lives.{AreLives, GoesOnFromAll, Life, found_after};
ghost use Rattle.bl_journal.specs.Resumed.{IsOneRun, MayFollow};
ghost use Rattle.bl_order.specs.Machine.{Event};
ghost use Rattle.bl_setup.specs.Agreement.{Agree};
ghost use Rattle.bl_setup.specs.Setup.{Setup};
ghost use Rattle.bl_trail.specs.Follow.{IsVerdict};
ghost use Rattle.bl_trail.specs.Heads.{IsHead};
ghost use Rattle.bl_trail.specs.TrueText.{HasNoLf, IsTrueText};
ghost use Rattle.bl_trail.specs.declared.head.Head.{Head};
ghost use Rattle.bl_trail.specs.declared.verdict.Verdict.{Verdict};
ghost use Rattle.bl_trail.specs.declared.verdict.Verdict.TheVariants.{Accepted};
ghost use Rattle.bl_work.specs.Names.{AreNames};

use bl_order::laws::{
    each_place_has_a_phase, headline, places_are_answered, places_rest_on_the_past, steps_lead_on,
    the_order_has_room, what_is_at_hand_rests_on_ended_places,
};
use bl_read::line::one_answer;
use bl_trail::verdict::true_texts_are_accepted;
use bl_write::canonical::canonical_works_read_again;

/// What was kept is recovered: whatever stands behind the text of a history, what is recovered goes on from that
/// history. A file has one recovered journal, with one version and one limit.
pub fn what_was_kept_is_recovered()
    ensures kept { (setup : Setup) (kept found : Journal) (tail : List ℕ) → Agree setup → AreNames setup.names →
        IsHistory setup kept → IsRecovered setup (journal_text setup kept ++ tail) found → GoesOnFrom kept found }
    ensures one { (setup : Setup) (file : List ℕ) (one other : Journal) → Agree setup → AreNames setup.names →
        IsRecovered setup file one → IsRecovered setup file other → one ≡ other }
{
    each_place_has_a_phase();
    steps_lead_on();
    the_order_has_room();
    one_answer();
    canonical_works_read_again();
}

/// At a moment at which the text of a history is kept on the disk, whatever a crash leaves is recovered as a journal
/// that goes on from that history.
pub fn a_crash_loses_nothing_that_was_kept()
    ensures { (setup : Setup) (kept found : Journal) (file : File) (left : List ℕ) → Agree setup
        → AreNames setup.names →
        IsHistory setup kept → Keeps (journal_text setup kept) file → MayLeave file left
        → IsRecovered setup left found →
        GoesOnFrom kept found }
{
    what_was_kept_is_recovered();
}

/// What is recovered has happened, where a crash left a first part of what was written, as the end of the program alone
/// does: the history whose text that was goes on from it.
pub fn what_is_recovered_has_happened()
    ensures { (setup : Setup) (written found : Journal) (file : List ℕ) → Agree setup → AreNames setup.names →
        IsHistory setup written → Begins file (journal_text setup written) → IsRecovered setup file found
        → GoesOnFrom found written }
{
    what_was_kept_is_recovered();
}

/// A torn line is no event: where no LF stands behind the text of a history, just that history is recovered.
pub fn torn_lines_are_no_events()
    ensures { (setup : Setup) (kept : Journal) (torn : List ℕ) → IsHistory setup kept → HasNoLf torn →
        IsRecovered setup (journal_text setup kept ++ torn) kept }
{}

/// However often a run crashes and is resumed, what is recovered at last is one history, and goes on from what the
/// first life began with and from all that was kept in each life.
pub fn lives_keep_all_that_was_kept()
    ensures { (setup : Setup) (from : Journal) (lives : List Life) → Agree setup → AreNames setup.names →
        IsHistory setup from → AreLives setup from lives →
        IsHistory setup (found_after from lives) × GoesOnFrom from (found_after from lives)
        × GoesOnFromAll lives (found_after from lives) }
{
    what_was_kept_is_recovered();
}

/// What is read at the head of a file is the version and the limit of the journal that is recovered of it.
pub fn heads_are_the_journals()
    ensures { (setup : Setup) (file : List ℕ) (journal : Journal) (head : Head) →
        IsRecovered setup file journal → IsHead setup file head → IsHeadOf setup journal head }
{}

/// A journal that is closed by `stop` is a true text, of version 1 or 2, however many runs have written it; and the
/// verdict on it is that it is accepted, with the number of its events.
pub fn closed_journals_are_true()
    ensures text { (setup : Setup) (journal : Journal) → IsHistory setup journal →
        IsTrueText setup (journal_text setup journal ++ codes "stop\n") (length journal.events) }
    ensures accepted { (setup : Setup) (journal : Journal) (verdict : Verdict) → IsHistory setup journal →
        IsVerdict setup (journal_text setup journal ++ codes "stop\n") verdict
        → verdict ≡ Accepted (length journal.events) }
{
    true_texts_are_accepted();
}

/// A run that goes on from a recovered journal answers as the whole history: what had ended when the crash came is said
/// as before, what ran or might start as it would have been, and the headline holds throughout.
pub fn resumed_runs_answer_as_one()
    ensures { (setup : Setup) (found : Journal) (more : List Event) → IsHistory setup found
        → MayFollow setup found more →
        IsOneRun setup found more }
{
    headline();
    steps_lead_on();
    places_are_answered();
    places_rest_on_the_past();
    each_place_has_a_phase();
    what_is_at_hand_rests_on_ended_places();
}
