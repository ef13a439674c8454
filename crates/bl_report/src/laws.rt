//! Laws: that what the items tell is so of the run, and that they leave nothing out.
//!
//! Each function does nothing, and its contract is the law.
ghost use Rattle.std.specs.Prelude.{◌≡◌, ◌↔◌, ◌<◌, ◌≤◌, ℕ, List, Option, true, false, length, take};
ghost use Rattle.bl_level.specs.Level.{SecurityLevel};
ghost use Rattle.bl_policy.specs.Policy.{SecurityPolicy, is_trusted};
ghost use Rattle.bl_policy.specs.Properties.{IsGranted};
ghost use Rattle.bl_policy.specs.declared.access.Access.{Access};
ghost use Rattle.bl_policy.specs.declared.denial.Denial.{Denial};
ghost use Rattle.bl_work.specs.declared.answer.Answer.TheVariants.{Denied, Done};
ghost use Rattle.bl_setup.specs.Setup.{Setup};
ghost use Rattle.bl_setup.specs.declared.version.Version.TheVariants as Version;
ghost use Rattle.bl_order.specs.Headline.{IsReached};
ghost use Rattle.bl_order.specs.Machine.{Event, IsTrail, MayStart, Needs, State, change, held, past_at, start, state_after};
ghost use Rattle.bl_order.specs.Now.{content_now, policy_at, policy_now};
ghost use Rattle.bl_explain.specs.Grounds.{grounds_of};
ghost use Rattle.bl_explain.specs.Tests.{is_exempt};
ghost use Rattle.bl_report.specs.Denials.{IsBlamed};
ghost use Rattle.bl_report.specs.Entered.{admissions, entries_from};
ghost use Rattle.bl_report.specs.Exemption.{without_trust};
ghost use Rattle.bl_report.specs.Granted.{TellsGranted};
ghost use Rattle.bl_report.specs.Items.{items_at, report_items};
ghost use Rattle.bl_report.specs.Opened.{held_at, open_below, open_of};
ghost use Rattle.bl_report.specs.Ways.{IsWayDown};
ghost use Rattle.bl_report.specs.Whole.{RiseBetween, is_change, is_touch, tells};

use bl_explain::laws::{
    denials_are_of_their_moment as denied_by_the_present, grounds_decide, what_fails_first_decides,
};
use bl_order::laws::{each_state_holds, events_move_the_present, headline, lineage};
use bl_policy::laws::rule_fault_is_the_first;

/// At every moment of a run the items that are open tell just the accesses that are held then: of each place, in the order
/// in which it declares them, and place by place in the same order. None is missing, and none is too much.
pub fn what_is_open_is_held()
    ensures places { (setup : Setup) (limit : ℕ) (events : List Event) (p n : ℕ) → IsTrail (start setup limit) events
        → p ≤ length events
        → open_of p n (report_items setup limit events) ≡ held_at (state_after (start setup limit) (take p events)) n }
    ensures all { (setup : Setup) (limit : ℕ) (events : List Event) (p : ℕ) → IsTrail (start setup limit) events
        → p ≤ length events → let x = state_after (start setup limit) (take p events) in
        open_below p (length x.order) (report_items setup limit events) ≡ held x }
{}

/// What a place could bring below what it, or those above it, looked at, trusted subjects alone bring: a list of such
/// ways down that names each has no untrusted subject in it.
pub fn ways_down_are_of_trusted_subjects()
    ensures { (x : State) (n m seen altered : ℕ) → IsReached x → x.setup.version ≡ Version.Two
        → IsWayDown x n m seen altered → is_trusted (policy_at x n) (past_at x n).subject ≡ true }
{
    lineage();
}

/// Nothing is left out: an event of which no item tells a change leaves the policy as it was, and one of which no item tells
/// that a document is altered or deleted leaves its content as it was.
pub fn nothing_else_changes()
    ensures policy { (until : ℕ → Option ℕ) (since : ℕ → Access → Option ℕ) (x : State) (number : ℕ) (event : Event)
        → IsReached x → Needs x event → tells is_change (items_at until since x number event) ≡ false
        → policy_now (change x event) ≡ policy_now x }
    ensures content { (until : ℕ → Option ℕ) (since : ℕ → Access → Option ℕ) (x : State) (number : ℕ) (event : Event)
        (doc : ℕ) → IsReached x → Needs x event → tells (is_touch doc) (items_at until since x number event) ≡ false
        → content_now (change x event) doc ≡ content_now x doc }
{
    headline();
    events_move_the_present();
}

/// What is held was granted: a start that is done tells each access that is declared, and each is granted by the policy that
/// it finds, whose levels and rights stand beside it.
pub fn what_is_held_was_granted()
    ensures { (until : ℕ → Option ℕ) (since : ℕ → Access → Option ℕ) (x : State) (number n : ℕ) (shown : List (List ℕ))
        → IsReached x → MayStart x n → (past_at x n).answer ≡ Done shown → TellsGranted until since x number n }
{
    headline();
    each_state_holds();
}

/// A denial is of its start's own moment: it tells one item, and what that blames is judged by the policy that the start
/// finds, and by that it fails first what the denial names.
pub fn denials_are_of_their_moment()
    ensures { (until : ℕ → Option ℕ) (since : ℕ → Access → Option ℕ) (x : State) (number n : ℕ) (denial : Denial)
        → IsReached x → MayStart x n → (past_at x n).answer ≡ Denied denial
        → IsBlamed until since x number n denial }
{
    denied_by_the_present();
    what_fails_first_decides();
    rule_fault_is_the_first();
}

/// An access that is granted is granted by exemption exactly where it would not be, were its subject not trusted.
pub fn exemption_is_what_trust_adds()
    ensures { (p : SecurityPolicy) (s : ℕ) (carried : SecurityLevel) (access : Access) → s < length p.subjects
        → IsGranted p s carried access.doc access.mode
        → (is_exempt (grounds_of p s carried access) access.mode ≡ false)
        ↔ IsGranted (without_trust p s) s carried access.doc access.mode }
{
    grounds_decide();
    what_fails_first_decides();
}

/// What is told to be admitted is the order: its entries, each with its place and where it comes from. None is missing, no
/// child either, and none comes twice.
pub fn what_is_admitted_is_the_order()
    ensures { (setup : Setup) (limit : ℕ) (events : List Event) →
        admissions (report_items setup limit events) ≡ entries_from 0 (state_after (start setup limit) events).order }
{}

/// The items rise by event: those of an event stand together, behind those of the events before it. Each is of an event of
/// the run.
pub fn items_rise_by_event()
    ensures { (setup : Setup) (limit : ℕ) (events : List Event) →
        RiseBetween 1 (length events) (report_items setup limit events) }
{}
