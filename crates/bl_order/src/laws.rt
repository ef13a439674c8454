//! What holds of the admission order and of the machine over it, whoever runs it.
ghost use Rattle.std.specs.Prelude.{◌≡◌, ◌↔◌, ℕ, ◌+◌, ◌<◌, ◌≤◌, All, Bool, IsTrue, List, [], length, map, slice_get, Some};
ghost use Rattle.bl_policy.specs.Properties.{IsPresent};
ghost use Rattle.bl_order.specs.AtHand.{ParentsHaveEnded, RestsOnEndedPlaces};
ghost use Rattle.bl_order.specs.Claims.{AreFewAndApart, numbered_claims, numbers_conflict};
ghost use Rattle.bl_order.specs.Known.{IsAsked, KnowsWork};
ghost use Rattle.bl_order.specs.Headline.{Holds, IsReached, MovesOn};
ghost use Rattle.bl_order.specs.Laws.{AbsentIsEmpty, FollowsItsParent, IsAnswered, IsClosed, KeepsAnswers, KeepsPlaces, LeavesThePolicy, LineCarriesNothing, LooksBack, RestsOnEnded, RestsOnLossesBefore, RulesMakeThePolicy, RulesStandAlone, RunsAtItsLevel, UsesPresent};
ghost use Rattle.bl_order.specs.Lineage.{KeepsItsLineage};
ghost use Rattle.bl_order.specs.Machine.{Ends, Event, IsTrail, Loses, MayStart, Needs, State, change, children_at, may_start, past_at, runs, start};
ghost use Rattle.bl_order.specs.Order.{Child, Entry, Task, accesses_of, conflict, unnamed};
ghost use Rattle.bl_order.specs.Now.{content_now, policy_now};
ghost use Rattle.bl_order.specs.Past.{place};
ghost use Rattle.bl_order.specs.Room.{HasRoom, IsBehaviourOrRule};
ghost use Rattle.bl_order.specs.Running.{GoesOn};
ghost use Rattle.bl_order.specs.TheHeadline.{IsTheHeadline, IsTheHeadlineThroughout};
ghost use Rattle.bl_setup.specs.Agreement.{Agree};
ghost use Rattle.bl_setup.specs.Setup.{Setup};
ghost use Rattle.bl_setup.specs.declared.version.Version.TheVariants as Version;
ghost use Rattle.bl_work.specs.LineGrammar.{LineOf};
ghost use Rattle.bl_work.specs.declared.asked.Line.TheVariants as asked;
ghost use Rattle.bl_work.specs.declared.work.Work.{Work};

use bl_policy::laws::{first_fault_is_the_first, rule_fault_is_the_first, rules_keep_rights};
use bl_work::laws::{lines_ask_scripts, read_lines_are_known};

/// Each place is lost, denied or granted as the policy and the contents at its place say.
pub fn places_are_answered()
    ensures { (setup : Setup) (lost : ℕ → Bool) (order : List Entry) (n : ℕ) →
        IsAnswered setup lost order n }
{}

/// What is said of a place rests on the entries up to it, and on which of these are lost.
pub fn places_rest_on_the_past()
    ensures entries { (setup : Setup) (lost : ℕ → Bool) (order more : List Entry) →
        KeepsPlaces setup lost order more }
    ensures losses { (setup : Setup) (order : List Entry) (n : ℕ) →
        RestsOnLossesBefore setup order n }
{}

/// What is said of a place that has ended rests on ended places alone, where each has those before it that it conflicts
/// with, and its parent, among them.
pub fn ended_places_rest_on_ended_places()
    ensures { (setup : Setup) (lost ended : ℕ → Bool) (order : List Entry) →
        IsClosed setup lost order ended → RestsOnEnded setup order ended lost }
{}

/// The frame law: the answer of a place that has ended stays as it is where the order grows, and where a place is lost that had
/// not ended, so it depends on ended places alone.
pub fn answers_keep_their_frame()
    ensures { (setup : Setup) (lost ended : ℕ → Bool) (order : List Entry) →
        IsClosed setup lost order ended → KeepsAnswers setup order ended lost }
{}

/// The content at a place is what the last place before it that wrote the document, or deleted it, left there.
pub fn contents_look_back()
    ensures { (setup : Setup) (lost : ℕ → Bool) (order : List Entry) (doc n : ℕ) →
        LooksBack setup lost order doc n }
{}

/// A document that is not present at a place is empty there, and one that is not present now is empty now.
pub fn absent_documents_are_empty()
    ensures places { (setup : Setup) (lost : ℕ → Bool) (order : List Entry) (doc n : ℕ) → Agree setup →
        AbsentIsEmpty setup lost order doc n }
    ensures now { (x : State) (doc : ℕ) → IsReached x → Agree x.setup →
        ¬ IsPresent (policy_now x) doc → content_now x doc ≡ [] }
{}

/// Where a behaviour runs, each document that it declares is present.
pub fn used_documents_are_present()
    ensures { (setup : Setup) (lost : ℕ → Bool) (order : List Entry) (n : ℕ) →
        UsesPresent setup lost order n }
{}

/// The policy goes on from place to place by the rules that are not lost, each as rules change a policy.
pub fn rules_make_the_policy()
    ensures { (setup : Setup) (lost : ℕ → Bool) (order : List Entry) (n : ℕ) →
        RulesMakeThePolicy setup lost order n }
{}

/// A rule starts only where nothing runs before it, and nothing behind it starts before it has ended: it conflicts with
/// every task.
pub fn rules_stand_alone()
    ensures { RulesStandAlone }
{}

/// Behaviours change no policy: where no rule stands before a place, what is denied there depends on the setup's policy
/// alone.
pub fn behaviours_leave_the_policy()
    ensures { (setup : Setup) (lost : ℕ → Bool) (order : List Entry) (n : ℕ) →
        LeavesThePolicy setup lost order n }
{}

/// A child speaks for its parent's subject, runs what its parent spawned, and carries the level at which its parent ran with
/// what that carried.
pub fn children_follow_their_parent()
    ensures { (setup : Setup) (lost : ℕ → Bool) (order : List Entry) (n parent which : ℕ) →
        parent < n → slice_get order n ≡ Some (Child parent which) →
        FollowsItsParent setup lost order n parent which }
{}

/// A place runs at its subject's current level, by the policy at the place, and a line carries nothing.
pub fn places_run_at_their_level()
    ensures level { (setup : Setup) (lost : ℕ → Bool) (order : List Entry) (n : ℕ) →
        RunsAtItsLevel setup lost order n }
    ensures lines { (setup : Setup) (lost : ℕ → Bool) (order : List Entry) (n : ℕ) →
        LineCarriesNothing setup lost order n }
{}

/// Where an untrusted subject's behaviour runs, what it may alter dominates what it, its parent and those above that may look
/// at, each by the policy at its place: of runs that are judged by version 2.
pub fn lineage()
    ensures { (x : State) (n : ℕ) → IsReached x → x.setup.version ≡ Version.Two →
        KeepsItsLineage x n }
{
    first_fault_is_the_first();
    rules_keep_rights();
}

/// The test of who may start.
pub fn may_start_is_tested()
    ensures { (x : State) (n : ℕ) → (IsTrue (may_start x n) ↔ MayStart x n) }
{}

/// The headline (Bell and La Padula 1976 over Cheeseman et al. 2023), of each state that a trail leads to, and so at every moment of
/// each run.
pub fn headline()
    ensures state { (x : State) → IsReached x → IsTheHeadline x }
    ensures throughout { (setup : Setup) (limit : ℕ) (events : List Event) → IsTrail (start setup limit) events →
        IsTheHeadlineThroughout setup limit events }
{
    first_fault_is_the_first();
    rule_fault_is_the_first();
}

/// What stands beside the headline in each state that a trail leads to: places find the policy and the contents of their place,
/// nothing is stuck, what runs is told as before, the ended places are closed, and the order is legal.
pub fn each_state_holds()
    ensures { (x : State) → IsReached x → Holds x }
{}

/// The policy and the contents now move with each event, and the rest of the machine leaves them alone.
pub fn events_move_the_present()
    ensures { (x : State) → IsReached x → MovesOn x }
{}

/// What runs goes on: an event that does not end a running place leaves it running, with what is said of it and the content at it of
/// each document that it declares.
pub fn what_runs_goes_on()
    ensures { (x : State) (event : Event) (n : ℕ) → IsReached x → Needs x event → IsTrue (runs x n) →
        (event ≡ Ends n → ⊥) → (event ≡ Loses n → ⊥) → GoesOn x (change x event) n }
{}

/// A trail leads to the start, and where one leads to a state, one leads on with each event that may come next.
pub fn steps_lead_on()
    ensures first { (setup : Setup) (limit : ℕ) → IsReached (start setup limit) }
    ensures next { (x : State) (event : Event) → IsReached x → Needs x event →
        IsReached (change x event) }
{}

/// The places that stand and those that unended places may still spawn are no more than what was admitted weighs, and so no
/// more than the limit.
pub fn the_order_has_room()
    ensures room { (x : State) → IsReached x → HasRoom x }
    ensures order { (x : State) → IsReached x → length x.order ≤ x.limit }
    // Where a running place ends, its children enter within the limit.
    ensures children { (x : State) (n : ℕ) → IsReached x → IsTrue (runs x n) →
        length x.order + length (children_at x n) ≤ x.limit }
{
    lines_ask_scripts();
}

/// Each place runs one of the behaviours of a script, or applies a rule.
pub fn tasks_are_of_scripts()
    ensures { (x : State) (n : ℕ) → IsReached x → n < length x.order →
        IsBehaviourOrRule (past_at x n).task }
{
    lines_ask_scripts();
}

/// What is said of a place that has ended, runs or may start rests on which ended places are lost, and on whether it is lost
/// itself: it does not wait for what becomes of the others. Each child stands after its parent, which has ended.
pub fn what_is_at_hand_rests_on_ended_places()
    ensures rests { (x : State) → IsReached x → RestsOnEndedPlaces x }
    ensures parents { (x : State) → IsReached x → ParentsHaveEnded x }
{}

/// The session and the ordinal of a line bear on nothing that is said of a place.
pub fn sessions_and_ordinals_bear_on_no_place()
    ensures { (setup : Setup) (lost : ℕ → Bool) (order : List Entry) (n : ℕ) →
        place setup lost (map unnamed order) n ≡ place setup lost order n }
{}

/// Claims go by number, the policy as 0 and a document as one more than its place: two tasks conflict exactly where their
/// numbered claims do. A task of a script has at most 9 claims, on different cowns, of the policy and of documents that it
/// declares.
pub fn claims_go_by_number()
    ensures conflict { (earlier later : Task) →
        conflict earlier later ≡ numbers_conflict (numbered_claims earlier) (numbered_claims later) }
    ensures apart { (task : Task) → IsBehaviourOrRule task → AreFewAndApart (numbered_claims task) }
    ensures known { (task : Task) (documents : ℕ) →
        All (λ access. access.doc < documents) (accesses_of task) →
        All (λ claim. claim.cown < documents + 1) (numbered_claims task) }
{}

/// The work of each line in the order is one that some bytes ask, by the setup's names.
pub fn lines_are_readable()
    ensures { (x : State) → IsReached x → All (IsAsked x.setup.names) x.order }
{}

/// Each place of the order has its phase, and there are no other phases.
pub fn each_place_has_a_phase()
    ensures { (x : State) → IsReached x → length x.phases ≡ length x.order }
{}

/// What a line names is in the setup under whose names it was read, so that the line may be an entry.
pub fn read_lines_are_in_the_setup()
    ensures subject { (setup : Setup) (bytes : List ℕ) (subject : ℕ) → Agree setup →
        LineOf setup.names bytes (asked.Hello subject) → subject < length setup.policy.subjects }
    ensures work { (setup : Setup) (bytes : List ℕ) (work : Work) → Agree setup →
        LineOf setup.names bytes (asked.Work work) → KnowsWork setup work }
{
    read_lines_are_known()
}
