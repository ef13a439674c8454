//! What low subjects are told, whoever else speaks.
ghost use Rattle.std.specs.Prelude.{◌≡◌, ℕ};
ghost use Rattle.bl_level.specs.Level.{SecurityLevel};
ghost use Rattle.bl_setup.specs.Setup.{Setup};
ghost use Rattle.bl_setup.specs.declared.version.Version.TheVariants as Version;
ghost use Rattle.bl_order.specs.Headline.{IsReached};
ghost use Rattle.bl_order.specs.Machine.{State};
ghost use Rattle.bl_flow.specs.Flow.{StandsAlone, TellTheSame};
ghost use Rattle.bl_flow.specs.Low.{AgreeLow, History, history_of};
ghost use Rattle.bl_flow.specs.Purge.{KeepTheSame};
ghost use Rattle.bl_flow.specs.Sealed.{IsPlain, IsPossible, IsSealed, IsUntrusted, NoChildComesDown};

use bl_core::machine::Core;
use bl_level::level::dominates_means_dominance;
use bl_order::laws::{
    children_follow_their_parent, each_state_holds, places_run_at_their_level,
    rules_make_the_policy, sessions_and_ordinals_bear_on_no_place, tasks_are_of_scripts,
};
use bl_policy::laws::{first_fault_is_the_first, rules_keep_rights};
use bl_work::laws::blind_append;

/// Goguen and Meseguer 1982, noninterference, of what the star property of Bell and La Padula 1976 is for: low subjects
/// are told what they would be told if all others were silent, but for their rules, and the documents that are not low
/// had any contents.
pub fn low_places_stand_alone()
    ensures { (level : SecurityLevel) (history : History) (setup : Setup) →
        IsPossible history → IsSealed level history → AgreeLow level history.setup setup →
        StandsAlone level history setup }
{
    dominates_means_dominance();
    blind_append();
    first_fault_is_the_first();
    children_follow_their_parent();
    places_run_at_their_level();
    rules_make_the_policy();
}

/// Two histories that differ only in what is not kept, in sessions and ordinals, and in contents of documents that are
/// not low, tell low subjects the same.
pub fn low_subjects_are_told_the_same()
    ensures { (level : SecurityLevel) (one two : History) →
        IsPossible one → IsPossible two → IsSealed level one → IsSealed level two →
        AgreeLow level one.setup two.setup → KeepTheSame level one two →
        TellTheSame level one two }
{
    low_places_stand_alone();
    sessions_and_ordinals_bear_on_no_place();
}

/// In version 2 a child is low only where its parent is: it carries the level at which its parent ran, with what that
/// carried.
pub fn no_child_comes_down()
    ensures { (level : SecurityLevel) (history : History) →
        IsPossible history → history.setup.version ≡ Version.Two → NoChildComesDown level history }
{
    dominates_means_dominance();
    children_follow_their_parent();
}

/// In version 2 a history in which no trusted subject speaks is sealed at every level, whatever rules change.
pub fn untrusted_histories_are_sealed()
    ensures { (level : SecurityLevel) (history : History) →
        history.setup.version ≡ Version.Two → IsUntrusted history → IsSealed level history }
{
    rules_keep_rights();
    rules_make_the_policy();
}

/// In either version a history is sealed at every level where no trusted subject speaks and no rule changes a level.
pub fn plain_histories_are_sealed()
    ensures { (level : SecurityLevel) (history : History) →
        IsPossible history → IsPlain history → IsSealed level history }
{
    rules_keep_rights();
    children_follow_their_parent();
    rules_make_the_policy();
}

/// In each state that a trail leads to the order is legal, and its places run behaviours of scripts or apply rules.
pub fn reached_orders_bring_scripts()
    ensures { (x : State) → IsReached x → IsPossible (history_of x) }
{
    each_state_holds();
    tasks_are_of_scripts();
}

/// For every two trails whose histories are sealed: where the states that they lead to differ only in what is not kept,
/// in sessions and ordinals, and in contents of documents that are not low, low subjects are told the same.
pub fn states_tell_low_subjects_the_same()
    ensures { (level : SecurityLevel) (x y : State) →
        IsReached x → IsReached y → IsSealed level (history_of x) → IsSealed level (history_of y) →
        AgreeLow level x.setup y.setup → KeepTheSame level (history_of x) (history_of y) →
        TellTheSame level (history_of x) (history_of y) }
{
    low_subjects_are_told_the_same();
    reached_orders_bring_scripts();
}

/// The same of two cores, each in the state that it is in: an entry that is kept of both is answered alike, and brings
/// the same children. One that has not ended is compared by the answer that it will have if nothing more is lost. A
/// core is judged by version 2, so where no trusted subject speaks to either there is nothing to look at.
pub fn cores_tell_low_subjects_the_same(one: &Core, two: &Core)
    ensures sealed { (level : SecurityLevel) →
        IsSealed level (history_of one.now) → IsSealed level (history_of two.now) →
        AgreeLow level one.now.setup two.now.setup → KeepTheSame level (history_of one.now) (history_of two.now) →
        TellTheSame level (history_of one.now) (history_of two.now) }
    ensures untrusted { (level : SecurityLevel) →
        IsUntrusted (history_of one.now) → IsUntrusted (history_of two.now) →
        AgreeLow level one.now.setup two.now.setup → KeepTheSame level (history_of one.now) (history_of two.now) →
        TellTheSame level (history_of one.now) (history_of two.now) }
{
    // asked for the proof alone: a trail leads to the state of a core, and it is judged by version 2
    let _one = one.policy();
    let _two = two.policy();
    let _one_version = one.setup().version();
    let _two_version = two.setup().version();
    states_tell_low_subjects_the_same();
    untrusted_histories_are_sealed();
}
