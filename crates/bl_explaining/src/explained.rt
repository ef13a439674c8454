//! What is told of what is asked.
ghost use Rattle.std.specs.Prelude.{◌≡◌, ◌<◌, Contains, IfErr, IfNone, IfOk, IfSome, length, slice_index_or};
ghost use Rattle.bl_level.specs.Table.{place_of};
ghost use Rattle.bl_state.specs.Whole.{IsWhole};
ghost use Rattle.bl_work.specs.KnownLine.{IsKnownLine};
ghost use Rattle.bl_work.specs.Statements.{no_part};
ghost use Rattle.bl_work.specs.declared.asked.Line.TheVariants as asked;
ghost use Rattle.bl_question.specs.Asked.{IsUnasked, spaced};
ghost use Rattle.bl_question.specs.Wishes.{HasNoWish};
ghost use Rattle.bl_explaining.specs.Explained.{HoldsWork, IsExplained, IsExplainedAt, IsMoment, IsSetting, TellsWords, TellsWork};

use crate::rule::tell_rule;
use crate::setting::{Moment, Setting};
use crate::several::tell_accesses;
use bl_policy::access::Access;
use bl_policy::id::SubjectId;
use bl_question::asked::{carried_of, spaced, wish_of};
use bl_question::fault::{ExplainFault, no_memory};
use bl_question::question::Question;
use bl_setup::setup::Setup;
use bl_status::fault::ProgramFault;
use bl_work::laws::read_lines_are_known;
use bl_work::names::Names;
use bl_work::script::Script;
use bl_work::work::Work;
use std::alloc::{AllocError, Global};

/// What is told of what is asked, and whether it is granted.
#[derive(Drop)]
pub struct Explained {
    /// What is told, in whole lines.
    pub text: Vec<u8>,
    /// Whether it is granted.
    pub granted: bool,
}

/// The accesses that the outermost behaviour of a script declares.
fn accesses_in(script: &Script) -> &[Access]
    ensures { result.now ≡ (slice_index_or script.now 0 no_part).accesses }
{
    // asked for the proof alone: a script has a behaviour
    let _behaviours = script.weight();
    script.accesses(0)
}

/// What is told of a work, of which these are the words.
fn tell_work(setting: &Setting<'_>, words: &[u8], work: &Work) -> Result<Explained, AllocError>
    requires setting { IsSetting setting.now }
    requires known { IsKnownLine setting.now.moment.setup.now.names (asked.Work work.now) }
    requires held { HoldsWork setting.now.moment.setup.now.names.scheme work.now }
    ensures { IfOk result (λ told. TellsWork setting.now words.now work.now told.text.items told.granted) }
{
    match work {
        Work::Behaviour(script) => tell_accesses(setting, accesses_in(script)),
        Work::Rule(rule) => tell_rule(setting, rule, words),
    }
}

/// The subject of this name.
fn subject_of(names: &Names, name: &str) -> Option<SubjectId>
    ensures value { result ≡ place_of name.now names.now.subjects }
    ensures known { IfSome result (λ subject. subject < length names.now.subjects) }
    ensures there { IfSome result (λ _. Contains names.now.subjects name.now) }
    ensures none { IfNone result (Contains names.now.subjects name.now → ⊥) }
{
    names.subject(name.as_bytes())
}

/// The same, of a work that is at its end; or that a growth was refused.
fn explain_work(setting: &Setting<'_>, words: &[u8], work: Work) -> Result<Explained, ExplainFault>
    requires setting { IsSetting setting.now }
    requires known { IsKnownLine setting.now.moment.setup.now.names (asked.Work work) }
    requires held { HoldsWork setting.now.moment.setup.now.names.scheme work }
    ensures told { IfOk result (λ told. TellsWork setting.now words.now work told.text.items told.granted) }
    ensures fault { IfErr result (λ fault. fault ≡ ExplainFault.Program ProgramFault.NoMemory) }
{
    let told = tell_work(setting, words, &work);
    drop(work);
    match told {
        Ok(told) => Ok(told),
        Err(_) => Err(no_memory()),
    }
}

/// What is told of what these words ask for, over a setting.
fn explain_words(setting: &Setting<'_>, words: &[u8]) -> Result<Explained, ExplainFault>
    requires { IsSetting setting.now }
    ensures told { IfOk result (λ told. TellsWords setting.now words.now told.text.items told.granted) }
    ensures fault { IfErr result (HasNoWish setting.now.moment.setup.now.names words.now) }
{
    read_lines_are_known();
    match wish_of(setting.alloc, setting.names(), words) {
        Ok(work) => explain_work(setting, words, work),
        Err(fault) => Err(fault),
    }
}

/// What is told of what is asked for, over a setting.
fn explain_wish(setting: &Setting<'_>, question: &Question<'_>) -> Result<Explained, ExplainFault>
    requires { IsSetting setting.now }
    ensures told { IfOk result (λ told. TellsWords setting.now (spaced question.now.wish.now) told.text.items told.granted) }
    ensures fault { IfErr result (HasNoWish setting.now.moment.setup.now.names (spaced question.now.wish.now)) }
{
    match spaced(setting.alloc, question.wish) {
        Ok(words) => explain_words(setting, &words),
        Err(_) => Err(no_memory()),
    }
}

/// What is told of what is asked at a moment of a run, and whether it is granted; or why nothing is told: the subject is
/// none of the setup's, the carried level is none of it, what is asked for is neither accesses nor a rule, in this order,
/// or a growth was refused.
pub fn explain_at(
    alloc: Global,
    moment: &Moment<'_>,
    question: &Question<'_>,
) -> Result<Explained, ExplainFault>
    requires { IsMoment moment.now }
    ensures explained { IfOk result
        (λ told. IsExplainedAt moment.now question.now told.text.items told.granted) }
    ensures fault { IfErr result (IsUnasked moment.now.setup.now.names question.now) }
{
    read_lines_are_known();
    let names = moment.setup.names();
    let Some(subject) = subject_of(names, question.subject) else {
        return Err(ExplainFault::NoSubject);
    };
    match carried_of(alloc, names, question.carried) {
        Ok(carried) => {
            let setting = Setting {
                alloc,
                path: question.path,
                moment: *moment,
                subject,
                carried,
            };
            explain_wish(&setting, question)
        }
        Err(fault) => Err(fault),
    }
}

/// What is told of what is asked over a setup, whose file has these bytes; or why nothing is.
pub(crate) fn explain(
    alloc: Global,
    setup: &Setup,
    bytes: &[u8],
    question: &Question<'_>,
) -> Result<Explained, ExplainFault>
    requires { IsWhole setup.now }
    ensures explained { IfOk result
        (λ told. IsExplained setup.now bytes.now question.now told.text.items told.granted) }
    ensures fault { IfErr result (IsUnasked setup.now.names question.now) }
{
    let moment = Moment {
        bytes,
        setup,
        rules: &[],
        policy: setup.policy(),
    };
    explain_at(alloc, &moment, question)
}
