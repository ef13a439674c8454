//! What is told of a start.
ghost use Rattle.std.specs.Prelude.{◌≡◌, ◌<◌, IfOk, length, true};
ghost use Rattle.bl_order.specs.Headline.{IsReached};
ghost use Rattle.bl_order.specs.Machine.{State, past_at};
ghost use Rattle.bl_order.specs.Order.{is_rule};
ghost use Rattle.bl_explaining.specs.Explained.{IsSetting};
ghost use Rattle.bl_explaining_event.specs.Decisions.{TellsStart, TellsTask, rule_words};
ghost use Rattle.bl_explaining_event.specs.Starts.{IsStartIn, IsTaskFor};
ghost use Rattle.bl_work.specs.Readable.{IsReadable};
ghost use Rattle.bl_work.specs.declared.work.Work.TheVariants as works;

use crate::labels::start_line;
use bl_core::machine::Core;
use bl_explaining::explained::Explained;
use bl_explaining::rule::tell_rule;
use bl_explaining::setting::Setting;
use bl_explaining::several::tell_accesses;
use bl_hall::hall::Hall;
use bl_level::level::Level;
use bl_order::laws::{each_state_holds, headline, tasks_are_of_scripts};
use bl_policy::id::SubjectId;
use bl_policy::rule::Rule;
use bl_work::names::Names;
use bl_work::work::Work;
use bl_write::write::Text;
use std::alloc::{AllocError, Global};

/// For whom an entry speaks, and what it carries.
#[derive(Clone, Copy)]
pub(crate) struct Speaker {
    pub(crate) subject: SubjectId,
    pub(crate) carried: Level,
}

/// The speaker of an entry that is there.
pub(crate) fn speaker_of(core: &Core, n: u32) -> Speaker
    requires { n < length core.now.order }
    ensures subject { result.subject ≡ (past_at core.now n).subject }
    ensures carried { result.carried ≡ (past_at core.now n).carried }
{
    let Some(subject) = core.subject(n) else {
        unreachable!()
    };
    let Some(carried) = core.carried(n) else {
        unreachable!()
    };
    Speaker { subject, carried }
}

/// The words of a rule behind a blank.
fn rule_words(alloc: Global, names: &Names, work: &Work, rule: &Rule) -> Result<Vec<u8>, AllocError>
    requires readable { IsReadable names.now work.now }
    requires rule { work.now ≡ works.Rule rule.now }
    ensures { IfOk result (λ words. words.items ≡ rule_words names.now rule.now) }
{
    let _ = rule;
    let mut written = Text::new(alloc);
    written.set_work(names, work)?;
    let mut words = Vec::new(alloc);
    words.push(b' ')?;
    words.extend_from_slice(written.bytes())?;
    Ok(words)
}

/// What is told of an entry that is a rule.
fn tell_entry_rule(setting: &Setting<'_>, core: &Core, n: u32) -> Result<Explained, AllocError>
    requires setting { IsSetting setting.now }
    requires reached { IsReached core.now }
    requires task { IsTaskFor setting.now.moment.setup.now.names (past_at core.now n).task }
    requires names { core.now.setup ≡ setting.now.moment.setup.now }
    requires there { n < length core.now.order }
    requires rule { is_rule (past_at core.now n).task ≡ true }
    ensures { IfOk result (λ told. TellsTask setting.now (past_at core.now n).task told.text.items told.granted) }
{
    each_state_holds();
    match core.work(n) {
        Some(work) => match work {
            Work::Rule(rule) => {
                let names = setting.moment.setup.names();
                let words = rule_words(setting.alloc, names, work, rule)?;
                tell_rule(setting, rule, &words)
            }
            Work::Behaviour(_) => unreachable!(),
        },
        None => unreachable!(),
    }
}

/// What is told of what an entry does.
fn tell_entry(setting: &Setting<'_>, core: &Core, n: u32) -> Result<Explained, AllocError>
    requires setting { IsSetting setting.now }
    requires reached { IsReached core.now }
    requires task { IsTaskFor setting.now.moment.setup.now.names (past_at core.now n).task }
    requires names { core.now.setup ≡ setting.now.moment.setup.now }
    requires there { n < length core.now.order }
    ensures { IfOk result (λ told. TellsTask setting.now (past_at core.now n).task told.text.items told.granted) }
{
    tasks_are_of_scripts();
    match core.behaviour(n) {
        Some((script, index)) => tell_accesses(setting, script.accesses(index)),
        None => tell_entry_rule(setting, core, n),
    }
}

/// What is told of a start, in the setting in which it was decided: which it is, and why it was decided so.
pub(crate) fn tell_start(
    setting: &Setting<'_>,
    hall: &Hall,
    event: u64,
    n: u32,
) -> Result<Explained, AllocError>
    requires { (x : State) × IsStartIn setting.now hall.now n x }
    ensures { IfOk result (λ told. (x : State) → IsStartIn setting.now hall.now n x
        → TellsStart setting.now x event n told.text.items told.granted) }
{
    headline();
    let Explained { text, granted } = tell_entry(setting, hall.core(), n)?;
    let mut told = Vec::new(setting.alloc);
    let mut label = Vec::new(setting.alloc);
    start_line(&mut told, &mut label, hall, event, n)?;
    told.extend_from_slice(&text)?;
    Ok(Explained {
        text: told,
        granted,
    })
}
