//! The tokens of a work, put one after the other: those of its script, or of its rule.
ghost use Rattle.std.specs.Prelude.{◌≡◌, fold, OnOk};
ghost use Rattle.bl_work.specs.Readable.{IsReadable};
ghost use Rattle.bl_write.specs.There.{IsWorkThere};
ghost use Rattle.bl_write.specs.Unread.{work_tokens};

use crate::canonical::readable_is_known;
use crate::sink::Sink;
use crate::spell::put_when;
use crate::spell_rules::put_rule;
use bl_work::names::Names;
use bl_work::work::Work;

/// Puts a work whose names are there.
pub(crate) fn put_work<S: Sink>(sink: &mut S, names: &Names, work: &Work) -> Result<(), S::Refusal>
    requires { IsWorkThere names.now work.now }
    ensures { OnOk result (sink.new ≡ fold S.taken sink.old (work_tokens names.now work.now)) }
{
    match work {
        Work::Behaviour(script) => put_when(sink, names, script, 0),
        Work::Rule(rule) => put_rule(sink, names, *rule),
    }
}

/// Puts a work that some text reads as by these names.
pub(crate) fn put_readable<S: Sink>(
    sink: &mut S,
    names: &Names,
    work: &Work,
) -> Result<(), S::Refusal>
    requires { IsReadable names.now work.now }
    ensures { OnOk result (sink.new ≡ fold S.taken sink.old (work_tokens names.now work.now)) }
{
    readable_is_known();
    // asked for the proof alone: no name stands twice in a table
    let _ = names.scheme();
    put_work(sink, names, work)
}
