//! That the texts of which a line is made have no LF.
ghost use Rattle.bl_work.specs.declared.answer.Answer.TheVariants.{Done};
ghost use Rattle.bl_work.specs.declared.asked.Line.TheVariants as asked;
ghost use Rattle.bl_work.specs.Readable.{IsReadable};
ghost use Rattle.bl_wire.specs.Named.{NamesAnswer};
ghost use Rattle.bl_wire.specs.Replies.{answer_text};
ghost use Rattle.bl_write.specs.CanonicalLine.{canonical_line};
ghost use Rattle.bl_trail.specs.TrueText.{HasNoLf};

use bl_work::answer::{Answer, Outputs};
use bl_work::names::Names;
use bl_work::work::Work;
use bl_write::canonical::{canonical_works_read_again, lines_have_no_lf};

/// What was shown has no LF: it is looked at for the proof alone.
fn outputs_are_plain(names: &Names, outputs: &Outputs)
    ensures { HasNoLf (answer_text names.now (Done outputs.now)) }
{
    // the contract alone speaks of the names
    let _ = names;
    for text in outputs.texts() {
        let _bytes = text.bytes();
    }
}

/// An answer's text has no LF: it is looked at for the proof alone.
pub(crate) fn answer_is_plain(names: &Names, answer: &Answer)
    requires { NamesAnswer names.now answer.now }
    ensures { HasNoLf (answer_text names.now answer.now) }
{
    let _scheme = names.scheme();
    match answer {
        Answer::Done(outputs) => outputs_are_plain(names, outputs),
        Answer::RuleDone => (),
        Answer::Denied(_) => (),
        Answer::Lost => (),
    }
}

/// A work's canonical text has no LF: it is looked at for the proof alone.
pub(crate) fn work_is_plain(names: &Names, work: &Work)
    requires { IsReadable names.now work.now }
    ensures { HasNoLf (canonical_line names.now (asked.Work work.now)) }
{
    lines_have_no_lf();
    canonical_works_read_again();
    // asked for the proof alone: the names are a server's
    let _scheme = names.scheme();
    // the contract alone speaks of the work
    let _ = work;
}
