//! Writes answers, with their labels.
ghost use Rattle.std.specs.Prelude.{◌<◌, ◌∷◌, IfSome, length};
ghost use Rattle.bl_work.specs.declared.answer.Answer.TheVariants.{Done, Denied};
ghost use Rattle.bl_wire.specs.Replies.{label_text, answer_text, object_text};
ghost use Rattle.bl_wire.specs.Named.{NamesDenial, NamesAnswer};
ghost use Rattle.bl_wire.specs.Watch.{end_state, Puts};

use crate::put::{put, put_between, put_number};
use crate::watched::Watched;
use bl_policy::denial::Denial;
use bl_policy::id::DocId;
use bl_work::answer::{Answer, Outputs};
use bl_work::names::Names;
use std::io::Write;

/// Writes an entry's label, unless the writer has failed: its line's ordinal, and the child numbers down to it.
pub fn put_label<W: Write>(writer: &mut Watched<W>, ordinal: u32, path: &[u32])
    ensures { Puts (label_text (ordinal ∷ path.now))
        (end_state W.contents writer.old) (end_state W.contents writer.new) }
{
    put_number(writer, ordinal);
    for number in path {
        put(writer, b".");
        put_number(writer, *number);
    }
}

/// Writes ` done`, and a space and each output in quotation marks.
fn put_done<W: Write>(writer: &mut Watched<W>, names: &Names, outputs: &Outputs)
    ensures { Puts (answer_text names.now (Done outputs.now))
        (end_state W.contents writer.old) (end_state W.contents writer.new) }
{
    let _ = names;
    put(writer, b" done");
    for text in outputs.texts() {
        put_between(writer, b" \"", text.bytes(), b"\"");
    }
}

/// Writes a space and the document's name, where there is one.
fn put_object<W: Write>(writer: &mut Watched<W>, names: &Names, object: Option<DocId>)
    requires { IfSome object (λ doc. doc < length names.now.documents) }
    ensures { Puts (object_text names.now object) (end_state W.contents writer.old) (end_state W.contents writer.new) }
{
    match object {
        Some(doc) => {
            put(writer, b" ");
            put(writer, names.document_name(doc).bytes())
        }
        None => put(writer, b""),
    };
}

/// Writes ` denied CLAUSE SUBJECT`, and a space and the object where there is one.
fn put_denied<W: Write>(writer: &mut Watched<W>, names: &Names, denial: &Denial)
    requires { NamesDenial names.now denial.now }
    ensures { Puts (answer_text names.now (Denied denial.now))
        (end_state W.contents writer.old) (end_state W.contents writer.new) }
{
    put(writer, b" denied ");
    put(writer, denial.clause.word().as_bytes());
    put(writer, b" ");
    put(writer, names.subject_name(denial.subject).bytes());
    put_object(writer, names, denial.object);
}

/// Writes an answer as a reply has it behind the label, unless the writer has failed.
pub fn put_answer<W: Write>(writer: &mut Watched<W>, names: &Names, answer: &Answer)
    requires { NamesAnswer names.now answer.now }
    ensures { Puts (answer_text names.now answer.now)
        (end_state W.contents writer.old) (end_state W.contents writer.new) }
{
    match answer {
        Answer::Done(outputs) => put_done(writer, names, outputs),
        Answer::Denied(denial) => put_denied(writer, names, denial),
        Answer::RuleDone => {
            put(writer, b" done");
        }
        Answer::Lost => {
            put(writer, b" lost");
        }
    }
}
