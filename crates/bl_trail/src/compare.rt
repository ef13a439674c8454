//! Whether a line is the text of an event. It is compared piece by piece, so that no text is made for it.
ghost use Rattle.std.specs.Prelude.{◌≡◌, ◌↔◌, ◌<◌, ◌++◌, ◌∷◌, [], IfSome, IsTrue, Some, codes, decimal, length};
ghost use Rattle.std.specs.Prelude.{option_copied, slice_index_or};
ghost use Rattle.bl_work.specs.declared.answer.Answer.TheVariants.{Done, Denied};
ghost use Rattle.bl_wire.specs.Named.{NamesAnswer, NamesDenial};
ghost use Rattle.bl_wire.specs.Replies.{answer_text, object_text};
ghost use Rattle.bl_trail.specs.Fronts.{IsLeft};
ghost use Rattle.bl_trail.specs.StartWords.{NamesWords, words_text};

use crate::text::Words;
use bl_policy::denial::Denial;
use bl_policy::id::{DocId, SubjectId};
use bl_work::answer::{Answer, Outputs};
use bl_work::names::Names;
use itoa::Buffer;

/// What is left after a piece; `None` where the text does not go on with it, or did not before.
fn after<'a>(text: Option<&'a [u8]>, piece: &[u8]) -> Option<&'a [u8]>
    ensures { IsLeft (option_copied text.entry) piece.now (option_copied result) }
{
    match text {
        Some(text) => text.strip_prefix(piece),
        None => None,
    }
}

/// What is left after a number in decimal.
fn after_number(text: Option<&[u8]>, number: u32) -> Option<&[u8]>
    ensures { IsLeft (option_copied text.entry) (decimal number) (option_copied result) }
{
    let mut digits = Buffer::new();
    after(text, digits.format(number).as_bytes())
}

/// What is left after ` done`, and a space and each output in quotation marks.
fn after_done<'a>(text: Option<&'a [u8]>, names: &Names, outputs: &Outputs) -> Option<&'a [u8]>
    ensures { IsLeft (option_copied text.entry) (answer_text names.now (Done outputs.now)) (option_copied result) }
{
    let _ = names;
    let mut rest = after(text, b" done");
    for output in outputs.texts() {
        rest = after(rest, b" \"");
        rest = after(rest, output.bytes());
        rest = after(rest, b"\"");
    }
    rest
}

/// What is left after a space and the document's name, where there is one.
fn after_object<'a>(
    text: Option<&'a [u8]>,
    names: &Names,
    object: Option<DocId>,
) -> Option<&'a [u8]>
    requires { IfSome object (λ doc. doc < length names.now.documents) }
    ensures { IsLeft (option_copied text.entry) (object_text names.now object) (option_copied result) }
{
    match object {
        Some(doc) => {
            let rest = after(text, b" ");
            after(rest, names.document_name(doc).bytes())
        }
        None => after(text, b""),
    }
}

/// What is left after ` denied CLAUSE SUBJECT`, and a space and the object where there is one.
fn after_denied<'a>(text: Option<&'a [u8]>, names: &Names, denial: &Denial) -> Option<&'a [u8]>
    requires { NamesDenial names.now denial.now }
    ensures { IsLeft (option_copied text.entry) (answer_text names.now (Denied denial.now)) (option_copied result) }
{
    let rest = after(text, b" denied ");
    let rest = after(rest, denial.clause.word().as_bytes());
    let rest = after(rest, b" ");
    let rest = after(rest, names.subject_name(denial.subject).bytes());
    after_object(rest, names, denial.object)
}

/// What is left after an answer.
fn after_answer<'a>(text: Option<&'a [u8]>, names: &Names, answer: &Answer) -> Option<&'a [u8]>
    requires { NamesAnswer names.now answer.now }
    ensures { IsLeft (option_copied text.entry) (answer_text names.now answer.now) (option_copied result) }
{
    match answer {
        Answer::Done(outputs) => after_done(text, names, outputs),
        Answer::Denied(denial) => after_denied(text, names, denial),
        Answer::RuleDone => after(text, b" done"),
        Answer::Lost => after(text, b" lost"),
    }
}

/// What is left after the words of a start.
fn after_words<'a>(text: Option<&'a [u8]>, names: &Names, words: &Words) -> Option<&'a [u8]>
    requires { NamesWords names.now words.now }
    ensures { IsLeft (option_copied text.entry) (words_text names.now words.now) (option_copied result) }
{
    match words {
        Words::Run => after(text, b" run"),
        Words::Rule => after(text, b" rule"),
        Words::Denied(denial) => after_denied(text, names, denial),
    }
}

/// Whether the pieces so far were the whole text.
fn is_over(left: Option<&[u8]>) -> bool
    ensures { IsTrue result ↔ (option_copied left.entry ≡ Some []) }
{
    match left {
        Some(rest) => rest.is_empty(),
        None => false,
    }
}

/// Whether the line is the text of an opening.
pub fn is_open(names: &Names, subject: SubjectId, line: &[u8]) -> bool
    requires { subject < length names.now.subjects }
    ensures { IsTrue result ↔ (line.now ≡ codes "open " ++ slice_index_or names.now.subjects subject []) }
{
    let rest = after(Some(line), b"open ");
    is_over(after(rest, names.subject_name(subject).bytes()))
}

/// Whether the line is that of a session whose work has this text.
pub fn is_line(session: u32, ordinal: u32, work: &[u8], line: &[u8]) -> bool
    ensures { IsTrue result ↔ (line.now ≡ codes "line "
        ++ (decimal session ++ (32 ∷ (decimal ordinal ++ (32 ∷ work.now))))) }
{
    let rest = after(Some(line), b"line ");
    let rest = after_number(rest, session);
    let rest = after(rest, b" ");
    let rest = after_number(rest, ordinal);
    let rest = after(rest, b" ");
    is_over(after(rest, work))
}

/// Whether the line is the text of a start.
pub fn is_start(names: &Names, n: u32, words: &Words, line: &[u8]) -> bool
    requires { NamesWords names.now words.now }
    ensures { IsTrue result ↔ (line.now ≡ codes "start " ++ (decimal n ++ words_text names.now words.now)) }
{
    let rest = after(Some(line), b"start ");
    let rest = after_number(rest, n);
    is_over(after_words(rest, names, words))
}

/// Whether the line is the text of an end.
pub fn is_end(names: &Names, n: u32, answer: &Answer, line: &[u8]) -> bool
    requires { NamesAnswer names.now answer.now }
    ensures { IsTrue result ↔ (line.now ≡ codes "end " ++ (decimal n ++ answer_text names.now answer.now)) }
{
    let rest = after(Some(line), b"end ");
    let rest = after_number(rest, n);
    is_over(after_answer(rest, names, answer))
}

/// Whether the line is the text of a loss.
pub fn is_loss(n: u32, line: &[u8]) -> bool
    ensures { IsTrue result ↔ (line.now ≡ codes "lost " ++ decimal n) }
{
    let rest = after(Some(line), b"lost ");
    is_over(after_number(rest, n))
}
