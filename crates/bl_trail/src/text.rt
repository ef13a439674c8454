//! The lines of events, each its text and an LF. A short one is written in one piece.
ghost use Rattle.std.specs.Prelude.{◌≡◌, ◌<◌, ◌++◌, ◌∷◌, [], IfOk, IfSome, codes, decimal, false, length};
ghost use Rattle.std.specs.Prelude.{slice_index_or, true};
ghost use Rattle.bl_wire.specs.Named.{NamesAnswer};
ghost use Rattle.bl_wire.specs.Replies.{answer_text, output_text};
ghost use Rattle.bl_wire.specs.Watch.{Puts, end_state};
ghost use Rattle.bl_work.specs.Names.{KnownNames};
ghost use Rattle.bl_work.specs.Readable.{IsReadable};
ghost use Rattle.bl_work.specs.declared.asked.Line.TheVariants as asked;
ghost use Rattle.bl_work.specs.declared.answer.Answer.TheVariants.{Done};
ghost use Rattle.bl_write.specs.CanonicalLine.{canonical_line};
ghost use Rattle.bl_trail.specs.StartWords.{NamesWords, words_text};
ghost use Rattle.bl_trail.specs.TrueText.{head_lines, joined, version_line};

use bl_policy::denial::Denial;
use bl_policy::id::SubjectId;
use bl_setup::version::Version;
use bl_wire::put::{put, put_number, put_number_between};
use bl_wire::watched::Watched;
use bl_wire::words::put_answer;
use bl_work::answer::{Answer, Outputs};
use bl_work::names::Names;
use bl_work::work::Work;
use bl_write::short::{ShortLine, with_work};
use itoa::Buffer;
use std::alloc::{AllocError, Global};
use std::io::Write;

/// What a start says of its place.
#[derive(Clone, Copy)]
pub enum Words {
    /// The behaviour runs from now on.
    Run,
    /// The rule is applied, and the place has ended.
    Rule,
    /// The policy denies it, and the place has ended.
    Denied(Denial),
}

impl Words {
    ghost use Rattle.std.specs.Prelude.{◌≡◌};
    ghost use Rattle.bl_trail.specs.StartWords.{words_run};

    /// Whether the place runs after such a start.
    pub fn runs(&self) -> bool
        ensures { result ≡ words_run self.now }
    {
        match self {
            Words::Run => true,
            Words::Rule | Words::Denied(_) => false,
        }
    }
}

/// Writes the text of a limit, unless the writer has failed.
fn put_limit<W: Write>(writer: &mut Watched<W>, limit: u32)
    ensures { Puts (codes "limit " ++ decimal limit)
        (end_state W.contents writer.old) (end_state W.contents writer.new) }
{
    put(writer, b"limit ");
    put_number(writer, limit);
}

/// Writes the line of a version, unless the writer has failed.
fn put_version<W: Write>(writer: &mut Watched<W>, version: Version)
    ensures { Puts (version_line version) (end_state W.contents writer.old) (end_state W.contents writer.new) }
{
    match version {
        Version::One => {
            put(writer, b"trail 1");
        }
        Version::Two => {
            put(writer, b"trail 2");
        }
    }
}

/// Writes the head lines of a version and a limit, each with its LF, unless the writer has failed.
pub fn put_head<W: Write>(writer: &mut Watched<W>, version: Version, limit: u32)
    ensures { Puts (joined (head_lines version limit))
        (end_state W.contents writer.old) (end_state W.contents writer.new) }
{
    put_version(writer, version);
    put(writer, b"\n");
    put_limit(writer, limit);
    put(writer, b"\n");
}

/// Adds a number in decimal, if there is room.
fn add_number(line: &mut ShortLine, number: u32) -> Option<()>
    ensures { IfSome result (λ _. line.new.items ≡ line.old.items ++ decimal number) }
{
    let mut digits = Buffer::new();
    let digits = digits.format(number).as_bytes();
    line.try_extend_from_slice(digits).ok()
}

/// Adds a space and a text in quotation marks, if there is room.
fn add_output(line: &mut ShortLine, text: &[u8]) -> Option<()>
    ensures { IfSome result (λ _. line.new.items ≡ line.old.items ++ output_text text.now) }
{
    line.try_extend_from_slice(b" \"").ok()?;
    line.try_extend_from_slice(text).ok()?;
    line.try_push(b'"').ok()
}

/// The line of a session that asks this work, if it is short.
fn short_line(names: &Names, session: u32, ordinal: u32, work: &Work) -> Option<ShortLine>
    requires { IsReadable names.now work.now }
    ensures { IfSome result (λ line. line.items ≡ (codes "line " ++ (decimal session
        ++ (32 ∷ (decimal ordinal ++ (32 ∷ canonical_line names.now (asked.Work work.now)))))) ++ 10 ∷ []) }
{
    let mut line = ShortLine::new();
    line.try_extend_from_slice(b"line ").ok()?;
    add_number(&mut line, session)?;
    line.try_push(b' ').ok()?;
    add_number(&mut line, ordinal)?;
    line.try_push(b' ').ok()?;
    let mut line = with_work(line, names, work)?;
    line.try_push(b'\n').ok()?;
    Some(line)
}

/// The line of the end of a behaviour that has run, if it is short.
fn short_end(n: u32, outputs: &Outputs) -> Option<ShortLine>
    ensures { IfSome result (λ line. (names : KnownNames) → line.items
        ≡ (codes "end " ++ (decimal n ++ answer_text names (Done outputs.now))) ++ 10 ∷ []) }
{
    let mut line = ShortLine::new();
    line.try_extend_from_slice(b"end ").ok()?;
    add_number(&mut line, n)?;
    line.try_extend_from_slice(b" done").ok()?;
    for text in outputs.texts() {
        add_output(&mut line, text.bytes())?;
    }
    line.try_push(b'\n').ok()?;
    Some(line)
}

/// Writes the line of an opening, unless the writer has failed.
pub fn put_open<W: Write>(writer: &mut Watched<W>, names: &Names, subject: SubjectId)
    requires { subject < length names.now.subjects }
    ensures { Puts ((codes "open " ++ slice_index_or names.now.subjects subject []) ++ 10 ∷ [])
        (end_state W.contents writer.old) (end_state W.contents writer.new) }
{
    put(writer, b"open ");
    put(writer, names.subject_name(subject).bytes());
    put(writer, b"\n");
}

/// Writes the line of a session whose work has this text, unless the writer has failed.
pub fn put_line<W: Write>(writer: &mut Watched<W>, session: u32, ordinal: u32, work: &[u8])
    ensures { Puts ((codes "line " ++ (decimal session ++ (32 ∷ (decimal ordinal ++ (32 ∷ work.now))))) ++ 10 ∷ [])
        (end_state W.contents writer.old) (end_state W.contents writer.new) }
{
    put_number_between(writer, b"line ", session, b" ");
    put_number_between(writer, b"", ordinal, b" ");
    put(writer, work);
    put(writer, b"\n");
}

/// Writes the line of a session that asks this work, unless the writer has failed, and says `true`. Where the line is
/// not short it writes nothing, and says `false`.
pub fn put_short_line<W: Write>(
    writer: &mut Watched<W>,
    names: &Names,
    session: u32,
    ordinal: u32,
    work: &Work,
) -> bool
    requires { IsReadable names.now work.now }
    ensures put { result ≡ true → Puts ((codes "line " ++ (decimal session
        ++ (32 ∷ (decimal ordinal ++ (32 ∷ canonical_line names.now (asked.Work work.now)))))) ++ 10 ∷ [])
        (end_state W.contents writer.old) (end_state W.contents writer.new) }
    ensures none { result ≡ false → writer.new ≡ writer.old }
{
    match short_line(names, session, ordinal, work) {
        Some(line) => {
            put(writer, line.as_slice());
            true
        }
        None => false,
    }
}

/// Writes the line of a start, unless the writer has failed.
pub fn put_start<W: Write>(writer: &mut Watched<W>, names: &Names, n: u32, words: &Words)
    requires { NamesWords names.now words.now }
    ensures { Puts ((codes "start " ++ (decimal n ++ words_text names.now words.now)) ++ 10 ∷ [])
        (end_state W.contents writer.old) (end_state W.contents writer.new) }
{
    match words {
        Words::Run => put_number_between(writer, b"start ", n, b" run\n"),
        Words::Rule => put_number_between(writer, b"start ", n, b" rule\n"),
        Words::Denied(denial) => {
            put_number_between(writer, b"start ", n, b"");
            put_answer(writer, names, &Answer::Denied(*denial));
            put(writer, b"\n");
        }
    }
}

/// The line of an end, if it is short and that of a behaviour that has run.
fn short_end_of(n: u32, answer: &Answer) -> Option<ShortLine>
    ensures { IfSome result (λ line. (names : KnownNames) → line.items
        ≡ (codes "end " ++ (decimal n ++ answer_text names answer.now)) ++ 10 ∷ []) }
{
    match answer {
        Answer::Done(outputs) => short_end(n, outputs),
        Answer::RuleDone | Answer::Denied(_) | Answer::Lost => None,
    }
}

/// Writes the line of an end, unless the writer has failed.
pub fn put_end<W: Write>(writer: &mut Watched<W>, names: &Names, n: u32, answer: &Answer)
    requires { NamesAnswer names.now answer.now }
    ensures { Puts ((codes "end " ++ (decimal n ++ answer_text names.now answer.now)) ++ 10 ∷ [])
        (end_state W.contents writer.old) (end_state W.contents writer.new) }
{
    match short_end_of(n, answer) {
        Some(line) => {
            put(writer, line.as_slice());
        }
        None => {
            put_number_between(writer, b"end ", n, b"");
            put_answer(writer, names, answer);
            put(writer, b"\n");
        }
    }
}

/// Writes the line of a loss, unless the writer has failed.
pub fn put_loss<W: Write>(writer: &mut Watched<W>, n: u32)
    ensures { Puts ((codes "lost " ++ decimal n) ++ 10 ∷ [])
        (end_state W.contents writer.old) (end_state W.contents writer.new) }
{
    put_number_between(writer, b"lost ", n, b"\n");
}

/// What was written into memory. An error comes where a growth was refused.
fn written(text: Watched<Vec<u8>>) -> Result<Vec<u8>, AllocError>
    ensures { IfOk result (λ bytes. (bytes ≡ text.inner) × (text.failed ≡ false)) }
{
    if text.failed() {
        return Err(AllocError);
    }
    Ok(text.into_inner())
}

/// The text of a limit. An error comes only where a growth is refused.
pub fn limit_text(alloc: Global, limit: u32) -> Result<Vec<u8>, AllocError>
    ensures { IfOk result (λ text. text.items ≡ codes "limit " ++ decimal limit) }
{
    let mut text = Watched::new(Vec::new(alloc));
    put_limit(&mut text, limit);
    written(text)
}
