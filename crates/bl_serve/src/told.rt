//! The replies to the lines of a block, in the order in which they came.
ghost use Rattle.std.specs.Prelude.{◌≡◌, ◌-◌, ◌<◌, ◌≤◌, All, drop, get_or, length, set, take};
ghost use Rattle.bl_hall.specs.Told.{reply_of};
ghost use Rattle.bl_wire.specs.Named.{NamesAnswer};
ghost use Rattle.bl_wire.specs.Replies.{reply_text};
ghost use Rattle.bl_wire.specs.Watch.{end_state, Puts};
ghost use Rattle.bl_engine.specs.Parts.{MayTake, PutsPart, SameAbove, next_behind, rest_of};
ghost use Rattle.bl_serve.specs.Told.{ordinal_of, told_text, AreNamed, BeginsAbove, IsPage, begins_with, told_already};

use bl_hall::reply::Reply;
use bl_wire::put::put;
use bl_wire::reply::put_refused;
use bl_wire::watched::Watched;
use bl_wire::words::{put_answer, put_label};
use bl_work::answer::Answer;
use bl_work::few::Few;
use bl_work::names::Names;
use std::io::Write;
use std::mem;

/// The ordinal of a reply's line; 0 where it has no label.
fn ordinal_of(reply: &Reply) -> u32
    ensures { result ≡ ordinal_of reply.now }
{
    match reply.label.as_slice() {
        [ordinal, ..] => *ordinal,
        [] => 0,
    }
}

/// How many replies stand before the first one to a line above an ordinal.
pub fn count_up_to(upto: u32, replies: &[Reply]) -> usize
    ensures within { result ≤ length replies.now }
    ensures low { All (λ reply. ordinal_of reply ≤ upto) (take result replies.now) }
    ensures next { BeginsAbove upto (drop result replies.now) }
{
    let mut count = 0;
    for reply in replies {
        if ordinal_of(reply) > upto {
            return count;
        }
        count += 1;
    }
    count
}

/// Writes a reply, unless the writer has failed.
fn put_told<W: Write>(writer: &mut Watched<W>, names: &Names, reply: &Reply)
    requires label { 0 < ordinal_of reply.now }
    requires named { NamesAnswer names.now reply.now.answer }
    ensures { Puts (reply_text names.now (reply_of reply.now))
        (end_state W.contents writer.old) (end_state W.contents writer.new) }
{
    let Some((ordinal, path)) = reply.label.as_slice().split_first() else {
        unreachable!()
    };
    put_label(writer, *ordinal, path);
    put_answer(writer, names, &reply.answer);
    put(writer, b"\n");
}

/// The place, from a given one on, of the first reply to a line or to a later one.
fn seek_line(ordinal: u32, told: &[Reply], next: usize) -> usize
    requires page { MayTake (IsPage told.now next) ordinal }
    ensures page { MayTake (IsPage told.now result) ordinal }
    ensures begins { BeginsAbove (ordinal - 1) (drop result told.now) }
{
    next + count_up_to(ordinal - 1, &told[next..])
}

/// Whether the reply at a place is to a line.
fn is_to(ordinal: u32, told: &[Reply], at: usize) -> bool
    ensures { result ≡ begins_with ordinal (drop at told.now) }
{
    at < told.len() && ordinal_of(&told[at]) == ordinal
}

/// Takes a reply out of its place. What is left there is to no line.
fn take_reply(told: &mut [Reply], at: usize) -> Reply
    requires { at < length told.old }
    ensures reply { result ≡ get_or told.old at result }
    ensures left { told.new ≡ set told.old at told_already }
{
    let gone = Reply {
        label: Few::Nothing,
        answer: Answer::Lost,
    };
    mem::replace(&mut told[at], gone)
}

/// Writes the next reply to a line whose work was asked for, unless the writer has failed, and lets it go; or, where
/// the line has none, that it was refused since there was no room. Replies are sought from a place on. The results are
/// the place behind, and whether the line has no more.
pub(crate) fn put_next<W: Write>(
    writer: &mut Watched<W>,
    names: &Names,
    ordinal: u32,
    told: &mut [Reply],
    next: usize,
) -> (usize, bool)
    requires page { MayTake (IsPage told.old next) ordinal }
    requires named { AreNamed names.now told.old }
    ensures part { PutsPart (told_text names.now told.old ordinal)
        (rest_of result.1 (told_text names.now told.new ordinal)) result.1
        (end_state W.contents writer.old) (end_state W.contents writer.new) }
    ensures others { SameAbove ordinal (told_text names.now told.old) (told_text names.now told.new) }
    ensures page { MayTake (IsPage told.new result.0) (next_behind result.1 ordinal) }
    ensures named { AreNamed names.now told.new }
{
    let at = seek_line(ordinal, told, next);
    if !is_to(ordinal, told, at) {
        put_refused(writer, ordinal, b"full");
        return (at, true);
    }
    let reply = take_reply(told, at);
    put_told(writer, names, &reply);
    (at + 1, !is_to(ordinal, told, at + 1))
}
