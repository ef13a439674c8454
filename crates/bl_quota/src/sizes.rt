//! What the entries of a core have in the text of its trail, and what may still come of them.
ghost use Rattle.std.specs.Prelude.{◌≡◌, ◌-◌, ◌<◌, ◌≤◌, ℕ, true, if◌then◌else◌, length, slice_index_or, sum_by};
ghost use Rattle.std.specs.List.{range_with_len};
ghost use Rattle.bl_order.specs.Headline.{IsReached};
ghost use Rattle.bl_order.specs.Machine.{has_ended, past_at};
ghost use Rattle.bl_order.specs.Past.{no_entry};
ghost use Rattle.bl_sizes.specs.Counts.{added_at, added_behind, in_word};
ghost use Rattle.bl_sizes.specs.Sizes as size;
ghost use Rattle.bl_sizes.specs.Sizes.{HoldsDocuments};

use bl_core::machine::Core;
use bl_order::laws::tasks_are_of_scripts;
use bl_setup::setup::Setup;
use bl_sizes::most::{DENIED, RUN, coming, line_size, shown_size, work_size};
use bl_work::answer::{Answer, Outputs};

/// What an end has at most that shows nothing.
const END: u64 = 15;

/// What the application of a rule has more than the start of a behaviour.
const RULE: u64 = 1;

/// What the line of a loss has at most.
const LOST: u64 = 11;

/// What outputs take.
fn outputs_size(outputs: &Outputs) -> u64
    ensures { result ≡ in_word (sum_by size.shown_size outputs.now) }
{
    let mut bytes = 0u64;
    for text in outputs.texts() {
        bytes = bytes.saturating_add(shown_size(text.bytes()));
    }
    bytes
}

/// What an entry has that has ended with this answer.
fn ended_size(answer: &Answer) -> u64
    ensures { result ≡ in_word (size.ended_size answer.now) }
{
    match answer {
        Answer::Done(outputs) => outputs_size(outputs).saturating_add(RUN + END),
        Answer::RuleDone => RUN + RULE,
        Answer::Denied(_) => RUN + DENIED,
        Answer::Lost => RUN + LOST,
    }
}

/// What the line of an entry takes; nothing for a child.
fn entry_size(core: &Core, n: u32) -> u64
    requires { n < length core.now.order }
    ensures { result ≡ in_word (size.entry_size core.now.setup.names (slice_index_or core.now.order n no_entry)) }
{
    match core.work(n) {
        Some(work) => line_size(core.names(), work),
        None => 0,
    }
}

/// What an entry has beside its line: its start, and all that it is answered where it has ended.
fn begun_size(core: &Core, n: u32) -> u64
    ensures { result ≡ in_word (if has_ended core.now n
        then size.ended_size (past_at core.now n).answer
        else size.run_most) }
{
    match core.answer(n) {
        Some(answer) => ended_size(answer),
        None => RUN,
    }
}

/// What an entry has in the text.
fn written_at(core: &Core, n: u32) -> u64
    requires { n < length core.now.order }
    ensures { result ≡ in_word (size.written_at core.now n) }
{
    entry_size(core, n).saturating_add(begun_size(core, n))
}

/// What may come of an entry that has not ended.
fn unended_size(core: &Core, n: u32) -> u64
    requires there { n < length core.now.order }
    requires reached { IsReached core.now }
    ensures { result ≡ in_word (size.coming_of (past_at core.now n).task) }
{
    tasks_are_of_scripts();
    match core.behaviour(n) {
        Some((script, index)) => coming(script, index),
        None => DENIED,
    }
}

/// What an entry has in the text and may still come to have.
fn size_at(core: &Core, n: u32) -> u64
    requires there { n < length core.now.order }
    requires reached { IsReached core.now }
    ensures { result ≡ in_word (size.size_at core.now n) }
{
    if core.is_ended(n) {
        return written_at(core, n);
    }
    written_at(core, n).saturating_add(unended_size(core, n))
}

/// What an entry adds with all that comes of it; nothing for a child.
fn added_by(core: &Core, n: u32) -> u64
    requires { n < length core.now.order }
    ensures { result ≡ in_word (added_at core.now n) }
{
    match core.work(n) {
        Some(work) => work_size(core.names(), work),
        None => 0,
    }
}

/// What the entries at and behind a place add.
pub(crate) fn added_behind(core: &Core, from: u32) -> u64
    ensures { result ≡ in_word (added_behind core.now from) }
{
    let mut bytes = 0u64;
    for n in from..core.entries() {
        bytes = bytes.saturating_add(added_by(core, n));
    }
    bytes
}

/// What the entries from one place on, up to another, have in the text.
pub(crate) fn written_between(core: &Core, from: u32, to: u32) -> u64
    requires { to ≤ length core.now.order }
    ensures { result ≡ in_word (sum_by (size.written_at core.now) (range_with_len from (to - from))) }
{
    let mut bytes = 0u64;
    for n in from..to {
        bytes = bytes.saturating_add(written_at(core, n));
    }
    bytes
}

/// What the entries at and behind a place have in the text and may still come to have.
pub(crate) fn sizes_behind(core: &Core, from: u32) -> u64
    requires { IsReached core.now }
    ensures { result ≡ in_word (sum_by (size.size_at core.now) (range_with_len from (length core.now.order - from))) }
{
    let mut bytes = 0u64;
    for n in from..core.entries() {
        bytes = bytes.saturating_add(size_at(core, n));
    }
    bytes
}

/// The first entry at or behind a place that has not ended, or the end of the order.
pub(crate) fn first_unended(core: &Core, from: u32) -> u32
    ensures behind { from ≤ length core.now.order → from ≤ result }
    ensures there { result ≤ length core.now.order }
    ensures ended { (n : ℕ) → from ≤ n → n < result → has_ended core.now n ≡ true }
{
    for n in from..core.entries() {
        if !core.is_ended(n) {
            return n;
        }
    }
    core.entries()
}

/// No document is longer than a document may be: they are looked at for the proof alone.
pub(crate) fn documents_hold(setup: &Setup)
    ensures { HoldsDocuments setup.now }
{
    for content in setup.contents() {
        let _bytes = content.bytes();
    }
}
