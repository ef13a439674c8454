//! Ways over the links: the lines of a session, the places of each of them, and the label of a place.
ghost use Rattle.std.specs.Prelude.{◌≡◌, ◌<◌, ◌++◌, ℕ, [], All, List, IfOk, OnErr, OnOk, length, reverse};
ghost use Rattle.std.specs.Prelude.{slice_index_or, Some};
ghost use Rattle.bl_work.specs.Few.{items_of};
ghost use Rattle.bl_order.specs.Headline.{IsReached};
ghost use Rattle.bl_order.specs.Labels.{tag};
ghost use Rattle.bl_order.specs.Past.{no_entry};
ghost use Rattle.bl_hall.specs.Keeps.{AreLinks};
ghost use Rattle.bl_hall.specs.Linked.{AreGathered, AreLinesAbove, HasFamily, Leads, earlier_in, line_ordinal};
ghost use Rattle.bl_hall.specs.Linked.{lines_below, next_in, places_with};
ghost use Rattle.bl_hall.specs.Told.{is_above};

use crate::link::{Link, Tally};
use bl_core::machine::Core;
use bl_core::origin::Origin;
use bl_core::session::SessionNo;
use bl_work::few::Few;
use std::alloc::{AllocError, Global};

/// The ordinal of a line; 0 for a child, and where there is no entry.
fn ordinal(core: &Core, n: u32) -> u32
    ensures { result ≡ line_ordinal (slice_index_or core.now.order n no_entry) }
{
    match core.origin(n) {
        Some(Origin::Line { ordinal, .. }) => ordinal,
        Some(Origin::Child { .. }) => 0,
        None => 0,
    }
}

/// The places of the lines of a session above an ordinal, the last one first.
fn lines_above(
    alloc: Global,
    core: &Core,
    links: &[Link],
    tally: &Tally,
    session: SessionNo,
    after: u32,
) -> Result<Vec<u32>, AllocError>
    requires links { AreLinks core.now.order links.now }
    requires lines { Leads (earlier_in links.now) tally.now.line
        (lines_below core.now.order session (length core.now.order)) }
    ensures { IfOk result (λ lines. AreLinesAbove core.now.order session after lines.items) }
{
    // the contract alone speaks of the session
    let _ = session;
    let mut lines = Vec::new(alloc);
    let mut at = tally.line.get();
    'lines: while let Some(line) = at {
        if ordinal(core, line) <= after {
            return Ok(lines);
        }
        lines.push(line)?;
        at = links[line as usize].earlier.get();
    }
    Ok(lines)
}

/// Adds the places of a line and of its descendants, in order of their labels.
fn push_family(links: &[Link], line: u32, places: &mut Vec<u32>) -> Result<(), AllocError>
    requires { HasFamily links.now line }
    ensures { OnOk result ((family : List ℕ) × Leads (next_in links.now) (Some line) family
        × (places.new.items ≡ places.old.items ++ family)) }
{
    let mut at = Some(line);
    'places: while let Some(n) = at {
        places.push(n)?;
        at = links[n as usize].next.get();
    }
    Ok(())
}

/// The places of these lines and of their descendants, line by line from the last one of them.
fn gather_families(alloc: Global, links: &[Link], lines: Vec<u32>) -> Result<Vec<u32>, AllocError>
    requires { All (HasFamily links.now) lines.items }
    ensures { IfOk result (λ places. AreGathered links.now lines.items places.items) }
{
    let mut lines = lines;
    let mut places = Vec::new(alloc);
    'lines: while let Some(line) = lines.pop() {
        push_family(links, line, &mut places)?;
    }
    Ok(places)
}

/// The places of the lines of a session above an ordinal and of their descendants, in order of their labels.
pub(crate) fn places_above(
    alloc: Global,
    core: &Core,
    links: &[Link],
    tally: &Tally,
    session: SessionNo,
    after: u32,
) -> Result<Vec<u32>, AllocError>
    requires reached { IsReached core.now }
    requires links { AreLinks core.now.order links.now }
    requires lines { Leads (earlier_in links.now) tally.now.line
        (lines_below core.now.order session (length core.now.order)) }
    ensures { IfOk result (λ places. places.items ≡ places_with core.now.order (is_above session after)
        (length core.now.order)) }
{
    let lines = lines_above(alloc, core, links, tally, session, after)?;
    gather_families(alloc, links, lines)
}

/// Adds the label of an entry to what is empty, from the entry's own number up to its line's ordinal.
fn climb(core: &Core, n: u32, label: &mut Vec<u32>) -> Result<(), AllocError>
    requires reached { IsReached core.now }
    requires there { n < length core.now.order }
    requires empty { label.old.items ≡ [] }
    ensures { OnOk result (label.new.items ≡ reverse (tag core.now.order n).label) }
{
    let mut at = n;
    'up: loop {
        match core.origin(at) {
            Some(Origin::Child { parent, which }) => {
                label.push(which)?;
                at = parent;
            }
            Some(Origin::Line { ordinal, .. }) => {
                label.push(ordinal)?;
                return Ok(());
            }
            None => unreachable!(),
        }
    }
}

/// Puts the label of an entry into `label`, which an error leaves empty.
pub(crate) fn write_label(core: &Core, n: u32, label: &mut Vec<u32>) -> Result<(), AllocError>
    requires reached { IsReached core.now }
    requires there { n < length core.now.order }
    ensures ok { OnOk result (label.new.items ≡ (tag core.now.order n).label) }
    ensures err { OnErr result (label.new.items ≡ []) }
{
    label.clear();
    match climb(core, n, label) {
        Ok(()) => {
            label.reverse();
            Ok(())
        }
        Err(refused) => {
            label.clear();
            Err(refused)
        }
    }
}

/// The label of an entry. That of a line takes no memory.
pub(crate) fn label_of(alloc: Global, core: &Core, n: u32) -> Result<Few<u32>, AllocError>
    requires reached { IsReached core.now }
    requires there { n < length core.now.order }
    ensures { IfOk result (λ label. items_of label ≡ (tag core.now.order n).label) }
{
    if let Some(Origin::Line { ordinal, .. }) = core.origin(n) {
        return Ok(Few::One(ordinal));
    }
    let mut label = Vec::new(alloc);
    write_label(core, n, &mut label)?;
    Ok(Few::Many(label))
}
