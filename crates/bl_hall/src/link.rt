//! How the places of a session hang together.
ghost use Rattle.std.specs.Prelude.{◌≡◌, ◌<◌, ◌≤◌, ◌+◌, ◌-◌, ◌^◌, ◌++◌, ◌∷◌, IsTrue, [], length, slice_set, vec_len};
ghost use Rattle.std.specs.Prelude.{None, Some, if◌then◌else◌};
ghost use Rattle.std.specs.Vec.{vec_capacity};
ghost use Rattle.bl_order.specs.Machine.{has_ended};
ghost use Rattle.bl_hall.specs.Linked.{HaveEntered, lead_to, link_at, more_awaited, one_less, tally_at};

use crate::maybe_place::MaybePlace;
use bl_core::machine::Core;
use bl_core::session::SessionNo;

/// Whose entry a place has, and where it leads.
#[derive(Drop)]
pub(crate) struct Link {
    pub(crate) session: SessionNo,
    /// The next place of the same line, in order of labels.
    pub(crate) next: MaybePlace,
    /// Of a line: the place of its session's line before it.
    pub(crate) earlier: MaybePlace,
}

const _: () = prove!(size_of::<Link>() == 12);

/// What is kept of a session.
#[derive(Drop)]
pub(crate) struct Tally {
    /// How many of its entries have not ended.
    pub(crate) awaited: u32,
    /// The place of its last line.
    pub(crate) line: MaybePlace,
}

/// Links a line of a session that has entered at place n.
pub(crate) fn link_line(links: &mut Vec<Link>, tallies: &mut Vec<Tally>, session: SessionNo, n: u32)
    requires room { vec_len links.old < vec_capacity links.old }
    requires there { session < length tallies.old.items }
    requires few { (tally_at tallies.old.items session).awaited + 1 < 2 ^ 32 }
    requires place { n + 1 < 2 ^ 32 }
    ensures links { links.new.items ≡ links.old.items
        ++ record { session = session; next = None; earlier = (tally_at tallies.old.items session).line } ∷ [] }
    ensures tallies { tallies.new.items ≡ slice_set tallies.old.items session
        (record { awaited = (tally_at tallies.old.items session).awaited + 1; line = Some n }) }
    ensures links_room { vec_capacity links.new ≡ vec_capacity links.old }
    ensures tallies_room { vec_capacity tallies.new ≡ vec_capacity tallies.old }
{
    let tally = &mut tallies[session.number() as usize];
    let earlier = tally.line;
    tally.awaited += 1;
    tally.line = MaybePlace::some(n);
    links.push_reserved(Link {
        session,
        next: MaybePlace::none(),
        earlier,
    });
}

/// Where a row of places leads that begins here and has so many: to the first of them, or to what stands behind it.
fn lead_to(at: u32, places: u32, behind: MaybePlace) -> MaybePlace
    requires { at + places < 2 ^ 32 }
    ensures { result ≡ lead_to at places behind }
{
    if places == 0 {
        behind
    } else {
        MaybePlace::some(at)
    }
}

/// Links so many children that have entered behind all places, whose parent is at place n.
pub(crate) fn link_children(links: &mut Vec<Link>, n: u32, children: u32)
    requires there { n < length links.old.items }
    requires room { vec_len links.old + children ≤ vec_capacity links.old }
    requires few { vec_len links.old + children < 2 ^ 32 }
    ensures links { HaveEntered links.old.items n children links.new.items }
    ensures room { vec_capacity links.new ≡ vec_capacity links.old }
{
    let first = links.len() as u32;
    let parent = &mut links[n as usize];
    let session = parent.session;
    let behind = parent.next;
    parent.next = lead_to(first, children, behind);
    'children: for i in 0..children {
        links.push_reserved(Link {
            session,
            next: lead_to(first + i + 1, children - i - 1, behind),
            earlier: MaybePlace::none(),
        });
    }
}

/// Counts the children of the entry of a place.
pub(crate) fn count_children(links: &Vec<Link>, tallies: &mut Vec<Tally>, n: u32, children: u32)
    requires there { n < length links.now.items }
    requires session { (link_at links.now.items n).session < length tallies.old.items }
    requires few { (tally_at tallies.old.items (link_at links.now.items n).session).awaited + children < 2 ^ 32 }
    ensures tallies { tallies.new.items ≡ more_awaited links.now.items tallies.old.items n children }
    ensures room { vec_capacity tallies.new ≡ vec_capacity tallies.old }
{
    let session = links[n as usize].session;
    let tally = &mut tallies[session.number() as usize];
    tally.awaited += children;
}

/// Counts that the entry of a place has ended.
pub(crate) fn count_end(links: &Vec<Link>, tallies: &mut Vec<Tally>, n: u32)
    requires there { n < length links.now.items }
    requires session { (link_at links.now.items n).session < length tallies.old.items }
    requires some { 0 < (tally_at tallies.old.items (link_at links.now.items n).session).awaited }
    ensures tallies { tallies.new.items ≡ one_less links.now.items tallies.old.items n }
    ensures room { vec_capacity tallies.new ≡ vec_capacity tallies.old }
{
    let session = links[n as usize].session;
    let tally = &mut tallies[session.number() as usize];
    tally.awaited -= 1;
}

/// Counts that the entry of a place has ended, if it has.
pub(crate) fn count_start(core: &Core, links: &Vec<Link>, tallies: &mut Vec<Tally>, n: u32)
    requires there { n < length links.now.items }
    requires session { (link_at links.now.items n).session < length tallies.old.items }
    requires some { 0 < (tally_at tallies.old.items (link_at links.now.items n).session).awaited }
    ensures tallies { tallies.new.items ≡ (if has_ended core.now n then one_less links.now.items tallies.old.items n else tallies.old.items) }
    ensures room { vec_capacity tallies.new ≡ vec_capacity tallies.old }
{
    if core.is_ended(n) {
        count_end(links, tallies, n);
    }
}
