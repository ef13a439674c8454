//! The replies of a block, which are taken line by line.
ghost use Rattle.std.specs.Prelude.{◌≡◌, ◌<◌, ◌≤◌, IsTrue, All, length};
ghost use Rattle.bl_order.specs.Headline.{IsReached};
ghost use Rattle.bl_order.specs.Labels.{tag};
ghost use Rattle.bl_order.specs.Machine.{has_ended};
ghost use Rattle.bl_hall.specs.Chronicle.{state_now};
ghost use Rattle.bl_session.specs.Blocks.{IsInFront, behind, left_in};
ghost use Rattle.bl_session.specs.Pages.{ordinal_of};

use bl_core::machine::Core;
use bl_core::origin::Origin;
use bl_hall::hall::Hall;

/// The places of the entries of a block, in order of their labels. The replies to those before the position `next` have
/// been taken.
#[derive(Drop)]
pub struct Block {
    pub places: Vec<u32>,
    pub next: usize,
}

/// The ordinal of the line that an entry stands below.
fn ordinal_of(core: &Core, n: u32) -> u32
    requires reached { IsReached core.now }
    requires there { n < length core.now.order }
    ensures { result ≡ ordinal_of (tag core.now.order n) }
{
    let mut at = n;
    'up: loop {
        match core.origin(at) {
            Some(Origin::Child { parent, .. }) => at = parent,
            Some(Origin::Line { ordinal, .. }) => return ordinal,
            None => unreachable!(),
        }
    }
}

impl Block {
    /// The next place, where its line has no ordinal above `most`.
    pub fn front(&self, hall: &Hall, most: u32) -> Option<u32>
        requires ended { All (λ p. IsTrue (has_ended (state_now hall.now) p)) self.now.places.items }
        requires within { self.now.next ≤ length self.now.places.items }
        ensures { IsInFront (state_now hall.now) self.now most result }
    {
        if self.next >= self.places.len() {
            return None;
        }
        let n = self.places[self.next];
        if ordinal_of(hall.core(), n) > most {
            return None;
        }
        Some(n)
    }

    /// Passes the replies to the lines up to an ordinal.
    pub fn pass(&mut self, hall: &Hall, most: u32)
        requires ended { All (λ p. IsTrue (has_ended (state_now hall.now) p)) self.old.places.items }
        requires within { self.old.next ≤ length self.old.places.items }
        ensures places { self.new.places.items ≡ self.old.places.items }
        ensures within { self.new.next ≤ length self.new.places.items }
        ensures left { left_in (state_now hall.now) self.new ≡ behind most (left_in (state_now hall.now) self.old) }
    {
        'places: while let Some(_) = self.front(hall, most) {
            self.next += 1;
        }
    }
}
