//! What runs, by place.
ghost use Rattle.std.specs.Prelude.{◌≡◌, ◌==◌, ◌^◌, ◌<◌, ℕ, [], length, IfOk, OnOk, Some, None, if◌then◌else◌};
ghost use Rattle.std.specs.Prelude.{option_to_list};
ghost use Rattle.std.specs.List.{flat_map};
ghost use Rattle.bl_rebuild.specs.Unfinished.{slot_at};

use crate::unfinished::Unfinished;
use bl_eval::lent::Lent;
use std::alloc::{AllocError, Global};

/// A slot for each place up to the last one that ever ran, with what the place was lent while it runs.
#[derive(Drop)]
pub(crate) struct Slots {
    slots: Vec<Option<Unfinished>>,
}

impl Slots {
    /// No place.
    pub(crate) fn new(alloc: Global) -> Slots
        ensures { result.slots.items ≡ [] }
    {
        Slots {
            slots: Vec::new(alloc),
        }
    }

    /// Makes room for this place.
    fn grow(&mut self, at: usize) -> Result<(), AllocError>
        requires { at < 2 ^ 32 }
        ensures same { OnOk result ((k : ℕ) → slot_at self.new.slots.items k ≡ slot_at self.old.slots.items k) }
        ensures there { OnOk result (at < length self.new.slots.items) }
    {
        if at < self.slots.len() {
            return Ok(());
        }
        let more = at + 1 - self.slots.len();
        for _ in 0..more {
            self.slots.push(None)?;
        }
        Ok(())
    }

    /// Keeps what a place was lent.
    pub(crate) fn put(&mut self, n: u32, lent: Lent) -> Result<(), AllocError>
        ensures { OnOk result ((k : ℕ) → slot_at self.new.slots.items k ≡
            (if k == n then Some lent else slot_at self.old.slots.items k)) }
    {
        let unfinished = Unfinished::new(lent);
        let at = n as usize;
        self.grow(at)?;
        self.slots[at] = Some(unfinished);
        Ok(())
    }

    /// Hands over what a place was lent; `None` where it does not run.
    pub(crate) fn take(&mut self, n: u32) -> Option<Lent>
        ensures value { result ≡ slot_at self.old.slots.items n }
        ensures rest { (k : ℕ) → slot_at self.new.slots.items k ≡
            (if k == n then None else slot_at self.old.slots.items k) }
    {
        let at = n as usize;
        if at >= self.slots.len() {
            return None;
        }
        match self.slots[at].take() {
            Some(unfinished) => Some(unfinished.into_lent()),
            None => None,
        }
    }

    /// What all places were lent that run, in their order. An error comes only where a growth is refused.
    pub(crate) fn into_running(self, alloc: Global) -> Result<Vec<Unfinished>, AllocError>
        ensures { IfOk result (λ running. running.items ≡ flat_map option_to_list self.slots.items) }
    {
        let Slots { slots } = self;
        let mut running = Vec::new(alloc);
        for slot in slots {
            if let Some(unfinished) = slot {
                running.push(unfinished)?;
            }
        }
        Ok(running)
    }
}
