//! Lists that mostly have one item, which then needs no block of memory.
ghost use Rattle.std.specs.Prelude.{◌≡◌, ◌++◌, ◌∷◌, [], OnOk, OnErr};
ghost use Rattle.std.specs.Mem.{FitsInMemory};
ghost use Rattle.bl_work.specs.Few.{items_of, IsOne};

use std::alloc::{AllocError, Global};
use std::{mem, slice};

/// How many items a block has room for at first.
const FIRST_ROOM: usize = 4;

/// A list of items, in order. `Many` has any number of them.
#[derive(Drop)]
pub enum Few<T> {
    Nothing,
    One(T),
    Many(Vec<T>),
}

impl<T: Drop> Few<T> {
    /// These items. A block is kept for more than one alone.
    pub fn new(items: Vec<T>) -> Few<T>
        ensures { items_of result ≡ items.items }
    {
        let mut items = items;
        match items.len() {
            0 => Few::Nothing,
            1 => Few::One(items.remove(0)),
            _ => Few::Many(items),
        }
    }

    /// The items, in order.
    pub fn as_slice(&self) -> &[T]
        requires { FitsInMemory T.row }
        ensures { result.now ≡ items_of self.now }
    {
        match self {
            Few::Nothing => &[],
            Few::One(item) => slice::from_ref(item),
            Few::Many(items) => items.as_slice(),
        }
    }

    /// Adds an item behind the others. A second item takes a block. After an error the items are as before.
    #[inline(always)]
    pub fn push(&mut self, alloc: Global, item: T) -> Result<(), AllocError>
        ensures ok { OnOk result (items_of self.new ≡ items_of self.old ++ item ∷ []) }
        ensures err { OnErr result (items_of self.new ≡ items_of self.old) }
    {
        match self {
            Few::Nothing => *self = Few::One(item),
            Few::One(_) => self.push_second(alloc, item)?,
            Few::Many(items) => items.push(item)?,
        }
        Ok(())
    }

    /// Adds an item behind the only one, in a new block. After an error the items are as before.
    fn push_second(&mut self, alloc: Global, item: T) -> Result<(), AllocError>
        requires { IsOne self.old }
        ensures ok { OnOk result (items_of self.new ≡ items_of self.old ++ item ∷ []) }
        ensures err { OnErr result (items_of self.new ≡ items_of self.old) }
    {
        let mut items = Vec::with_capacity(alloc, FIRST_ROOM)?;
        match mem::replace(self, Few::Nothing) {
            Few::One(first) => items.push_reserved(first),
            Few::Nothing | Few::Many(_) => unreachable!(),
        }
        items.push_reserved(item);
        *self = Few::Many(items);
        Ok(())
    }
}
