//! One cown: how many claims hold it, and which wait for it.
ghost use Rattle.std.specs.Prelude.{◌≡◌, ◌+◌, ◌<◌, ◌^◌};
ghost use Rattle.bl_queue.specs.Holders.{may_hold, is_held_at_once, joined_cown};

/// A claim, and the number of its entry.
#[derive(Clone, Copy)]
pub(crate) struct Held {
    pub(crate) cown: u32,
    pub(crate) shared: bool,
    pub(crate) entry: u32,
}

/// How many claims hold a cown and whether they share it, the place of the first claim that waits for it, and of the last
/// claim of all.
#[derive(Clone, Copy)]
pub(crate) struct Cown {
    pub(crate) holders: u32,
    pub(crate) shared: bool,
    pub(crate) first: Option<u32>,
    pub(crate) last: Option<u32>,
}

impl Cown {
    /// Whether a further claim may hold the cown too.
    pub(crate) fn may_hold(self, shared: bool) -> bool
        ensures { result ≡ may_hold self shared }
    {
        self.holders == 0 || (shared && self.shared)
    }

    /// Whether a claim that comes now holds the cown.
    pub(crate) fn is_held_at_once(self, shared: bool) -> bool
        ensures { result ≡ is_held_at_once self shared }
    {
        self.first.is_none() && self.may_hold(shared)
    }

    /// The cown with a claim more, at this place.
    pub(crate) fn joined(self, shared: bool, place: u32) -> Cown
        requires { self.holders + 1 < 2 ^ 32 }
        ensures { result ≡ joined_cown self shared place }
    {
        if self.is_held_at_once(shared) {
            return Cown {
                holders: self.holders + 1,
                shared,
                first: None,
                last: Some(place),
            };
        }
        Cown {
            first: Some(self.first.unwrap_or(place)),
            last: Some(place),
            ..self
        }
    }
}
