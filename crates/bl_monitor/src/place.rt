//! What is kept of each place of the order, in place of looking back over it.
ghost use Rattle.std.specs.Prelude.{◌≡◌, ◌-◌, MatchOption, slice_index_or};
ghost use Rattle.bl_monitor.specs.Kept.{spawned_of};
ghost use Rattle.bl_monitor.specs.Places.{no_place, HasChild};

use bl_level::level::Level;
use bl_policy::denial::Denial;
use bl_policy::id::SubjectId;
use bl_work::work::Work;

/// Where an entry comes from.
#[derive(Clone, Copy)]
pub(crate) enum Origin {
    Line,
    Child { parent: u32, which: u32 },
}

/// An entry with who speaks and what is to be done: the rule of its work, or one behaviour of the work's script.
#[derive(Drop)]
pub(crate) struct Admitted {
    pub(crate) origin: Origin,
    pub(crate) lost: bool,
    pub(crate) subject: SubjectId,
    /// The level that it carries: the lowest for a line.
    pub(crate) carried: Level,
    pub(crate) work: Work,
    /// The number of the behaviour; 0 for a rule.
    pub(crate) index: u8,
}

impl Admitted {
    ghost use Rattle.std.specs.Prelude.{◌≡◌, length};
    ghost use Rattle.bl_monitor.specs.Places.{script_of, HasScript};

    /// How many behaviours the work has: a rule has none.
    pub(crate) fn behaviours(&self) -> usize
        ensures number { result ≡ length (script_of self.now.work) }
        ensures script { HasScript self.now.work }
    {
        match &self.work {
            Work::Behaviour(script) => script.weight(),
            Work::Rule(_) => 0,
        }
    }
}

/// An answered entry: the level that its children carry, what the policy had against its accesses at its place, and the
/// behaviours that it spawned if it was done.
#[derive(Drop)]
pub(crate) struct Place {
    pub(crate) admitted: Admitted,
    pub(crate) carried_by_children: Level,
    pub(crate) fault: Option<Denial>,
    pub(crate) children: Option<Vec<u8>>,
}

/// The number of the behaviour that an entry spawned as its which-th, counted from 1.
pub(crate) fn child_index(places: &[Place], parent: u32, which: u32) -> Option<u8>
    ensures { MatchOption result (¬ HasChild places.now parent which)
        (λ index. HasChild places.now parent which
        × (index ≡ slice_index_or (spawned_of (slice_index_or places.now parent no_place).children) (which - 1) 0)) }
{
    let place = places.get(parent as usize)?;
    match &place.children {
        Some(children) if which > 0 && which as usize <= children.len() => {
            Some(children[which as usize - 1])
        }
        _ => None,
    }
}
