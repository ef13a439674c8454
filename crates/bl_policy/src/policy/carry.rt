// What a behaviour carries: a level below which it may alter nothing (own choice, for what its parents saw).
ghost use Rattle.std.specs.Prelude.{◌≡◌, ◌↔◌, IsTrue};
ghost use Rattle.bl_policy.specs.Policy.{lowest};
ghost use Rattle.bl_policy.specs.Properties.{MayCarry, may_carry};

use crate::access::Mode;
use bl_level::level::Level;

/// The lowest level, which every level dominates: rank 0 without categories. A behaviour without a parent carries it.
pub fn lowest_level() -> Level
    ensures { result ≡ lowest }
{
    match Level::new(0, 0) {
        Some(level) => level,
        None => unreachable!(),
    }
}

/// Whether a level is the lowest.
pub(super) fn is_lowest(level: &Level) -> bool
    ensures { IsTrue result ↔ (level.now ≡ lowest) }
{
    level.rank() == 0 && level.categories() == 0
}

/// Whether who carries a level may use a document of another one in this mode: what is altered has to dominate what is
/// carried.
pub(super) fn may_carry(carried: &Level, level: &Level, mode: Mode) -> bool
    ensures test { result ≡ may_carry carried.now level.now mode }
    ensures property { IsTrue result ↔ MayCarry carried.now level.now mode }
{
    match mode {
        Mode::Read => true,
        Mode::Append | Mode::Write => level.dominates(carried),
    }
}
