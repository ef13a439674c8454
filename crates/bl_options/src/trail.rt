//! What options say of a trail.
ghost use Rattle.std.specs.Prelude.{◌≡◌, ◌↔◌, ℕ, Bool, IfNone, IfSome, IsTrue, codes};
ghost use Rattle.bl_options.specs.Ranges.{IsTrailLimit, MayKeep};
ghost use Rattle.bl_options.specs.Said.{HasKeeping, HasNumber, HasResume, HasSyncing, HasTrail, HasTrailFile};
ghost use Rattle.bl_options.specs.declared.trail.TrailKeeping.{TrailKeeping as AnyKeeping};

use crate::number::{is_said, number};
use bl_asked::trail::TrailFile;
use bl_command_line::bounds::{LEAST_TRAIL, MOST_TRAIL};
use clap::ArgMatches;

/// When the lines of a trail are written, and what they outlive then.
#[derive(Clone, Copy, Debug, PartialEq, Eq)]
pub enum TrailKeeping {
    /// At the end of the run.
    AtEnd,
    /// Before a reply shows them; they outlive the end of the program.
    Written,
    /// The same, and they are on the disk by then; they outlive the end of the machine.
    Synced,
}

/// How many bytes the options say that the trail may have; `None` where that is no number in its range.
pub fn trail_limit_of(options: &ArgMatches<'_>) -> Option<u32>
    ensures range { IfSome result IsTrailLimit }
    ensures written { IfSome result (HasNumber options.now (codes "trail-limit")) }
    ensures none { IfNone result ((n : ℕ) → HasNumber options.now (codes "trail-limit") n → IsTrailLimit n → ⊥) }
{
    number(options, "trail-limit", LEAST_TRAIL, MOST_TRAIL)
}

/// The file of this name, with what the options say of it.
fn trail_file<'a>(options: &ArgMatches<'_>, name: &'a str) -> TrailFile<'a>
    ensures { HasTrailFile options.now name.entry.now result }
{
    TrailFile {
        name,
        replaces: options.get_flag("replace"),
        claims: options.get_flag("claim-trail"),
    }
}

/// The trail file that the options name; `None` where they name none.
pub fn trail_of<'a>(options: &ArgMatches<'a>) -> Option<TrailFile<'a>>
    ensures { HasTrail options.now result }
{
    match options.get_str("trail") {
        Some(name) => Some(trail_file(options, name)),
        None => None,
    }
}

/// How the options say that a trail is kept; `None` where they say it by no word for that.
pub fn keeping_of(options: &ArgMatches<'_>) -> Option<TrailKeeping>
    ensures written { IfSome result (HasKeeping options.now) }
    ensures none { IfNone result ((keeping : AnyKeeping) → HasKeeping options.now keeping → ⊥) }
{
    match options.get_str("keep")? {
        "end" => Some(TrailKeeping::AtEnd),
        "written" => Some(TrailKeeping::Written),
        "synced" => Some(TrailKeeping::Synced),
        _ => None,
    }
}

/// Whether the options say that the run goes on from one that was cut off.
pub fn resumes(options: &ArgMatches<'_>) -> bool
    ensures { HasResume options.now result }
{
    options.get_str("resume") == Some("true")
}

/// Whether a trail may be kept so: only one that is asked for is written while the run goes on, and only such a run
/// goes on from another.
pub fn may_keep(there: bool, keeping: TrailKeeping, resumes: bool) -> bool
    ensures { IsTrue result ↔ MayKeep there keeping resumes }
{
    match keeping {
        TrailKeeping::AtEnd => !resumes,
        TrailKeeping::Written | TrailKeeping::Synced => there,
    }
}

/// Whether the options of a chain say that what was told outlives the end of the machine too; `None` where they say
/// that a trail is kept in another way than the two of a chain.
pub fn syncing_of(options: &ArgMatches<'_>) -> Option<bool>
    ensures written { IfSome result (HasSyncing options.now) }
    ensures none { IfNone result ((synced : Bool) → HasSyncing options.now synced → ⊥) }
{
    if !is_said(options, "keep") {
        return Some(true);
    }
    match keeping_of(options)? {
        TrailKeeping::AtEnd => None,
        TrailKeeping::Written => Some(false),
        TrailKeeping::Synced => Some(true),
    }
}
