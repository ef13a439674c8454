//! How a run keeps its trail, and how it ends.
ghost use Rattle.std.specs.Prelude.{◌≡◌, false, is_some};
ghost use Rattle.bl_trail_run.specs.Plans.{IfAsItGoes, is_kept, is_whole_in};
ghost use Rattle.bl_trail_run.specs.declared.recorded.RecordedFile.TheVariants.{Left};

use crate::begin::Start;
use crate::recorded::RecordedFile;
use bl_asked::trail::TrailFile;
use bl_keep::named::Kept;

/// A trail that is written whole at the end of its run: the runtime that has the files, and where the trail is kept.
#[derive(Drop)]
pub struct AtEnd<'a, T> {
    /// The runtime.
    pub rt: &'a T,
    /// Where the trail is kept.
    pub trail: TrailFile<'a>,
}

/// How a run keeps its trail.
#[derive(Drop)]
pub enum TrailPlan<'a, T, D> {
    /// It is written whole at the end.
    AtEnd(AtEnd<'a, T>),
    /// It is kept as the run goes, before any of it is told, in a journal in this file.
    AsItGoes(Start<D>),
}

/// What a run has of its trail at its end.
pub enum TrailEnd<D> {
    /// Nothing: none was to be kept, or the one that was to be written at the end was not kept.
    NotKept,
    /// It was written at the end, and has its name.
    Kept(Kept),
    /// The file that it was kept in as the run went.
    InFile(RecordedFile<D>),
}

/// How a run ended: its status, and what it has of its trail. It may not be dropped, as a trail that is whole may not.
pub struct RunEnd<D> {
    /// The status.
    pub status: u8,
    /// What it has of its trail.
    pub trail: TrailEnd<D>,
}

/// What a run has of a trail that was to be written at its end.
pub fn of_kept<D>(kept: Option<Kept>) -> TrailEnd<D>
    ensures { is_kept result ≡ is_some kept }
{
    match kept {
        Some(kept) => TrailEnd::Kept(kept),
        None => TrailEnd::NotKept,
    }
}

/// What a run has of its trail that has begun nothing: a file is left as it is.
pub fn left_of<T, D>(plan: TrailPlan<'_, T, D>) -> TrailEnd<D>
    ensures whole { is_whole_in result ≡ false }
    ensures kept { is_kept result ≡ false }
    ensures file { IfAsItGoes plan.entry (λ start. result ≡ TrailEnd.InFile (Left start.device)) }
{
    match plan {
        TrailPlan::AtEnd(_) => TrailEnd::NotKept,
        TrailPlan::AsItGoes(start) => TrailEnd::InFile(RecordedFile::Left(start.device)),
    }
}
