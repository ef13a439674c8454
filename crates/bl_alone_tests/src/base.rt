//! A run over the base setup, and its trail.
ghost use Rattle.std.specs.Prelude.{◌≡◌, false};
ghost use Rattle.bl_disk.specs.File.{seen};
ghost use Rattle.bl_disk_tests.specs.OfTorn.{torn_now};
ghost use Rattle.bl_record.specs.Torn.{IsTornHead};

use crate::titled::Titled;
use bl_alone::alone::alone_planned_on;
use bl_alone::alone_run::AloneRun;
use bl_disk_tests::torn::Torn;
use bl_trail_run::begin::Start;
use bl_trail_run::plan::{RunEnd, TrailEnd, TrailPlan};
use bl_trail_run::recorded::RecordedFile;
use bl_wire::watched::Watched;
use std::alloc::{AllocError, Global};

/// The setup of the worked examples.
const BASE: &[u8] = b"ranks u c s t\ncategories nato crypto\n\
    subject ann greatest s{nato} current s{nato}\n\
    subject bob greatest s{nato} current u\n\
    subject cat greatest s{crypto} current s{crypto}\n\
    subject root greatest t{nato,crypto} current u trusted admin\n\
    document memo s{nato} \"m1\"\n\
    document note u \"n1\"\n\
    document log t{nato,crypto} \"\"\n\
    allow ann memo r w\nallow ann note r w\nallow ann log r a\n\
    allow bob memo r w a\nallow bob note r w\nallow cat memo r\nallow root note r w\n";

/// A session of two blocks.
pub(crate) const LINES: &[u8] =
    b"hello ann\nwhen read memo do show memo; end\nwait\nwhen read note do show note; end\n";

/// What is told of it, in order, and what of its trail has to be kept before each.
pub(crate) const TOLD: [(&str, &str); 3] = [
    ("ok\n", "trail 2\nlimit 10000\nopen ann\n"),
    (
        "1 done \"m1\"\nok\n",
        "line 0 1 when read memo do show memo;end\nstart 0 run\nend 0 done \"m1\"\n",
    ),
    (
        "2 done \"n1\"\nbye\n",
        "line 0 2 when read note do show note;end\nstart 1 run\nend 1 done \"n1\"\n",
    ),
];

/// All that is told of it.
pub(crate) const OUTPUT: &[u8] = b"ok\n1 done \"m1\"\nok\n2 done \"n1\"\nbye\n";

/// Its trail.
pub(crate) const TRAIL: &[u8] = b"trail 2\nlimit 10000\nopen ann\n\
    line 0 1 when read memo do show memo;end\nstart 0 run\nend 0 done \"m1\"\n\
    line 0 2 when read note do show note;end\nstart 1 run\nend 1 done \"n1\"\nstop\n";

/// For so many bytes a file has room, and so many of its syncs succeed, where nothing is to fail.
pub(crate) const AMPLE: usize = 100_000;

/// How a run ended, what it told and said, and what is kept in its file.
#[derive(Drop)]
pub(crate) struct Ran {
    pub(crate) status: u8,
    pub(crate) is_whole: bool,
    pub(crate) told: Vec<u8>,
    pub(crate) said: Vec<u8>,
    pub(crate) kept: Vec<u8>,
}

/// Whether the trail in the file of a run is whole, and the file; none where it has no file.
fn parts_of(trail: TrailEnd<Titled<Torn>>) -> (bool, Option<Torn>) {
    let (is_whole, titled) = match trail {
        TrailEnd::InFile(RecordedFile::Whole(closed)) => (true, closed.end()),
        TrailEnd::InFile(RecordedFile::Left(titled)) => (false, titled),
        TrailEnd::NotKept | TrailEnd::Kept(_) => return (false, None),
    };
    let Titled { device } = titled;
    (is_whole, Some(device))
}

/// The bytes that are kept in a file.
fn kept_in(alloc: Global, torn: Option<Torn>) -> Result<Vec<u8>, AllocError> {
    match torn {
        Some(torn) => torn.now().kept.to_vec(alloc),
        None => Ok(Vec::new(alloc)),
    }
}

/// A run over a setup that starts from this.
fn run_from(alloc: Global, setup: &[u8], start: Start<Titled<Torn>>) -> Result<Ran, AllocError>
    requires sound { start.device.device.failed ≡ false }
    requires fresh { start.resumes ≡ false → IsTornHead (seen (torn_now start.device.device)) }
{
    let run = AloneRun {
        alloc,
        limit: 10_000,
    };
    let plan: TrailPlan<'_, HostRuntime, Titled<Torn>> = TrailPlan::AsItGoes(start);
    let mut reader = Watched::new(LINES);
    let mut writer = Watched::new(Vec::new(alloc));
    let mut errors = Watched::new(Vec::new(alloc));
    let RunEnd { status, trail } = alone_planned_on(
        &run,
        setup,
        plan,
        &mut reader,
        &mut writer,
        &mut errors,
    );
    let (is_whole, torn) = parts_of(trail);
    let kept = kept_in(alloc, torn)?;
    Ok(Ran {
        status,
        is_whole,
        told: writer.into_inner(),
        said: errors.into_inner(),
        kept,
    })
}

/// A run over a file with these bytes, which has room for so many more, and of which so many syncs succeed.
pub(crate) fn run_over(
    alloc: Global,
    setup: &[u8],
    bytes: &[u8],
    room: usize,
    syncs: usize,
) -> Result<Ran, AllocError>
    requires { IsTornHead bytes.now }
{
    let device = Titled {
        device: Torn::new(alloc, bytes, room, syncs)?,
    };
    let resumes = false;
    run_from(alloc, setup, Start { device, resumes })
}

/// A run over the base setup and an empty file.
pub(crate) fn run_base(alloc: Global, room: usize, syncs: usize) -> Result<Ran, AllocError> {
    run_over(alloc, BASE, b"", room, syncs)
}

/// A run over the base setup and a file with these bytes, which are a torn head.
pub(crate) fn run_after(alloc: Global, bytes: &[u8]) -> Result<Ran, AllocError>
    requires { IsTornHead bytes.now }
{
    run_over(alloc, BASE, bytes, AMPLE, AMPLE)
}

/// A session over the base setup that goes on from the run that left a file with these bytes, of which so many syncs
/// succeed.
pub(crate) fn resume_after(alloc: Global, bytes: &[u8], syncs: usize) -> Result<Ran, AllocError> {
    let device = Titled {
        device: Torn::new(alloc, bytes, AMPLE, syncs)?,
    };
    let resumes = true;
    run_from(alloc, BASE, Start { device, resumes })
}
