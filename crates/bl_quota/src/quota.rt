//! The count of what the text of a trail may come to, beside a core.
use crate::sizes::{added_behind, documents_hold, first_unended, sizes_behind, written_between};
use bl_core::machine::Core;
use bl_order::laws::headline;
use bl_sizes::laws::counts_stay;
use bl_sizes::most::work_size;
use bl_work::work::Work;

/// What the head of a trail takes, with `stop` and 1,000 openings.
const FRAME: u64 = 38_026;

/// The least that a line adds, `create a`.
const LEAST: u64 = 128;

/// Whether a line may be admitted.
#[derive(Clone, Copy, Debug, PartialEq, Eq)]
pub enum Fit {
    /// The text stays within the limit, whatever comes of the line.
    Now,
    /// It may fit once others have ended: one has not.
    Later,
    /// It will never fit.
    Never,
}

/// A count of what the text of a core's trail may come to, with all that may still come of what was admitted.
///
/// What is counted is never too small: it is taken as known until a line does not fit by it. Then each entry that has
/// not ended is looked at anew, and what has ended counts as what it has.
#[derive(Drop)]
pub struct Quota {
    /// How many bytes the text may have.
    most: u32,
    /// What may come of all lines before the next place.
    count: u64,
    /// The entries from here on are not counted yet.
    seen: u32,
    /// The entries before this one have ended.
    kept: u32,
    /// What they have.
    settled: u64,
}

impl Quota {
    ghost use Rattle.std.specs.Prelude.{◌≡◌, ◌<◌, ◌≤◌, ◌+◌, ◌^◌, ◌↔◌, IsTrue};
    ghost use Rattle.bl_work.specs.Readable.{IsReadable};
    ghost use Rattle.bl_sizes.specs.Counts.{IsCounted};
    ghost use Rattle.bl_quota.specs.Quotas.{IsFit, IsFull, IsLooked, IsQuota, IsRecounted, IsSettled, WasQuota};
    ghost use Rattle.bl_quota.specs.Quotas.{limit_of};

    /// The count of a core under a limit: of a run that begins, or of one that goes on.
    pub fn new(core: &Core, most: u32) -> Quota
        ensures quota { IsQuota result core.now }
        ensures limit { limit_of result ≡ most }
    {
        documents_hold(core.setup());
        let mut quota = Quota {
            most,
            count: 0,
            seen: 0,
            kept: 0,
            settled: 0,
        };
        quota.recount(core);
        quota
    }

    /// Counts the lines that were admitted since the last look.
    fn look(&mut self, core: &Core)
        ensures counted { IsCounted core.now self.old.count self.old.seen
            → IsLooked core.now self.new.count self.new.seen }
        ensures limit { self.new.most ≡ self.old.most }
        ensures kept { self.new.kept ≡ self.old.kept }
        ensures settled { self.new.settled ≡ self.old.settled }
    {
        let more = added_behind(core, self.seen);
        self.count = self.count.saturating_add(more);
        self.seen = core.entries();
    }

    /// Settles the entries that have ended, up to the first that has not.
    fn settle(&mut self, core: &Core)
        ensures settled { IsSettled core.now self.old.kept self.old.settled
            → IsSettled core.now self.new.kept self.new.settled }
        ensures limit { self.new.most ≡ self.old.most }
    {
        let to = first_unended(core, self.kept);
        let more = written_between(core, self.kept, to);
        self.settled = self.settled.saturating_add(more);
        self.kept = to;
    }

    /// Counts anew, and answers what was written.
    fn recount(&mut self, core: &Core) -> u64
        ensures recounted { IsSettled core.now self.old.kept self.old.settled → IsRecounted core.now result self.new }
        ensures limit { self.new.most ≡ self.old.most }
    {
        // asked for the proof alone: a trail leads to the core's state
        let _policy = core.policy();
        self.settle(core);
        let entries = core.entries();
        let settled = self.settled.saturating_add(FRAME);
        self.count = settled.saturating_add(sizes_behind(core, self.kept));
        self.seen = entries;
        settled.saturating_add(written_between(core, self.kept, entries))
    }

    /// Whether so much more stays within the limit.
    fn has_room(&self, bytes: u64, more: u64) -> bool
        ensures room { IsTrue result ↔ (bytes + more ≤ self.now.most) }
        ensures few { self.now.most < 2 ^ 32 }
    {
        bytes.saturating_add(more) <= u64::from(self.most)
    }

    /// Whether a line may be admitted with this work, which some text reads as by the core's names: of a core that the
    /// quota is of, or what has come of it since. It takes no memory, and mostly only the time to read the work.
    pub fn asks(&mut self, core: &Core, work: &Work) -> Fit
        requires { IsReadable core.now.setup.names work.now }
        ensures fit { WasQuota self.old core.now → IsFit (limit_of self.old) core.now work.now result }
        ensures quota { WasQuota self.old core.now → IsQuota self.new core.now }
        ensures limit { limit_of self.new ≡ limit_of self.old }
    {
        counts_stay();
        headline();
        let more = work_size(core.names(), work);
        self.look(core);
        if self.has_room(self.count, more) {
            return Fit::Now;
        }
        let written = self.recount(core);
        if self.has_room(self.count, more) {
            Fit::Now
        } else if self.has_room(written, more) {
            Fit::Later
        } else {
            Fit::Never
        }
    }

    /// Whether no line will ever fit any more, not even the least one, of a core that the quota is of, or what has come
    /// of it since. It takes no memory.
    pub fn is_full(&mut self, core: &Core) -> bool
        ensures full { WasQuota self.old core.now → IsTrue result ↔ IsFull (limit_of self.old) core.now }
        ensures quota { WasQuota self.old core.now → IsQuota self.new core.now }
        ensures limit { limit_of self.new ≡ limit_of self.old }
    {
        counts_stay();
        headline();
        let written = self.recount(core);
        !self.has_room(written, LEAST)
    }
}
