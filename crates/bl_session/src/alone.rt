//! A session with one worker, in one thread: lines are admitted without being run, and at each
//! `wait` and at the end of the input they are run in admission order, over a hall of their own.
ghost use Rattle.std.specs.Prelude.{◌≡◌, ◌≢◌, ◌≤◌, false, OnOk, IfErr, IsSome};
ghost use Rattle.bl_wire.specs.Watch.{used};
ghost use Rattle.bl_wire.specs.declared.fault.SessionFault.TheVariants.{Clash};
ghost use Rattle.bl_session.specs.Ended.{HasEnded, HasEndedAfter, TellsKept, TellsKeptAfter, hall_of};
ghost use Rattle.bl_session.specs.Keeping.{IsHeld, MayStop};
ghost use Rattle.bl_session.specs.One.{new_hall};
ghost use Rattle.bl_session.specs.Outcome.{IsCutShort, IsServed};
ghost use Rattle.bl_session.specs.Pages.{MayBegin};

pub use crate::entries::sessions_in;
use crate::entries::{Alone, Pages, begin, hall_over};
use crate::keep::{Keep, NoKeep, Stop};
use crate::talk::converse_alone;
use bl_hall::hall::Hall;
use bl_setup::setup::Setup;
use bl_wire::fault::SessionFault;
use bl_wire::watched::Watched;
use std::alloc::Global;
use std::io::{BufRead, Write};

/// What a session kept to its end: its setup and its hall, with all entries. To drop it takes a step for each
/// entry; a process that ends behind its session may forget it, and leave the memory to the system.
#[derive(Drop)]
pub struct Kept {
    behind: Alone,
    pages: Pages,
}

impl Kept {
    /// The hall, with the trail of the session.
    pub fn hall(&self) -> &Hall
        ensures { result.now ≡ self.now.pages.hall }
    {
        &self.pages.hall
    }
}

/// Serves one session over a reader and a writer. The admitted lines weigh at most `limit` together, one for each
/// `when`. The limit is 1 to 100,000.
///
/// At `Ok` the input was read to its end, or to the end of a first line that was refused, and its
/// transcript is written and handed on. `Read` and `Write` come only where that end failed, and that
/// end alone, `TooLong` only where 16,777,216 bytes were read and another one is there, and `Clash`
/// never. After a fault what is written begins a transcript, nothing more is written, and what was
/// not consumed stays unread.
pub fn serve_alone<R: BufRead, W: Write>(
    alloc: Global,
    setup: Setup,
    limit: u32,
    reader: &mut Watched<R>,
    writer: &mut Watched<W>,
) -> Result<(), SessionFault>
    requires limit { (1 ≤ limit) × (limit ≤ 100000) }
    requires fine { (reader.old.failed ≡ false) × (writer.old.failed ≡ false) }
    ensures ok { OnOk result (IsServed setup limit
        (used R.remaining reader.old reader.new) (used W.contents writer.old writer.new)) }
    ensures handed_on { OnOk result (writer.new.unflushed ≡ false) }
    ensures err { IfErr result (λ fault. IsCutShort setup limit fault
        (used R.remaining reader.old reader.new) (used W.contents writer.old writer.new)) }
    ensures never { IfErr result (λ fault. fault ≢ Clash) }
{
    let (served, kept) = serve_and_keep(alloc, setup, limit, reader, writer);
    drop(kept);
    served
}

/// Serves one session as `serve_alone` does, and hands back what it kept; nothing where there was no memory for it to
/// begin.
pub fn serve_and_keep<R: BufRead, W: Write>(
    alloc: Global,
    setup: Setup,
    limit: u32,
    reader: &mut Watched<R>,
    writer: &mut Watched<W>,
) -> (Result<(), SessionFault>, Option<Kept>)
    requires limit { (1 ≤ limit) × (limit ≤ 100000) }
    requires fine { (reader.old.failed ≡ false) × (writer.old.failed ≡ false) }
    ensures ok { OnOk result.0 (IsServed setup limit
        (used R.remaining reader.old reader.new) (used W.contents writer.old writer.new)) }
    ensures handed_on { OnOk result.0 (writer.new.unflushed ≡ false) }
    ensures err { IfErr result.0 (λ fault. IsCutShort setup limit fault
        (used R.remaining reader.old reader.new) (used W.contents writer.old writer.new)) }
    ensures never { IfErr result.0 (λ fault. fault ≢ Clash) }
    ensures kept { OnOk result.0 (IsSome result.1) }
{
    let (served, kept) = serve_keeping(alloc, setup, limit, &mut NoKeep, reader, writer);
    match served {
        Ok(()) => (Ok(()), kept),
        Err(Stop::Fault(fault)) => (Err(fault), kept),
        Err(Stop::NotKept) => unreachable!(),
    }
}

/// Serves one session in a hall that has a past, over its setup: all that had been admitted there has ended, and fewer
/// than 1,000 sessions were opened. It is the next one after those, and has what room they have left. Its trail is kept
/// before any of it is told: that it is open, and the replies to each block. Who keeps it has come as far as this hall.
///
/// The results are as `serve_keeping` has them, by what has happened since.
pub fn serve_after<K: Keep, R: BufRead, W: Write>(
    alloc: Global,
    setup: Setup,
    hall: Hall,
    keep: &mut K,
    reader: &mut Watched<R>,
    writer: &mut Watched<W>,
) -> (Result<(), Stop>, Kept)
    requires hall { MayBegin setup hall }
    requires reached { K.reached keep.old hall }
    requires fine { (reader.old.failed ≡ false) × (writer.old.failed ≡ false) }
    ensures ended { HasEndedAfter hall result.1.pages.hall result.0
        (used R.remaining reader.old reader.new) (used W.contents writer.old writer.new) }
    ensures handed_on { OnOk result.0 (writer.new.unflushed ≡ false) }
    ensures never { IfErr result.0 (MayStop K.may_fail) }
    ensures told { TellsKeptAfter hall result.1.pages.hall (IsHeld (K.reached keep.new) (K.has_kept keep.new) result.0)
        (used R.remaining reader.old reader.new) (used W.contents writer.old writer.new) }
{
    let (behind, mut pages) = begin(alloc, setup, hall);
    let served = converse_alone(&behind, &mut pages, keep, reader, writer);
    (served, Kept { behind, pages })
}

/// Serves one session as `serve_and_keep` does, and has its trail kept before any of it is told: that it is open, and
/// the replies to each block. Who keeps it has come as far as a hall in which nothing has happened.
///
/// All that is written was told of a trail that is kept, also after a fault, and the hall that is handed back has
/// gone on from there, so that it may be reached next. `NotKept` comes where the trail was not kept and cannot be;
/// what is written is as where memory was refused. `Memory` comes also where a growth was refused to who keeps it.
pub fn serve_keeping<K: Keep, R: BufRead, W: Write>(
    alloc: Global,
    setup: Setup,
    limit: u32,
    keep: &mut K,
    reader: &mut Watched<R>,
    writer: &mut Watched<W>,
) -> (Result<(), Stop>, Option<Kept>)
    requires limit { (1 ≤ limit) × (limit ≤ 100000) }
    requires reached { K.reached keep.old (new_hall setup limit) }
    requires fine { (reader.old.failed ≡ false) × (writer.old.failed ≡ false) }
    ensures ended { HasEnded setup limit (hall_of result.1) result.0
        (used R.remaining reader.old reader.new) (used W.contents writer.old writer.new) }
    ensures handed_on { OnOk result.0 (writer.new.unflushed ≡ false) }
    ensures never { IfErr result.0 (MayStop K.may_fail) }
    ensures kept { OnOk result.0 (IsSome result.1) }
    ensures told { TellsKept setup limit result.1 (IsHeld (K.reached keep.new) (K.has_kept keep.new) result.0)
        (used R.remaining reader.old reader.new) (used W.contents writer.old writer.new) }
{
    let Ok(hall) = hall_over(alloc, &setup, limit) else {
        drop(setup);
        return (Err(Stop::Fault(SessionFault::Memory)), None);
    };
    let (served, kept) = serve_after(alloc, setup, hall, keep, reader, writer);
    (served, Some(kept))
}
