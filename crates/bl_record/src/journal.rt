//! The journal of a hall: the head of a trail and a line for each event, in a file, and at its end `stop`.
ghost use Rattle.std.specs.Prelude.{◌≡◌, ◌≢◌, ◌++◌, [], codes, Err, false, IfErr, IfOk, IfSome, IsOk, length, None};
ghost use Rattle.std.specs.Prelude.{OnOk, Some, true};
ghost use Rattle.bl_audit.specs.Bookmarks.{HasGrown, IsBookmark};
ghost use Rattle.bl_disk.specs.declared.device.DeviceError.TheVariants.{Memory as NoRoom};
ghost use Rattle.bl_disk.specs.File.{Keeps, all_kept, seen};
ghost use Rattle.bl_disk.specs.Moments.{Passes};
ghost use Rattle.bl_hall.specs.Chronicle.{Chronicle};
ghost use Rattle.bl_journal.specs.Journals.{journal_text};
ghost use Rattle.bl_rebuild.specs.Rebuilds.{journal_of};
ghost use Rattle.bl_record.specs.declared.fault.JournalFault.TheVariants.{Device as DeviceFault, Memory};
ghost use Rattle.bl_record.specs.Faults.{IsCaused};
ghost use Rattle.bl_record.specs.Torn.{IsTornHead};
ghost use Rattle.bl_record.specs.Kept.{AreLastLines, AreLines, HasFailedBy, IsKept, LosesNothing};
ghost use Rattle.bl_setup.specs.Setup.{Setup};
ghost use Rattle.bl_setup.specs.declared.version.Version.TheVariants.{Two};
ghost use Rattle.bl_trail.specs.TrueText.{IsLimit, IsTrueText, head_lines, joined};

use crate::fault::JournalFault;
use bl_audit::bookmark::Bookmark;
use bl_audit::trail::write_lines;
use bl_disk::device::{Device, DeviceError};
use bl_disk::log::{Log, reopen};
use bl_hall::hall::Hall;
use bl_journal::laws::{a_crash_loses_nothing_that_was_kept, closed_journals_are_true};
use bl_setup::version::Version;
use bl_trail::text::put_head;
use bl_wire::watched::Watched;
use std::alloc::{AllocError, Global};
use std::marker::Model;

/// A journal. Its file has the text of the trail of a hall, as far as it has kept up with that, and no `stop`.
#[derive(Drop)]
pub struct Journal<D> {
    /// The file.
    pub log: Log<D>,
    /// How far the trail was kept.
    pub bookmark: Bookmark,
    /// The fault of the device by which the journal has failed, if it has.
    pub fault: Option<DeviceError>,
}

/// Lines that a journal is to have next, each with its LF: those of all that has happened in a hall since the journal
/// kept up with it.
#[derive(Drop)]
pub struct Lines {
    /// The lines.
    pub text: Vec<u8>,
    /// How far the trail is kept once they are.
    pub bookmark: Bookmark,
}

/// The file of a journal that is closed and synced, so that the trail in it is whole. Only `Journal::close` and
/// `close_with` make one, and it may not be dropped: the trail gets its name, or is told.
pub struct Closed<D> {
    device: D,
}

/// The file of a journal to which `stop` was added, and which was synced then, as this shows.
fn close_synced<D: Device>(device: D, _synced: D::Synced) -> Closed<D>
    ensures { result ≡ device }
{
    Closed { device }
}

impl<D> Model for Closed<D> {
    ghost Value = { D };

    ghost view = { λ closed. closed.device };
}

impl<D: Device> Closed<D> {
    /// The file.
    pub fn device(&self) -> &D
        ensures { result.now ≡ self.now }
    {
        &self.device
    }

    /// The file, of which no more is said.
    pub fn end(self) -> D
        ensures { result ≡ self }
    {
        let Closed { device } = self;
        device
    }
}

/// How many bytes of text have room for each event at first: the three events of a short line take a little less.
const EVENT_ROOM: usize = 32;

/// The head of a trail of version 2.
fn head_text(alloc: Global, limit: u32) -> Result<Vec<u8>, AllocError>
    ensures { IfOk result (λ text. text.items ≡ joined (head_lines Two limit)) }
{
    let mut text = Watched::new(Vec::new(alloc));
    put_head(&mut text, Version::Two, limit);
    if text.failed() {
        return Err(AllocError);
    }
    Ok(text.into_inner())
}

/// The lines of all that has happened in a hall since a bookmark. An error comes only where a growth is refused.
fn lines_after(alloc: Global, hall: &Hall, reached: Bookmark) -> Result<Lines, AllocError>
    requires { IsBookmark hall.now reached }
    ensures { IfOk result (AreLines hall.now reached) }
{
    // asked for the proof alone: the events of a hall are a trail
    let _core = hall.core();
    let mut bookmark = reached;
    let new = hall.trail().len().saturating_sub(reached.written);
    let room = new.saturating_mul(EVENT_ROOM);
    let mut text = Watched::new(Vec::with_capacity(alloc, room)?);
    match write_lines(alloc, hall, &mut bookmark, &mut text) {
        Ok(()) => Ok(Lines {
            text: text.into_inner(),
            bookmark,
        }),
        Err(_fault) => Err(AllocError),
    }
}

/// Begins a journal under a limit, which is 1 to 100,000, in a file that has nothing, or a head that a crash has torn,
/// which is cut off: then it has the head of a trail, on the disk. `Memory` comes where a growth is refused, and then the
/// file is as it was, and `Device` where the device failed; the device is given back with each fault.
pub fn begin<D: Device>(
    alloc: Global,
    limit: u32,
    device: D,
) -> Result<Journal<D>, (JournalFault, D)>
    requires limit { IsLimit limit }
    requires sound { D.has_failed device ≡ false }
    requires fresh { IsTornHead (seen (D.now device)) }
    ensures kept { IfOk result (λ journal. (setup : Setup) → setup.version ≡ Two
        → IsKept (record { setup = setup; limit = limit; trail = [] }) journal.bookmark (D.now journal.log.device)) }
    ensures fine { IfOk result (λ journal. journal.fault ≡ None) }
    ensures sound { IfOk result (λ journal. D.has_failed journal.log.device ≡ false) }
    ensures memory { IfErr result (λ failed. failed.0 ≡ Memory → failed.1 ≡ device) }
    ensures cause { IfErr result (λ failed. IsCaused failed.0 (D.has_failed failed.1)) }
{
    let Ok(text) = head_text(alloc, limit) else {
        return Err((JournalFault::Memory, device));
    };
    let mut log = match reopen(device, 0) {
        Ok(log) => log,
        Err((error, device)) => return Err((JournalFault::Device(error), device)),
    };
    match log.add(&text) {
        Ok(_synced) => Ok(Journal {
            log,
            bookmark: Bookmark::first(),
            fault: None,
        }),
        Err(error) => {
            let Log { device } = log;
            Err((JournalFault::Device(error), device))
        }
    }
}

impl<D: Device> Journal<D> {
    /// The lines of all that has happened in a hall since the journal kept up with it, in memory: the file is not
    /// touched.
    ///
    /// `Memory` comes where a growth is refused, and `Device` where the device has failed before.
    pub fn lines(&self, alloc: Global, hall: &Hall) -> Result<Lines, JournalFault>
        requires { self.now.fault ≡ None → IsBookmark hall.now self.now.bookmark }
        ensures lines { IfOk result (AreLines hall.now self.now.bookmark) }
        ensures fine { OnOk result (self.now.fault ≡ None) }
        ensures fault { IfErr result (HasFailedBy self.now.fault) }
    {
        match self.fault {
            Some(error) => Err(JournalFault::Device(error)),
            None => Ok(lines_after(alloc, hall, self.bookmark)?),
        }
    }

    /// Writes lines that were made of a hall, and has them on the disk before it answers. Where there are none the file
    /// has all already, and is not touched. Whenever the machine ends, in the call or after it, all that was on the
    /// disk before is there.
    ///
    /// An error comes where the device failed: the journal stays failed, and each later call tells that fault at once.
    pub fn write(&mut self, lines: Lines) -> Result<(), DeviceError>
        requires { self.old.fault ≡ None → D.has_failed self.old.log.device ≡ false }
        ensures kept { OnOk result ((before hall : Chronicle) → IsKept before self.old.bookmark
            (D.now self.old.log.device) → HasGrown before hall → AreLines hall self.old.bookmark lines
            → IsKept hall self.new.bookmark (D.now self.new.log.device)) }
        ensures idle { self.old.fault ≡ None → lines.text.items ≡ [] → IsOk result × (self.new.log ≡ self.old.log) }
        ensures any_moment { Passes D.now D.past self.old.log.device self.new.log.device
            (Keeps (D.now self.old.log.device).kept) }
        ensures fine { OnOk result ((self.old.fault ≡ None) × (self.new.fault ≡ None)) }
        ensures sound { self.new.fault ≡ None → D.has_failed self.new.log.device ≡ false }
        ensures fault { IfErr result (λ error. self.new.fault ≡ Some error) }
        ensures cause { IfErr result (λ error. self.old.fault ≡ None → error ≢ NoRoom
            → D.has_failed self.new.log.device ≡ true) }
        ensures failed { IfSome self.old.fault (λ error. (result ≡ Err error) × (self.new ≡ self.old)) }
    {
        if let Some(error) = self.fault {
            return Err(error);
        }
        if lines.text.is_empty() {
            self.bookmark = lines.bookmark;
            return Ok(());
        }
        let Lines { text, bookmark } = lines;
        match self.log.add(&text) {
            Ok(_synced) => {
                self.bookmark = bookmark;
                Ok(())
            }
            Err(error) => {
                self.fault = Some(error);
                Err(error)
            }
        }
    }

    /// Keeps up with a hall: writes the lines of all that has happened since, and has them on the disk before it
    /// answers. Whenever the machine ends, in the call or after it, all that was kept before is recovered.
    ///
    /// `Memory` comes where a growth is refused: nothing has changed then, and the next call goes on. `Device` comes
    /// where the device failed: the journal stays failed, and each later call tells that fault at once.
    pub fn keep_up(&mut self, alloc: Global, hall: &Hall) -> Result<(), JournalFault>
        requires sound { self.old.fault ≡ None → D.has_failed self.old.log.device ≡ false }
        requires goes_on { self.old.fault ≡ None → (before : Chronicle) × IsKept before self.old.bookmark
            (D.now self.old.log.device) × HasGrown before hall.now }
        ensures kept { OnOk result (IsKept hall.now self.new.bookmark (D.now self.new.log.device)) }
        ensures any_moment { (before : Chronicle) → IsKept before self.old.bookmark (D.now self.old.log.device)
            → HasGrown before hall.now → Passes D.now D.past self.old.log.device self.new.log.device
            (LosesNothing before.setup (journal_of before)) }
        ensures fine { OnOk result (self.new.fault ≡ None) }
        ensures sound { self.new.fault ≡ None → D.has_failed self.new.log.device ≡ false }
        ensures fault { IfErr result (HasFailedBy self.new.fault) }
        ensures cause { IfErr result (λ fault. self.old.fault ≡ None → IsCaused fault (D.has_failed self.new.log.device)) }
        ensures memory { result ≡ Err Memory → self.new ≡ self.old }
        ensures failed { IfSome self.old.fault (λ error. (result ≡ Err (DeviceFault error)) × (self.new ≡ self.old)) }
    {
        a_crash_loses_nothing_that_was_kept();
        // asked for the proof alone: the names are those of the setup
        let setup = hall.core().setup();
        let _scheme = setup.names().scheme();
        let lines = self.lines(alloc, hall)?;
        match self.write(lines) {
            Ok(()) => Ok(()),
            Err(error) => Err(JournalFault::Device(error)),
        }
    }

    /// Closes the journal: adds `stop`, and has it on the disk. What is there then is the true text of a trail, so who
    /// replays it accepts it. Whenever the machine ends, all that was kept is recovered. A fault is the device's, in
    /// this call or before.
    pub fn close(self) -> Result<Closed<D>, (DeviceError, D)>
        requires sound { self.fault ≡ None → D.has_failed self.log.device ≡ false }
        ensures closed { IfOk result (λ closed. (hall : Chronicle)
            → IsKept hall self.bookmark (D.now self.log.device)
            → D.now closed ≡ all_kept (journal_text hall.setup (journal_of hall) ++ codes "stop\n")) }
        ensures true_text { IfOk result (λ closed. (hall : Chronicle)
            → IsKept hall self.bookmark (D.now self.log.device)
            → IsTrueText hall.setup (seen (D.now closed)) (length hall.trail)) }
        ensures any_moment { IfOk result (λ closed. Passes D.now D.past self.log.device closed
            (Keeps (D.now self.log.device).kept)) }
        ensures any_moment_failed { IfErr result
            (λ failed. Passes D.now D.past self.log.device failed.1 (Keeps (D.now self.log.device).kept)) }
        ensures cause { IfErr result (λ failed. self.fault ≡ None → failed.0 ≢ NoRoom → D.has_failed failed.1 ≡ true) }
        ensures failed { IfSome self.fault (λ error. result ≡ Err (error, self.log.device)) }
    {
        closed_journals_are_true();
        let Journal {
            log,
            bookmark: _,
            fault,
        } = self;
        let mut log = log;
        if let Some(error) = fault {
            let Log { device } = log;
            return Err((error, device));
        }
        let added = log.add(b"stop\n");
        let Log { device } = log;
        match added {
            Ok(synced) => Ok(close_synced(device, synced)),
            Err(error) => Err((error, device)),
        }
    }

    /// Closes the journal of a hall: adds the lines of all that has happened there since the journal kept up with it, and
    /// `stop`, and has them on the disk. What is there then is the true text of the hall's trail, so who replays it accepts
    /// it. Whenever the machine ends, all that was kept is recovered.
    ///
    /// `Memory` comes where a growth is refused, and then the file is as it was; `Device` where the device failed, in this
    /// call or before. The device is given back with each fault.
    pub fn close_with(self, alloc: Global, hall: &Hall) -> Result<Closed<D>, (JournalFault, D)>
        requires sound { self.fault ≡ None → D.has_failed self.log.device ≡ false }
        requires goes_on { self.fault ≡ None → (before : Chronicle) × IsKept before self.bookmark
            (D.now self.log.device) × HasGrown before hall.now }
        ensures closed { IfOk result (λ closed. D.now closed
            ≡ all_kept (journal_text hall.now.setup (journal_of hall.now) ++ codes "stop\n")) }
        ensures true_text { IfOk result (λ closed. IsTrueText hall.now.setup (seen (D.now closed)) (length hall.now.trail)) }
        ensures any_moment { IfOk result (λ closed. Passes D.now D.past self.log.device closed
            (Keeps (D.now self.log.device).kept)) }
        ensures any_moment_failed { IfErr result
            (λ failed. Passes D.now D.past self.log.device failed.1 (Keeps (D.now self.log.device).kept)) }
        ensures cause { IfErr result (λ failed. self.fault ≡ None → IsCaused failed.0 (D.has_failed failed.1)) }
        ensures failed { IfSome self.fault (λ error. result ≡ Err (DeviceFault error, self.log.device)) }
    {
        closed_journals_are_true();
        // asked for the proof alone: the names are those of the setup
        let setup = hall.core().setup();
        let _scheme = setup.names().scheme();
        let text = self.last_text(alloc, hall);
        let Journal { log, .. } = self;
        let mut log = log;
        let text = match text {
            Ok(text) => text,
            Err(fault) => {
                let Log { device } = log;
                return Err((fault, device));
            }
        };
        let added = log.add(&text);
        let Log { device } = log;
        match added {
            Ok(synced) => Ok(close_synced(device, synced)),
            Err(error) => Err((JournalFault::Device(error), device)),
        }
    }

    /// The lines that close the journal of a hall: those of all that has happened there since, and `stop`.
    fn last_text(&self, alloc: Global, hall: &Hall) -> Result<Vec<u8>, JournalFault>
        requires { self.now.fault ≡ None → IsBookmark hall.now self.now.bookmark }
        ensures text { IfOk result (λ text. AreLastLines hall.now self.now.bookmark text.items) }
        ensures fine { OnOk result (self.now.fault ≡ None) }
        ensures fault { IfErr result (HasFailedBy self.now.fault) }
    {
        let Lines { mut text, .. } = self.lines(alloc, hall)?;
        text.extend_from_slice(b"stop\n")?;
        Ok(text)
    }
}
