//! The monitor and its entries.
//!
//! For each place it keeps what looking back would find there, for each document one current content, and one current
//! policy. So no step takes longer because more entries came before.
ghost use Rattle.std.specs.Prelude.{◌≡◌, ◌↔◌, ◌<◌, ◌++◌, [], ◌∷◌, IfOk, IsErrOf, vec_len, vec_capacity};
ghost use Rattle.std.specs.Arc.{arc_value};
ghost use Rattle.bl_monitor.specs.Places.{HasChild, place_of};
ghost use Rattle.bl_monitor.specs.Sound.{CanCome, IsAdmitted};
ghost use Rattle.bl_monitor.specs.declared.monitor.MonitorFault.TheVariants as faults;

use crate::judge::{Judged, judge, level_for_children};
use crate::place::{Admitted, Origin, Place, child_index};
use bl_level::level::Level;
use bl_policy::denial::Denial;
use bl_policy::id::SubjectId;
use bl_policy::policy::Policy;
use bl_policy::policy::carry::lowest_level;
use bl_setup::setup::Setup;
pub use bl_setup::version::Version;
use bl_work::answer::Answer;
use bl_work::document::Document;
use bl_work::work::Work;
use std::alloc::{AllocError, Global};
use std::marker::Model;
use std::sync::Arc;

/// An entry of the admission order, and whether it was lost when memory ran out.
#[derive(Drop)]
pub enum Entry {
    /// A line of a session that speaks for the subject.
    Line {
        subject: SubjectId,
        work: Work,
        lost: bool,
    },
    /// The behaviour that an earlier entry, the parent, spawned as its which-th, counted from 1.
    Child {
        parent: u32,
        which: u32,
        lost: bool,
    },
}

/// Why an entry was not answered.
#[derive(Clone, Copy, Debug, PartialEq, Eq)]
pub enum MonitorFault {
    /// No entry spawned such a child: `which` is 0, or the parent is no earlier entry that was done with so many
    /// children.
    NoChild,
    /// A growth was refused.
    Memory,
}

impl From<AllocError> for MonitorFault {
    ghost use Rattle.bl_monitor.specs.Faults.{IsMemory};

    ghost from_gives = { IsMemory };

    fn from(_: AllocError) -> MonitorFault {
        MonitorFault::Memory
    }
}

/// The answers of an admission order, one entry after another. The setup says by itself that runs are judged by version
/// 2; the monitor's own version decides.
#[derive(Drop)]
pub struct Monitor {
    alloc: Global,
    setup: Arc<Setup, Global>,
    version: Version,
    policy: Policy,
    contents: Vec<Document>,
    places: Vec<Place>,
}

impl Model for Monitor {
    ghost use Rattle.std.specs.Coded.{codes, coded_list};
    ghost use Rattle.bl_policy.specs.Codes.{matrix_code};
    ghost use Rattle.bl_monitor.specs.Heard.{Heard};
    ghost use Rattle.bl_order.specs.Codes.{coded_entry};

    ghost Value = { Heard };

    ghost coded = { Prim.hlevel (codes, matrix_code, coded_entry) };

    ghost use Rattle.bl_monitor.specs.Sound.{heard_of, setup_of, IsSound};

    ghost view = { λ m. heard_of (setup_of m) m.places.items };

    ghost invariant = { λ m. IsSound (setup_of m) m.policy m.contents.items m.places.items };
}

/// The setup, which others may own too.
fn owned(alloc: Global, setup: Setup) -> Result<Arc<Setup, Global>, AllocError>
    ensures { IfOk result (λ owned. arc_value owned ≡ setup) }
{
    match Arc::new(alloc, setup) {
        Ok(setup) => Ok(setup),
        Err(setup) => {
            drop(setup);
            Err(AllocError)
        }
    }
}

/// The same contents, each with one more owner.
fn shared(alloc: Global, contents: &[Document]) -> Result<Vec<Document>, AllocError>
    ensures { IfOk result (λ shared. shared.items ≡ contents.now) }
{
    let mut shared = Vec::new(alloc);
    for content in contents {
        shared.push(content.share()?)?;
    }
    Ok(shared)
}

/// Who speaks and what is to be done for an entry behind these places.
fn admit(places: &[Place], entry: Entry) -> Result<Admitted, MonitorFault>
    ensures ok { IfOk result (IsAdmitted places.now entry) }
    ensures no_child { IsErrOf result faults.NoChild ↔ (¬ CanCome places.now entry) }
{
    match entry {
        Entry::Line {
            subject,
            work,
            lost,
        } => Ok(Admitted {
            origin: Origin::Line,
            lost,
            subject,
            carried: lowest_level(),
            work,
            index: 0,
        }),
        Entry::Child {
            parent,
            which,
            lost,
        } => child(places, parent, which, lost),
    }
}

/// The same for a child.
fn child(places: &[Place], parent: u32, which: u32, lost: bool) -> Result<Admitted, MonitorFault>
    ensures ok { IfOk result (IsAdmitted places.now (Entry.Child parent which lost)) }
    ensures no_child { IsErrOf result faults.NoChild ↔ (¬ HasChild places.now parent which) }
{
    match child_index(places, parent, which) {
        Some(index) => {
            let place = &places[parent as usize];
            Ok(Admitted {
                origin: Origin::Child { parent, which },
                lost,
                subject: place.admitted.subject,
                carried: place.carried_by_children,
                work: place.admitted.work.share()?,
                index,
            })
        }
        None => Err(MonitorFault::NoChild),
    }
}

/// Keeps what came of an entry behind the other places, which have room for it, and gives the answer.
fn keep(
    places: &mut Vec<Place>,
    admitted: Admitted,
    carried_by_children: Level,
    judged: Judged,
) -> Answer
    requires { vec_len places.old < vec_capacity places.old }
    ensures places { places.new.items ≡ places.old.items ++ place_of admitted carried_by_children judged ∷ [] }
    ensures answer { result ≡ judged.answer }
{
    let Judged {
        answer,
        fault,
        children,
    } = judged;
    let kept = Place {
        admitted,
        carried_by_children,
        fault,
        children,
    };
    places.push_reserved(kept);
    answer
}

impl Monitor {
    ghost use Rattle.std.specs.Arc.{arc_value};
    ghost use Rattle.std.specs.Prelude.{◌≡◌, ◌↔◌, length, [], IfOk, OnOk, OnErr, IsErrOf};
    ghost use Rattle.bl_setup.specs.Setup.{by_version};
    ghost use Rattle.bl_order.specs.Known.{KnowsAnswer};
    ghost use Rattle.bl_order.specs.Standing.{setup_after};
    ghost use Rattle.bl_monitor.specs.Heard.{Knows, MayCome, with_entry, answer_at, children_of, spawned_by, fault_of};
    ghost use Rattle.bl_monitor.specs.Heard.{is_lost};
    ghost use Rattle.bl_monitor.specs.declared.monitor.MonitorFault.TheVariants as faults;

    /// A monitor of an empty order over this setup. It judges by this version: in version 1 a child carries nothing.
    pub fn new(alloc: Global, setup: Setup, version: Version) -> Result<Monitor, AllocError>
        ensures { IfOk result (λ m. m ≡ record { setup = by_version version setup; order = []; lost = [] }) }
    {
        let setup = owned(alloc, setup)?;
        let policy = setup.policy().copy()?;
        let contents = shared(alloc, setup.contents())?;
        Ok(Monitor {
            alloc,
            setup,
            version,
            policy,
            contents,
            places: Vec::new(alloc),
        })
    }

    /// One more owner of the setup, which says by itself that runs are judged by version 2.
    pub fn share_setup(&self) -> Result<Arc<Setup, Global>, AllocError>
        ensures value { IfOk result (λ setup. self.now.setup ≡ by_version self.now.setup.version (arc_value setup)) }
        ensures knows { IfOk result (λ setup. (entry : Entry) → Knows (arc_value setup) entry
            → Knows self.now.setup entry) }
    {
        Ok(Arc::try_clone(&self.setup)?)
    }

    /// Answers the entry at the next place of the order. After an error the order is as it was.
    pub fn next(&mut self, entry: Entry) -> Result<Answer, MonitorFault>
        // The ids of a line are in the setup.
        requires { Knows self.old.setup entry }
        ensures answer { IfOk result (λ answer. answer ≡ answer_at self.new (length self.old.order)) }
        ensures ids { IfOk result (KnowsAnswer self.old.setup) }
        ensures order { OnOk result (self.new ≡ with_entry self.old entry) }
        ensures came { OnOk result (MayCome self.old entry) }
        ensures no_child { IsErrOf result faults.NoChild ↔ (¬ MayCome self.old entry) }
        ensures err { OnErr result (self.new ≡ self.old) }
    {
        let admitted = admit(&self.places, entry)?;
        // asked for the proof alone: the behaviours are a script, as those of each kept place
        let _behaviours = admitted.behaviours();
        self.places.reserve(1)?;
        let carried_by_children = level_for_children(self.version, &self.policy, &admitted);
        let judged = judge(self.alloc, &mut self.policy, &mut self.contents, &admitted)?;
        Ok(keep(&mut self.places, admitted, carried_by_children, judged))
    }

    /// How many children an entry spawned; `None` for a number that is no entry's, or an entry's that was not done.
    pub fn children(&self, n: u32) -> Option<u32>
        ensures { result ≡ children_of self.now n }
    {
        if n as usize >= self.places.len() {
            return None;
        }
        match &self.places[n as usize].children {
            Some(children) => Some(children.len() as u32),
            None => None,
        }
    }

    /// The behaviours that an entry spawned, in order, by their numbers in its script: its which-th child, counted from
    /// 1, runs the which-th of them. None for a number that is no entry's, or an entry's that was not done.
    pub fn spawned(&self, n: u32) -> &[u8]
        ensures { result.now ≡ spawned_by self.now n }
    {
        if n as usize >= self.places.len() {
            return &[];
        }
        match &self.places[n as usize].children {
            Some(children) => children.as_slice(),
            None => &[],
        }
    }

    /// What the policy had against the accesses of an entry at its place, lost or not: the first that was not granted,
    /// with what it failed first. `None` where each was granted, for a rule, and for a number that is no entry's.
    pub fn fault(&self, n: u32) -> Option<Denial>
        ensures { result ≡ fault_of self.now n }
    {
        if n as usize >= self.places.len() {
            return None;
        }
        self.places[n as usize].fault
    }

    /// The setup that stands behind the entries: the names of the first one, and the policy and the contents that the
    /// entries made. A run over it is judged by version 2, whatever version this monitor judges by. It has names and a
    /// policy of its own, and shares the contents. An error comes only where a growth is refused.
    pub fn stands(&self) -> Result<Setup, AllocError>
        ensures { IfOk result (λ setup. setup ≡ by_version Version.Two
            (setup_after self.now.setup (is_lost self.now) self.now.order)) }
    {
        let contents = shared(self.alloc, &self.contents)?;
        let policy = self.policy.copy()?;
        let names = self.setup.names().copy()?;
        Ok(Setup::of(names, policy, contents))
    }
}
