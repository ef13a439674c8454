//! What is kept of each place of the order.
ghost use Rattle.std.specs.Prelude.{◌≡◌, ◌<◌, ◌≤◌, ◌++◌, ◌+◌, ◌^◌, ℕ, true, false, length, vec_len, MatchOption};
ghost use Rattle.std.specs.Vec.{vec_capacity};
ghost use Rattle.bl_policy.specs.Mode.{is_exclusive};
ghost use Rattle.bl_order.specs.Order.{accesses_of, is_rule};
ghost use Rattle.bl_queue.specs.Claims.{most_claims};
ghost use Rattle.bl_place.specs.Places.{work_in, task_in, child_places, HasTask};
ghost use Rattle.bl_place.specs.Queueing.{claims_for, MayEnter, QueuesTell};

use crate::claims::Claims;
use crate::session::SessionNo;
use bl_level::level::Level;
use bl_policy::access::{Access, Mode};
use bl_policy::id::SubjectId;
use bl_queue::queues::Queues;
use bl_work::answer::Answer;
use bl_work::work::Work;

/// Where a place stands.
#[derive(Drop)]
pub enum Stand {
    /// It has not begun.
    Waiting,
    /// It runs: a behaviour that is lent what it declares.
    Running,
    /// It is over, with its answer.
    Ended(Answer),
}

/// What an entry descends from: a line with its work, or a parent.
#[derive(Drop)]
pub enum Descent {
    /// The line of a session, with its ordinal and its work.
    Line {
        session: SessionNo,
        ordinal: u32,
        work: Work,
    },
    /// A child of the place of this number; the children of a place are counted from 1.
    Child {
        parent: u32,
        which: u32,
    },
}

/// An entry with where it stands.
#[derive(Drop)]
pub struct Place {
    /// What it descends from.
    pub descent: Descent,
    /// The place of the line that it descends from: its own place for a line.
    pub root: u32,
    /// The number of the behaviour in the script of that line; 0 for a rule.
    pub index: u8,
    /// For whom it speaks.
    pub subject: SubjectId,
    /// The level that it carries, below which it may alter nothing: the lowest for a line.
    pub carried: Level,
    /// Where it stands.
    pub stand: Stand,
}

/// What the children of a place have in common.
#[derive(Drop)]
pub struct Siblings {
    /// The number of their parent.
    pub parent: u32,
    /// The place of the line that they descend from.
    pub root: u32,
    /// For whom they speak.
    pub subject: SubjectId,
    /// The level that each of them carries.
    pub carried: Level,
}

impl Stand {
    ghost use Rattle.std.specs.Prelude.{◌≡◌};
    ghost use Rattle.bl_order.specs.Machine.{is_waiting, is_running, is_over};
    ghost use Rattle.bl_place.specs.Places.{phase_of};

    /// Whether it has not begun.
    pub fn is_waiting(&self) -> bool
        ensures { result ≡ is_waiting (phase_of self.now) }
    {
        match self {
            Stand::Waiting => true,
            Stand::Running | Stand::Ended(_) => false,
        }
    }

    /// Whether it runs.
    pub fn is_running(&self) -> bool
        ensures { result ≡ is_running (phase_of self.now) }
    {
        match self {
            Stand::Running => true,
            Stand::Waiting | Stand::Ended(_) => false,
        }
    }

    /// Whether it is over.
    pub fn is_over(&self) -> bool
        ensures { result ≡ is_over (phase_of self.now) }
    {
        match self {
            Stand::Ended(_) => true,
            Stand::Waiting | Stand::Running => false,
        }
    }
}

/// Whether the mode alters its document, and so excludes every other access of it.
pub fn is_exclusive(mode: Mode) -> bool
    ensures { result ≡ is_exclusive mode }
{
    match mode {
        Mode::Read => false,
        Mode::Append | Mode::Write => true,
    }
}

/// The work of the line that a place descends from.
pub fn work_at(places: &[Place], n: usize) -> &Work
    requires there { n < length places.now }
    requires task { HasTask places.now n }
    ensures { result.now ≡ work_in places.now n }
{
    match places.get(places[n].root as usize) {
        Some(place) => match &place.descent {
            Descent::Line { work, .. } => work,
            Descent::Child { .. } => unreachable!(),
        },
        None => unreachable!(),
    }
}

/// What the behaviour of a place declares; `None` for a rule.
pub fn declared(places: &[Place], n: usize) -> Option<&[Access]>
    requires there { n < length places.now }
    requires task { HasTask places.now n }
    ensures { MatchOption result (is_rule (task_in places.now n) ≡ true) (λ accesses. (is_rule (task_in places.now n) ≡ false) × (accesses.now ≡ accesses_of (task_in places.now n))) }
{
    match work_at(places, n) {
        Work::Behaviour(script) => Some(script.accesses(places[n].index as usize)),
        Work::Rule(_) => None,
    }
}

/// The claims of a place.
fn claims_at(places: &[Place], n: usize) -> Claims
    requires there { n < length places.now }
    requires task { HasTask places.now n }
    requires few { length (claims_for (task_in places.now n)) ≤ most_claims }
    ensures { result ≡ claims_for (task_in places.now n) }
{
    match declared(places, n) {
        Some(accesses) => Claims::of_behaviour(accesses),
        None => Claims::of_rule(),
    }
}

/// The places from this one on enter the queues, each behind those before it.
pub fn enter_queues(queues: &mut Queues, places: &[Place], from: usize)
    requires before { QueuesTell queues.old.cowns queues.old.limit places.now from queues.old }
    requires from { from ≤ length places.now }
    requires room { length places.now ≤ queues.old.limit }
    requires few { length places.now < 2 ^ 32 }
    requires may { (n : ℕ) → from ≤ n → n < length places.now → MayEnter queues.old.cowns places.now n }
    ensures { QueuesTell queues.old.cowns queues.old.limit places.now (length places.now) queues.new }
{
    for n in from..places.len() {
        let claims = claims_at(places, n);
        queues.enter(n as u32, claims.as_slice());
    }
}

/// The children of a place enter, in order, by the numbers of their behaviours.
pub fn enter_children(places: &mut Vec<Place>, siblings: &Siblings, spawned: &[u8])
    requires room { vec_len places.old + length spawned.now ≤ vec_capacity places.old }
    requires few { length spawned.now < 2 ^ 32 }
    ensures items { places.new.items ≡ places.old.items ++ child_places siblings.now 1 spawned.now }
    ensures room { vec_capacity places.new ≡ vec_capacity places.old }
{
    let mut which = 0;
    for index in spawned {
        which += 1;
        places.push_reserved(Place {
            descent: Descent::Child {
                parent: siblings.parent,
                which,
            },
            root: siblings.root,
            index: *index,
            subject: siblings.subject,
            carried: siblings.carried,
            stand: Stand::Waiting,
        });
    }
}
