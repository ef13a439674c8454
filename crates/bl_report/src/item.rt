//! The items of a report: what is told of each event of a trail.
use bl_core::origin::Origin;
use bl_core::session::SessionNo;
use bl_explain::grounds::Grounds;
use bl_explain::rules::RuleGrounds;
use bl_level::level::Level;
use bl_policy::access::Access;
use bl_policy::denial::Clause;
use bl_policy::id::SubjectId;
use bl_policy::rule::Rule;

/// One thing that an event did, and whose it was. An event has one item, or several that stand one after another.
#[derive(Clone, Copy, PartialEq, Eq, Debug)]
pub struct ReportItem {
    /// The number of the event in its trail, from 1.
    pub event: u32,
    /// The subject for which the session was opened, or for which the entry speaks.
    pub subject: SubjectId,
    /// What the event did.
    pub happening: Happening,
}

/// What an event did. An entry is named by its place in the order, from 0.
#[derive(Clone, Copy, PartialEq, Eq, Debug)]
pub enum Happening {
    /// A session was opened. It is the only item of its event.
    Opened {
        /// The number of the session, from 0.
        session: SessionNo,
    },
    /// An entry entered the order: a line where it was admitted, a child at its parent's end. The items of this kind have
    /// the places 0, 1, 2 and so on.
    Admitted {
        /// Its place, which is the count of the entries before it.
        place: u32,
        /// Its session and ordinal, or its parent and its number among the children of that.
        origin: Origin,
        /// What it weighs: one for each `when` of a line, one for a rule, nothing for a child.
        weight: u32,
    },
    /// An access that a behaviour declared and was granted, so that it is held from this event on. One item stands for
    /// each access, in declared order.
    Held {
        /// The behaviour's place.
        place: u32,
        /// The access, and by what it was judged.
        judged: JudgedAccess,
        /// The event from which on it is no more held: the end or the loss of the place. None where the trail has neither.
        until: Option<u32>,
    },
    /// A behaviour or a rule was denied at its start. It is the only item of its event.
    Denied {
        /// Its place.
        place: u32,
        /// The property or condition that failed first.
        clause: Clause,
        /// What failed it, and by what that was judged.
        blame: Blame,
    },
    /// A rule was done. It is the only item of its event.
    Changed {
        /// Its place.
        place: u32,
        /// The rule.
        rule: Rule,
        /// What stood before where the rule makes its change.
        before: Former,
    },
    /// A behaviour that declared this access ended, so its append or write is done. One item stands for each access that
    /// alters, in declared order.
    Altered {
        /// The behaviour's place.
        place: u32,
        /// The access, whose mode is append or write.
        access: Access,
        /// How many bytes the document had before.
        before: usize,
        /// How many bytes the document has from then on.
        after: usize,
    },
    /// A behaviour ended. The item stands behind those of what it altered, and before those of its children.
    Done {
        /// Its place.
        place: u32,
    },
    /// An entry was lost, for want of memory. It is the only item of its event.
    Lost {
        /// Its place.
        place: u32,
        /// Whether it ran until then, so that what it held is no more held.
        ran: bool,
    },
}

/// An access, and by what it is judged.
#[derive(Clone, Copy, PartialEq, Eq, Debug)]
pub struct JudgedAccess {
    /// The document, and what is done with it.
    pub access: Access,
    /// The levels, the trust, the presence and the right just before the event, and what its behaviour carries.
    pub grounds: Grounds,
    /// The event that last put the right into the matrix or took it out. None where no event did, so that it is as the
    /// setup has it.
    pub right_since: Option<u32>,
}

/// What is denied.
#[derive(Clone, Copy, PartialEq, Eq, Debug)]
pub enum Blame {
    /// Of the accesses that a behaviour declares the first one that is not granted.
    OfAccess(JudgedAccess),
    /// A rule, and what decides it just before the event.
    OfRule {
        /// The rule.
        rule: Rule,
        /// What decides it.
        grounds: RuleGrounds,
    },
}

/// What stood, before a rule was done, where it makes its change.
#[derive(Clone, Copy, PartialEq, Eq, Debug)]
pub enum Former {
    /// Of `give` and `rescind`: whether the matrix had the mode there, so whether the rule changed nothing.
    Right(bool),
    /// Of `current` the speaker's current level, and of `classify` the document's level.
    Level(Level),
    /// Of `create`: the document was absent.
    Absent,
    /// Of `delete`: the document was present.
    Present {
        /// How many bytes it had.
        bytes: usize,
        /// How many rights went with it: of each subject each mode that the matrix had for it.
        rights: usize,
    },
}
