//! Which of several accesses decides, what made the grounds of an access, and what they are behind a monitor's entries.
ghost use Rattle.std.specs.Prelude.{◌<◌, length};

use crate::base::{access_of, setup_with, subject_of};
use bl_explain::grounds::Grounds;
use bl_explain::heard::grounds_behind;
use bl_explain::several::{Refused, first_refused};
use bl_explain::since::{Applied, Since, made_by};
use bl_monitor::monitor::{Monitor, Version};
use bl_policy::access::{Access, Mode};
use bl_policy::denial::Clause;
use bl_policy::id::SubjectId;
use bl_policy::policy::carry::lowest_level;
use bl_policy::rule::Rule;
use bl_setup::setup::Setup;
use std::alloc::Global;

/// Which of ann's writes of memo and note is refused over a setup.
fn refused_over(setup: &Setup) -> Option<Refused> {
    let subject = subject_of(setup, "ann")?;
    let memo = access_of(setup, Mode::Write, "memo")?;
    let note = access_of(setup, Mode::Write, "note")?;
    first_refused(setup.policy(), subject, &lowest_level(), &[memo, note])
}

/// The same over the base setup.
fn refused(alloc: Global) -> Option<Refused> {
    let setup = setup_with(alloc, b"")?;
    let refused = refused_over(&setup);
    drop(setup);
    refused
}

#[test]
fn denial_changes_nothing(rt: HostRuntime) {
    let wanted = Refused {
        place: 1,
        clause: Clause::Star,
    };
    assert!(rt; refused(rt.alloc()) == Some(wanted));
}

/// What made the grounds of ann's read of memo over a setup, where root gave what was there, and then rescinded it.
fn since_over(setup: &Setup) -> Option<Since> {
    let subject = subject_of(setup, "ann")?;
    let speaker = subject_of(setup, "root")?;
    let access = access_of(setup, Mode::Read, "memo")?;
    let Access { mode, doc } = access;
    let given = Applied {
        event: 7,
        speaker,
        rule: Rule::Give { subject, doc, mode },
    };
    let rescinded = Applied {
        event: 11,
        speaker,
        rule: Rule::Rescind { subject, doc, mode },
    };
    made_by(setup.policy(), subject, &access, &[given, rescinded]).ok()
}

/// The same over the base setup.
fn since(alloc: Global) -> Option<Since> {
    let setup = setup_with(alloc, b"")?;
    let since = since_over(&setup);
    drop(setup);
    since
}

#[test]
fn rescind_between_reads(rt: HostRuntime) {
    let wanted = Since {
        present: None,
        level: None,
        current: None,
        allowed: Some(11),
    };
    assert!(rt; since(rt.alloc()) == Some(wanted));
}

/// The grounds of an access behind no entry.
fn heard(alloc: Global, setup: Setup, subject: SubjectId, access: &Access) -> Option<Grounds>
    requires known { subject < length setup.names.subjects }
    requires there { access.now.doc < length setup.names.documents }
{
    let monitor = Monitor::new(alloc, setup, Version::Two).ok()?;
    let found = grounds_behind(&monitor, subject, &lowest_level(), access);
    drop(monitor);
    found.ok()
}

/// Whether a monitor that was told nothing has the grounds of the setup.
fn is_heard(alloc: Global) -> Option<bool> {
    let setup = setup_with(alloc, b"")?;
    let (Some(subject), Some(access)) = (
        subject_of(&setup, "bob"),
        access_of(&setup, Mode::Read, "memo"),
    ) else {
        drop(setup);
        return None;
    };
    let wanted = Grounds::of(setup.policy(), subject, &lowest_level(), &access);
    let found = heard(alloc, setup, subject, &access)?;
    Some(found == wanted)
}

#[test]
fn a_monitor_at_its_start(rt: HostRuntime) {
    assert!(rt; is_heard(rt.alloc()) == Some(true));
}
