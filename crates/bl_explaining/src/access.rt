//! What is told of an access.
ghost use Rattle.std.specs.Prelude.{◌≡◌, ◌<◌, IfOk, OnOk, length};
ghost use Rattle.bl_explain_text.specs.Reasons.{reason};
ghost use Rattle.bl_explain_text.specs.Telling.{range_line, verdict};
ghost use Rattle.bl_explain.specs.Ranges.{range_on};
ghost use Rattle.bl_explaining.specs.Explained.{IsSetting};
ghost use Rattle.bl_explaining.specs.Places.{ArePlaces};
ghost use Rattle.bl_explaining.specs.Shown.{grounds_in, wider, width_of, with_access, with_line, with_row, with_rows};

use crate::places::Places;
use crate::rows::{put_line, put_row};
use crate::setting::Setting;
use bl_explain::tests::Tested;
use bl_explain_text::reasons::reason;
use bl_explain_text::telling::{range_line, verdict};
use bl_policy::access::Access;
use bl_policy::denial::Clause;
use std::alloc::AllocError;

/// Why a test is answered so.
fn why(setting: &Setting<'_>, access: &Access, clause: Clause) -> Result<Vec<u8>, AllocError>
    requires setting { IsSetting setting.now }
    requires there { access.now.doc < length setting.now.moment.setup.now.names.documents }
    ensures { IfOk result (λ text. text.items
        ≡ reason setting.now.moment.setup.now.names setting.now.subject access.now (grounds_in setting.now access.now) clause) }
{
    let grounds = setting.grounds(access);
    let names = setting.names();
    reason(
        setting.alloc,
        names,
        setting.subject,
        access,
        &grounds,
        clause,
    )
}

/// The greater one of a width and that of why a test is answered so.
fn wider(
    setting: &Setting<'_>,
    access: &Access,
    width: usize,
    clause: Clause,
) -> Result<usize, AllocError>
    requires setting { IsSetting setting.now }
    requires there { access.now.doc < length setting.now.moment.setup.now.names.documents }
    ensures { IfOk result (λ most. most ≡ wider setting.now access.now width clause) }
{
    let why = why(setting, access, clause)?;
    Ok(width.max(why.len()))
}

/// The width of the longest reason.
fn width_of(setting: &Setting<'_>, access: &Access) -> Result<usize, AllocError>
    requires setting { IsSetting setting.now }
    requires there { access.now.doc < length setting.now.moment.setup.now.names.documents }
    ensures { IfOk result (λ width. width ≡ width_of setting.now access.now) }
{
    let absent = wider(setting, access, 0, Clause::Absent)?;
    let simple = wider(setting, access, absent, Clause::Simple)?;
    let star = wider(setting, access, simple, Clause::Star)?;
    let discretionary = wider(setting, access, star, Clause::Discretionary)?;
    wider(setting, access, discretionary, Clause::Carry)
}

/// An access, and what made it so.
#[derive(Clone, Copy)]
struct Placed {
    access: Access,
    places: Places,
}

/// Puts the line of a test of an access behind a text, at this width.
fn put_test(
    text: &mut Vec<u8>,
    setting: &Setting<'_>,
    placed: &Placed,
    width: usize,
    tested: Tested,
) -> Result<(), AllocError>
    requires setting { IsSetting setting.now }
    requires there { placed.now.access.doc < length setting.now.moment.setup.now.names.documents }
    ensures { OnOk result (text.new.items
        ≡ with_row setting.now placed.now.access placed.now.places width text.old.items tested) }
{
    let Placed { access, places } = *placed;
    let why = why(setting, &access, tested.clause)?;
    let source = places.source(setting.alloc, setting.path, access.mode, tested.clause)?;
    put_row(text, setting.alloc, tested, &why, &source, width)
}

/// Puts the lines of all tests of an access behind a text.
fn put_tests(text: &mut Vec<u8>, setting: &Setting<'_>, placed: &Placed) -> Result<(), AllocError>
    requires setting { IsSetting setting.now }
    requires there { placed.now.access.doc < length setting.now.moment.setup.now.names.documents }
    ensures { OnOk result (text.new.items
        ≡ with_rows setting.now placed.now.access placed.now.places text.old.items) }
{
    let access = placed.access;
    let tests = setting.grounds(&access).tests(access.mode).in_order();
    let width = width_of(setting, &access)?;
    put_test(text, setting, placed, width, tests[0])?;
    put_test(text, setting, placed, width, tests[1])?;
    put_test(text, setting, placed, width, tests[2])?;
    put_test(text, setting, placed, width, tests[3])?;
    put_test(text, setting, placed, width, tests[4])
}

/// Puts behind a text at which current levels an access is granted.
fn put_range(text: &mut Vec<u8>, setting: &Setting<'_>, access: &Access) -> Result<(), AllocError>
    requires setting { IsSetting setting.now }
    requires there { access.now.doc < length setting.now.moment.setup.now.names.documents }
    ensures { OnOk result (text.new.items ≡ with_line text.old.items
        (range_line setting.now.moment.setup.now.names (range_on (grounds_in setting.now access.now) access.now.mode))) }
{
    let grounds = setting.grounds(access);
    let range = grounds.range(access.mode);
    let line = range_line(setting.alloc, setting.names(), range)?;
    put_line(text, &line)
}

/// The first line of what is told of an access.
pub(crate) fn first_line(setting: &Setting<'_>, access: &Access) -> Result<Vec<u8>, AllocError>
    requires setting { IsSetting setting.now }
    requires there { access.now.doc < length setting.now.moment.setup.now.names.documents }
    ensures { IfOk result (λ line. line.items
        ≡ verdict setting.now.moment.setup.now.names setting.now.subject access.now (grounds_in setting.now access.now)) }
{
    let grounds = setting.grounds(access);
    verdict(
        setting.alloc,
        setting.names(),
        setting.subject,
        access,
        &grounds,
    )
}

/// Puts all that is told of an access behind a text, and answers what made it so.
pub(crate) fn put_access(
    text: &mut Vec<u8>,
    setting: &Setting<'_>,
    access: Access,
) -> Result<Places, AllocError>
    requires setting { IsSetting setting.now }
    requires there { access.doc < length setting.now.moment.setup.now.names.documents }
    ensures places { IfOk result (ArePlaces setting.now access) }
    ensures text { IfOk result (λ places. text.new.items ≡ with_access setting.now access places text.old.items) }
{
    let places = Places::of(setting, &access)?;
    let first = first_line(setting, &access)?;
    put_line(text, &first)?;
    put_tests(text, setting, &Placed { access, places })?;
    put_range(text, setting, &access)?;
    Ok(places)
}
