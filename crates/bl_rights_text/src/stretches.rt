//! The stretches of a table and of its remarks, each put piece by piece, so that the whole is never in memory.
ghost use Rattle.std.specs.Prelude.{◌≡◌, ◌<◌, ◌≤◌, IfOk, OnErr, length};
ghost use Rattle.bl_rights_text.specs.Fronts.{IsFrontPut};
ghost use Rattle.bl_rights_text.specs.Stretches.{IsStretchOf, count_of, listing_text, stretch_text, piece_of, told_where};
ghost use Rattle.bl_rights.specs.Rows.{row_at};
ghost use Rattle.bl_rights_text.specs.Table.{is_told};
ghost use Rattle.bl_state.specs.Whole.{IsWhole};
ghost use Rattle.bl_wire.specs.Watch.{Puts, end_state};

use crate::cells::Cells;
use crate::overview::{Overview, row};
use crate::remarks::{idle_line, never_lines, unread_line, way_lines};
use bl_policy::id::{DocId, SubjectId};
use bl_wire::put::put;
use bl_wire::watched::Watched;
use std::alloc::AllocError;
use std::io::Write;

/// What is told of each row.
#[derive(Clone, Copy)]
pub(crate) enum Listing {
    /// The row.
    Rows,
    /// The rights that can never be used.
    Never,
}

/// A stretch of the table or of its remarks, which is put piece by piece.
#[derive(Clone, Copy)]
pub(crate) enum Stretch {
    /// What is told of each row of a subject, document by document.
    Each(Listing, SubjectId),
    /// The ways down, subject by subject.
    WaysDown,
    /// The documents that nobody may look at.
    Unread,
    /// The subjects without a right.
    Idle,
}

/// What is told of the row of a subject and a document, where there is one.
fn told(
    overview: &Overview<'_>,
    listing: Listing,
    subject: SubjectId,
    doc: DocId,
) -> Result<Vec<u8>, AllocError>
    requires whole { IsWhole overview.now.setup.now }
    requires known { subject < length overview.now.setup.now.policy.subjects }
    requires there { doc < length overview.now.setup.now.policy.documents }
    ensures { IfOk result (λ text. text.items
        ≡ told_where overview.now listing (row_at overview.now.setup.now.policy subject doc)) }
{
    let Some(row) = row(overview.setup, subject, doc) else {
        return Ok(Vec::new(overview.alloc));
    };
    match listing {
        Listing::Rows => {
            let cells = Cells::of(overview.alloc, overview.setup, &row)?;
            cells.line(overview.alloc, &overview.widths)
        }
        Listing::Never => never_lines(overview.alloc, overview.setup, &row),
    }
}

/// How many pieces a stretch has.
fn count(overview: &Overview<'_>, stretch: &Stretch) -> usize
    ensures value { result ≡ count_of overview.now stretch.now }
    ensures within { result ≤ 1024 }
{
    let policy = overview.setup.policy();
    match *stretch {
        Stretch::Each(_, _) | Stretch::Unread => policy.documents(),
        Stretch::WaysDown | Stretch::Idle => policy.subjects(),
    }
}

/// A piece of a stretch.
fn piece(overview: &Overview<'_>, stretch: &Stretch, place: u16) -> Result<Vec<u8>, AllocError>
    requires whole { IsWhole overview.now.setup.now }
    requires stretch { IsStretchOf overview.now stretch.now }
    requires place { place < count_of overview.now stretch.now }
    ensures { IfOk result (λ text. text.items ≡ piece_of overview.now stretch.now place) }
{
    match *stretch {
        Stretch::Each(listing, subject) => told(overview, listing, subject, DocId::new(place)),
        Stretch::WaysDown => way_lines(overview.alloc, overview.setup, SubjectId::new(place)),
        Stretch::Unread => unread_line(overview.alloc, overview.setup, DocId::new(place)),
        Stretch::Idle => idle_line(overview.alloc, overview.setup, SubjectId::new(place)),
    }
}

/// Whether a text tells something.
fn is_told(text: &[u8]) -> bool
    ensures { result ≡ is_told text.now }
{
    !text.is_empty()
}

/// Whether a stretch has something to tell.
pub(crate) fn tells(overview: &Overview<'_>, stretch: &Stretch) -> Result<bool, AllocError>
    requires whole { IsWhole overview.now.setup.now }
    requires stretch { IsStretchOf overview.now stretch.now }
    ensures { IfOk result (λ some. some ≡ is_told (stretch_text overview.now stretch.now)) }
{
    let many = count(overview, stretch);
    for place in 0..many {
        let text = piece(overview, stretch, place as u16)?;
        if is_told(&text) {
            return Ok(true);
        }
    }
    Ok(false)
}

/// Whether there is something to tell of any row.
pub(crate) fn tells_any(overview: &Overview<'_>, listing: Listing) -> Result<bool, AllocError>
    requires { IsWhole overview.now.setup.now }
    ensures { IfOk result (λ some. some ≡ is_told (listing_text overview.now listing)) }
{
    let many = overview.setup.policy().subjects();
    for place in 0..many {
        let subject = SubjectId::new(place as u16);
        let some = tells(overview, &Stretch::Each(listing, subject))?;
        if some {
            return Ok(true);
        }
    }
    Ok(false)
}

/// Puts a stretch piece by piece. An error comes only where a growth is refused; then whole pieces at the front were put.
pub(crate) fn put_stretch<W: Write>(
    overview: &Overview<'_>,
    writer: &mut Watched<W>,
    stretch: &Stretch,
) -> Result<(), AllocError>
    requires whole { IsWhole overview.now.setup.now }
    requires stretch { IsStretchOf overview.now stretch.now }
    ensures puts { IfOk result (λ _. Puts (stretch_text overview.now stretch.now)
        (end_state W.contents writer.old) (end_state W.contents writer.new)) }
    ensures front { OnErr result (IsFrontPut (stretch_text overview.now stretch.now)
        (end_state W.contents writer.old) (end_state W.contents writer.new)) }
{
    let many = count(overview, stretch);
    for place in 0..many {
        let text = piece(overview, stretch, place as u16)?;
        put(writer, &text);
    }
    Ok(())
}

/// Puts what is told of each row, subject by subject. An error comes only where a growth is refused; then a first part of
/// it was put.
pub(crate) fn put_listing<W: Write>(
    overview: &Overview<'_>,
    writer: &mut Watched<W>,
    listing: Listing,
) -> Result<(), AllocError>
    requires { IsWhole overview.now.setup.now }
    ensures puts { IfOk result (λ _. Puts (listing_text overview.now listing)
        (end_state W.contents writer.old) (end_state W.contents writer.new)) }
    ensures front { OnErr result (IsFrontPut (listing_text overview.now listing)
        (end_state W.contents writer.old) (end_state W.contents writer.new)) }
{
    let many = overview.setup.policy().subjects();
    for place in 0..many {
        let subject = SubjectId::new(place as u16);
        put_stretch(overview, writer, &Stretch::Each(listing, subject))?;
    }
    Ok(())
}
