//! What is told of a file's first fault, as the tests write it.
use bl_due::due::Section;
use bl_spot::locate::locate_first;
use bl_spot::located::{Excess, Located, Named, Reason};
use std::alloc::{AllocError, Global};

/// Why a word is at fault.
#[derive(Clone, Copy, PartialEq, Eq, Debug)]
pub(super) enum Why {
    /// The file is a setup.
    Right,
    Large,
    Ends(Section),
    /// A declaration does not go on; so many things are due.
    Due(usize),
    Unknown(Named),
    Repeated(Named),
    Above,
    TooMany(Excess),
}

/// The line, the column from 1, the length, and why.
pub(super) type Told = (u32, usize, usize, Why);

/// The same of a reason.
fn why_of(reason: &Reason) -> Why {
    match reason {
        Reason::Unknown(named, _) => Why::Unknown(*named),
        Reason::Repeated(named) => Why::Repeated(*named),
        Reason::CurrentAboveGreatest => Why::Above,
        Reason::TooMany(excess) => Why::TooMany(*excess),
    }
}

/// What is told of a text.
pub(super) fn told(alloc: Global, text: &[u8]) -> Result<Told, AllocError> {
    let Some((fault, located)) = locate_first(alloc, text)? else {
        return Ok((0, 0, 0, Why::Right));
    };
    Ok(match &located {
        Located::File => (fault.line, 0, 0, Why::Large),
        Located::End(section) => (fault.line, 0, 0, Why::Ends(*section)),
        Located::Misfit(misfit) => (
            fault.line,
            misfit.at.saturating_add(1),
            misfit.len,
            Why::Due(misfit.due.len()),
        ),
        Located::Word(spot) => (
            fault.line,
            spot.at.saturating_add(1),
            spot.len,
            why_of(&spot.reason),
        ),
    })
}
