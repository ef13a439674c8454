//! The head of a trail's text: its version, which has to have the setup, and its limit.
ghost use Rattle.std.specs.Prelude.{◌≡◌, ◌++◌, IfOk, IfSome, None, codes, decimal};
ghost use Rattle.bl_trail.specs.Heads.{IsHead, IsNoLimitLine, IsNoVersionLine};
ghost use Rattle.bl_trail.specs.TrueText.{IsLimit, version_line};
ghost use Rattle.bl_trail.specs.Versions.{HasSetup};

use crate::ask::{number, split_word};
use crate::follow::first_line;
use crate::text::limit_text;
use crate::version::has_setup;
use crate::work::same_bytes;
use bl_setup::setup::Setup;
use bl_setup::version::Version;
use std::alloc::{AllocError, Global};

/// The greatest limit of a run.
const MOST_LIMIT: u32 = 100_000;

/// What stands at the head of a text.
#[derive(Clone, Copy)]
pub enum Head<'a> {
    /// The version by which the run is judged, its limit, which is 1 to 100,000, and what stands after these two lines.
    Right {
        version: Version,
        limit: u32,
        rest: &'a [u8],
    },
    /// The first line that is not right, counted from 1.
    Wrong(u64),
}

/// The version that the line names; `None` where it names none that has the setup.
fn version_of(setup: &Setup, line: &[u8]) -> Option<Version>
    ensures some { IfSome result (λ version. HasSetup version setup.now × (line.now ≡ version_line version)) }
    ensures none { result ≡ None → IsNoVersionLine setup.now line.now }
{
    let version = match line {
        b"trail 1" => Version::One,
        b"trail 2" => Version::Two,
        _ => return None,
    };
    if !has_setup(version, setup) {
        return None;
    }
    Some(version)
}

/// The limit that the line names, which is 1 to 100,000; `None` where the line is not the text of such a limit.
fn limit_of(alloc: Global, line: &[u8]) -> Result<Option<u32>, AllocError>
    ensures some { IfOk result (λ found. IfSome found
        (λ limit. IsLimit limit × (line.now ≡ codes "limit " ++ decimal limit))) }
    ensures none { IfOk result (λ found. found ≡ None → IsNoLimitLine line.now) }
{
    let (_, behind) = split_word(line, b' ');
    let Some(digits) = behind else {
        return Ok(None);
    };
    let Some(limit) = number(digits) else {
        return Ok(None);
    };
    if limit < 1 {
        return Ok(None);
    }
    if limit > MOST_LIMIT {
        return Ok(None);
    }
    let text = limit_text(alloc, limit)?;
    if !same_bytes(&text, line) {
        return Ok(None);
    }
    Ok(Some(limit))
}

/// The head of the text of a trail over the setup: its first line is `trail 2`, or `trail 1` where every document of
/// the setup is present, its second the `limit` line. An error comes only where a growth is refused.
pub fn head_of<'a>(alloc: Global, setup: &Setup, text: &'a [u8]) -> Result<Head<'a>, AllocError>
    ensures { IfOk result (IsHead setup.now text.now) }
{
    let Some((first, behind)) = first_line(text) else {
        return Ok(Head::Wrong(1));
    };
    let Some(version) = version_of(setup, first) else {
        return Ok(Head::Wrong(1));
    };
    let Some((second, rest)) = first_line(behind) else {
        return Ok(Head::Wrong(2));
    };
    let Some(limit) = limit_of(alloc, second)? else {
        return Ok(Head::Wrong(2));
    };
    Ok(Head::Right {
        version,
        limit,
        rest,
    })
}
