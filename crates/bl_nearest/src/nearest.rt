//! The name at the least distance from a word.
ghost use Rattle.std.specs.Prelude.{◌≡◌, IfOk, MatchOption};
ghost use Rattle.bl_nearest.specs.Nearest.{distance, IsNearest, NoneIsNear};

use bl_name::name::Name;
use std::alloc::{AllocError, Global};
use strsim::generic_levenshtein;

/// A name at this distance is not near any more.
const FAR: usize = 3;

/// How many edits lead from a word to a name.
fn distance(alloc: Global, word: &[u8], name: &Name) -> Result<usize, AllocError>
    ensures { IfOk result (λ edits. edits ≡ distance word.now name.now) }
{
    generic_levenshtein(alloc, word, name.bytes())
}

/// Of the names that are near a word, the first at the least distance. A name is near at a distance of at most 2 that is less
/// than the word's length. None where no name is near. An error comes only where a growth is refused.
pub fn nearest(alloc: Global, names: &[Name], word: &[u8]) -> Result<Option<Name>, AllocError>
    ensures { IfOk result (λ found. MatchOption found (NoneIsNear names.now word.now) (IsNearest names.now word.now)) }
{
    let mut found = None;
    let mut least = word.len().min(FAR);
    for name in names {
        let edits = distance(alloc, word, name)?;
        if edits < least {
            least = edits;
            found = Some(name.copy());
        }
    }
    Ok(found)
}
