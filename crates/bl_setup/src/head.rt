//! The first two lines of a file: the ranks, and then the categories.
ghost use Rattle.std.specs.Prelude.{◌≡◌, ◌++◌, All, MatchResult, OnOk, IfOk, IfErr};
ghost use Rattle.bl_level.specs.Name.{IsName};
ghost use Rattle.bl_declare.specs.Faults.{UnlessMemory};
ghost use Rattle.bl_setup.specs.FirstSetupFault as first;
ghost use Rattle.bl_setup.specs.FirstSetupFault.{LineFault};
ghost use Rattle.bl_setup.specs.Heads.{AreRanks, DeclaresRanks, DeclaresCategories};
ghost use Rattle.bl_declare.specs.Words.{names_of};

use bl_declare::declaration::Words;
use bl_declare::fault::SetupFaultKind;
use bl_declare::line::words_of;
use bl_level::name::Name;
use bl_level::scheme::{MOST_RANKS, Scheme};
use bl_level::table::table_of;
use std::alloc::{AllocError, Global};

/// Adds names behind those that are there.
fn add_names(names: &mut Vec<Name>, words: &[&[u8]]) -> Result<(), AllocError>
    requires { All IsName (names_of words.now) }
    ensures { OnOk result (names.new.items ≡ names.old.items ++ names_of words.now) }
{
    for word in words {
        names.push(Name::new(word).unwrap())?;
    }
    Ok(())
}

/// The ranks that a line declares.
pub fn ranks_of(alloc: Global, line: &[u8]) -> Result<Vec<Name>, SetupFaultKind>
    ensures ok { IfOk result (λ names. DeclaresRanks line.now names.items) }
    ensures fault { IfErr result (λ kind. UnlessMemory kind (LineFault first.nothing line.now kind)) }
{
    let Words::Ranks(lowest, higher) = words_of(alloc, line)? else {
        return Err(SetupFaultKind::Syntax);
    };
    if higher.len() >= MOST_RANKS {
        return Err(SetupFaultKind::TooMany);
    }
    let mut names = Vec::new(alloc);
    names.push(Name::new(lowest).unwrap())?;
    add_names(&mut names, higher.as_slice())?;
    table_of(alloc, names.as_slice())?;
    Ok(names)
}

/// The scheme of these ranks and the categories that a line declares.
pub fn scheme_of(alloc: Global, ranks: &[Name], line: &[u8]) -> Result<Scheme, SetupFaultKind>
    requires { AreRanks ranks.now }
    ensures ok { IfOk result (λ scheme. DeclaresCategories line.now ranks.now scheme) }
    ensures fault { IfErr result (λ kind. UnlessMemory kind (LineFault (first.ranked ranks.now) line.now kind)) }
{
    let Words::Categories(words) = words_of(alloc, line)? else {
        return Err(SetupFaultKind::Syntax);
    };
    let mut names = Vec::new(alloc);
    add_names(&mut names, words.as_slice())?;
    Ok(Scheme::new(alloc, ranks, names.as_slice())?)
}
