//! From a file and its fault to what is told of it.
ghost use Rattle.std.specs.Prelude.{◌≡◌, ◌^◌, ◌<◌, ◌≤◌, IfOk, IfSome, MatchOption, length};
ghost use Rattle.bl_level.specs.Token.{toks};
ghost use Rattle.bl_declare.specs.Declaration.{spell_declaration};
ghost use Rattle.bl_declare.specs.Words.{declaration_of};
ghost use Rattle.bl_declare.specs.declared.fault.SetupFaultKind.{SetupFaultKind};
ghost use Rattle.bl_setup.specs.FirstSetupFault.{SoFar, DeclarationFault, FirstSetupFault, IsDue, LineFault};
ghost use Rattle.bl_setup.specs.Grammar.{IsSetup};
ghost use Rattle.bl_setup.specs.Setup as setups;
ghost use Rattle.bl_spot.specs.Located.{AreAtFault, IsBefore, IsCurrent, IsLocated, IsLocatedIn, IsNearestAt, IsNoSubject, IsReasonOf, missing_behind};
ghost use Rattle.bl_spot.specs.declared.located.Reason.TheVariants as reason;

use crate::asked::{Asked, level_width, name_at_fault};
use crate::before::{Before, before_of};
use crate::cut::{first_line, part};
use crate::excess::over_of;
use crate::extent::{extent_of, token_at};
use crate::located::{Located, Reason, Spot};
use bl_declare::declaration::Words;
use bl_declare::fault::{SetupFault, SetupFaultKind};
use bl_declare::line::words_of;
use bl_due::due::Section;
use bl_due::misfit::misfit_of;
use bl_level::lexer::lex;
use bl_level::name::Name;
use bl_level::token::Token;
use bl_nearest::nearest::nearest;
use bl_setup::reader::read_setup;
use std::alloc::{AllocError, Global};

/// The tokens at fault of a declaration, from the first to the last, and why they are.
#[derive(Drop)]
struct Fault {
    first: usize,
    last: usize,
    reason: Reason,
}

/// A fault of one token.
fn at_token(token: usize, reason: Reason) -> Fault
    ensures { result ≡ record { first = token; last = token; reason = reason } }
{
    Fault {
        first: token,
        last: token,
        reason,
    }
}

/// The nearest to a name of those that were declared. The name is the token at a number.
fn nearest_known(
    alloc: Global,
    before: &Before,
    tokens: &[Token<'_>],
    asked: &Asked,
) -> Result<Option<Name>, AllocError>
    ensures { IfOk result (λ near. (after : SoFar) → IsBefore after before.now → IsNearestAt after (toks tokens.now) asked.now.token asked.now.named near) }
{
    let Some(Token::Name(word)) = token_at(tokens, asked.token) else {
        return Ok(None);
    };
    let known = before.known(alloc, asked.named)?;
    nearest(alloc, known.as_slice(), word)
}

/// Why a name is at fault.
fn reason_of(
    alloc: Global,
    before: &Before,
    tokens: &[Token<'_>],
    asked: &Asked,
) -> Result<Reason, AllocError>
    ensures { IfOk result (λ reason. (after : SoFar) → IsBefore after before.now → IsReasonOf after (toks tokens.now) asked.now reason) }
{
    if asked.kind == SetupFaultKind::Unknown {
        let near = nearest_known(alloc, before, tokens, asked)?;
        Ok(Reason::Unknown(asked.named, near))
    } else {
        Ok(Reason::Repeated(asked.named))
    }
}

/// A subject's current level as a fault. None of another declaration.
fn current_of(words: &Words<'_>) -> Option<Fault>
    requires { length (spell_declaration (declaration_of words.now)) < 2 ^ 32 }
    ensures is { MatchOption result (IsNoSubject (declaration_of words.now)) (λ f. IsCurrent (declaration_of words.now) f.first f.last) }
    ensures reason { IfSome result (λ f. f.reason ≡ reason.CurrentAboveGreatest) }
    ensures order { IfSome result (λ f. f.first ≤ f.last) }
{
    match words {
        Words::Subject(subject) => {
            let first = 4 + level_width(&subject.greatest);
            Some(Fault {
                first,
                last: first + level_width(&subject.current) - 1,
                reason: Reason::CurrentAboveGreatest,
            })
        }
        _ => None,
    }
}

/// What is wrong with a declaration that is due, behind what was declared before. None where nothing is.
fn fault_of(
    alloc: Global,
    before: &Before,
    words: &Words<'_>,
    tokens: &[Token<'_>],
) -> Result<Option<Fault>, AllocError>
    requires few { length (spell_declaration (declaration_of words.now)) < 2 ^ 32 }
    requires are { toks tokens.now ≡ spell_declaration (declaration_of words.now) }
    ensures order { IfOk result (λ fault. IfSome fault (λ f. f.first ≤ f.last)) }
    ensures tells { IfOk result (λ fault. (after : SoFar) (kind : SetupFaultKind) → IsBefore after before.now → IsDue after (declaration_of words.now)
        → DeclarationFault after (declaration_of words.now) kind
        → IfSome fault (λ f. AreAtFault after (declaration_of words.now) kind f.first f.last f.reason)) }
{
    if let Some(over) = over_of(before, words) {
        return Ok(Some(at_token(over.token, Reason::TooMany(over.excess))));
    }
    match name_at_fault(alloc, before, words)? {
        Some(asked) => {
            let reason = reason_of(alloc, before, tokens, &asked)?;
            Ok(Some(at_token(asked.token, reason)))
        }
        None => Ok(current_of(words)),
    }
}

/// What is told of a line with a fault of this kind.
fn located_in(
    alloc: Global,
    before: &Before,
    line: &[u8],
    kind: SetupFaultKind,
) -> Result<Located, AllocError>
    requires { length line.now < 2 ^ 32 }
    ensures { IfOk result (λ located. (after : SoFar) → IsBefore after before.now → LineFault after line.now kind
        → IsLocatedIn kind located after line.now) }
{
    if kind == SetupFaultKind::Syntax {
        return match misfit_of(alloc, line, before.section())? {
            Some(misfit) => Ok(Located::Misfit(misfit)),
            // A line with such a fault spells no declaration that is due.
            None => Err(AllocError),
        };
    }
    let Ok(words) = words_of(alloc, line) else {
        // Any other fault is one of a declaration, so that a growth was refused.
        return Err(AllocError);
    };
    let lexed = lex(alloc, line)?;
    let Some(fault) = fault_of(alloc, before, &words, lexed.tokens.as_slice())? else {
        // A declaration with such a fault has a first one.
        return Err(AllocError);
    };
    match extent_of(line, &lexed, fault.first, fault.last) {
        Some(extent) => Ok(Located::Word(Spot {
            at: extent.at,
            len: extent.len,
            reason: fault.reason,
        })),
        // Each token of a declaration is one of its line.
        None => Err(AllocError),
    }
}

/// The section that a file lacks that ends behind so many lines that are read.
fn missing_behind(read: u32) -> Section
    ensures { result ≡ missing_behind read }
{
    match read {
        0 => Section::Ranks,
        _ => Section::Categories,
    }
}

/// Where a setup file is at fault, by its first fault: the bytes of the line, counted from 0, that are at fault, and why.
///
/// `Syntax` is told with the first token with which no declaration that is due goes on, and what is due there; `Unknown` and
/// `Repeated` with the name, and the nearest that is known; `CurrentAboveGreatest` with the current level; `TooMany` with the
/// name or text that is too much. Names are looked up among those of the lines before. An error comes only where a growth is
/// refused.
pub fn locate(alloc: Global, bytes: &[u8], fault: SetupFault) -> Result<Located, AllocError>
    requires { FirstSetupFault bytes.now fault }
    ensures { IfOk result (IsLocated bytes.now fault) }
{
    if fault.line == 0 {
        return Ok(Located::File);
    }
    let parted = part(bytes, fault.line);
    if parted.rest.is_empty() {
        return Ok(Located::End(missing_behind(parted.read)));
    }
    let before = before_of(alloc, parted.front, parted.read)?;
    located_in(alloc, &before, first_line(parted.rest), fault.kind)
}

/// The first fault of a setup file, and where it is. None where the file is a setup. An error comes only where a growth is
/// refused.
pub fn locate_first(
    alloc: Global,
    bytes: &[u8],
) -> Result<Option<(SetupFault, Located)>, AllocError>
    ensures { IfOk result (λ found. MatchOption found ((setup : setups.Setup) × IsSetup bytes.now setup)
        (λ f. FirstSetupFault bytes.now f.0 × IsLocated bytes.now f.0 f.1)) }
{
    let fault = match read_setup(alloc, bytes) {
        Ok(setup) => {
            drop(setup);
            return Ok(None);
        }
        Err(fault) => fault,
    };
    if fault.kind == SetupFaultKind::Memory {
        return Err(AllocError);
    }
    let located = locate(alloc, bytes, fault)?;
    Ok(Some((fault, located)))
}
