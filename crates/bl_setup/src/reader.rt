//! Reads a setup file, line by line.
ghost use Rattle.std.specs.Prelude.{◌≡◌, ◌+◌, ◌<◌, ◌^◌, ◌∷◌, [], MatchResult, OnOk, IfOk, IfErr};
ghost use Rattle.bl_setup.specs.Setup as setups;
ghost use Rattle.bl_setup.specs.Agreement.{Agree, of_scheme};
ghost use Rattle.bl_setup.specs.Draft.{setup_of};
ghost use Rattle.bl_declare.specs.Faults.{UnlessMemory};
ghost use Rattle.bl_setup.specs.Grammar.{IsSetup, IsSetupWithin, counted};
ghost use Rattle.bl_setup.specs.Heads.{BeginsWith, Remain};
ghost use Rattle.bl_setup.specs.FirstSetupFault as first;
ghost use Rattle.bl_setup.specs.FirstSetupFault.{LeadOn, StopsAt, FirstSetupFault, FirstSetupFaultWithin, IsReadAt, IsReadWithin};
ghost use Rattle.bl_setup.specs.Lines.{lines_read, file_lines};
ghost use Rattle.bl_setup.specs.Taking.{Takes, EndsEarly, Stops};
ghost use Rattle.bl_declare.specs.declared.fault.SetupFaultKind.TheVariants.{Memory};

use crate::draft::Draft;
use crate::head::{ranks_of, scheme_of};
use crate::lines::{Lines, MOST_BYTES};
use crate::setup::Setup;
use bl_declare::fault::{SetupFault, SetupFaultKind};
use bl_level::scheme::Scheme;
use std::alloc::Global;

impl<'a> Lines<'a> {
    /// The fault of the line that was taken last.
    fn fault(&self, kind: SetupFaultKind) -> SetupFault
        ensures kind { result.kind ≡ kind }
        ensures line { result.line ≡ self.now.number }
    {
        SetupFault {
            line: self.number,
            kind,
        }
    }

    /// The next line that is not skipped; without one, the file ends too early.
    fn due(&mut self) -> Result<&'a [u8], SetupFault>
        ensures line { MatchResult result (λ line. lines_read self.old.rest.now ≡ line.now ∷ lines_read self.new.rest.now)
            (λ _. lines_read self.old.rest.now ≡ []) }
        ensures taken { MatchResult result (λ line. Takes self.old.number (file_lines self.old.rest.now) line.now self.new.number (file_lines self.new.rest.now))
            (EndsEarly self.old.number (file_lines self.old.rest.now)) }
    {
        match self.next_read() {
            Some(line) => Ok(line),
            None => Err(SetupFault {
                line: self.number + 1,
                kind: SetupFaultKind::Syntax,
            }),
        }
    }

    /// The scheme that the first two lines declare.
    fn scheme(&mut self, alloc: Global) -> Result<Scheme, SetupFault>
        ensures ok { IfOk result (BeginsWith (lines_read self.old.rest.now) (lines_read self.new.rest.now)) }
        ensures leads { IfOk result (λ scheme. LeadOn first.nothing self.old.number (file_lines self.old.rest.now)
            (first.declared (of_scheme scheme)) self.new.number (file_lines self.new.rest.now)) }
        ensures reads { IfOk result (λ _. StopsAt first.ReadsNext first.nothing self.old.number (file_lines self.old.rest.now) self.new.number) }
        ensures fault { IfErr result (λ fault. StopsAt (Stops fault.kind) first.nothing self.old.number (file_lines self.old.rest.now) fault.line) }
    {
        let first = self.due()?;
        let ranks = match ranks_of(alloc, first) {
            Ok(ranks) => ranks,
            Err(kind) => return Err(self.fault(kind)),
        };
        let second = self.due()?;
        match scheme_of(alloc, ranks.as_slice(), second) {
            Ok(scheme) => Ok(scheme),
            Err(kind) => Err(self.fault(kind)),
        }
    }

    /// Adds what the lines that are left declare.
    fn read_into(&mut self, alloc: Global, draft: &mut Draft) -> Result<(), SetupFault>
        requires { Agree (setup_of draft.old) }
        ensures ok { OnOk result (Remain (lines_read self.old.rest.now) (setup_of draft.old) (setup_of draft.new)) }
        ensures only { OnOk result ((after : setups.Setup) → Remain (lines_read self.old.rest.now) (setup_of draft.old) after → after ≡ setup_of draft.new) }
        ensures agree { OnOk result (Agree (setup_of draft.new)) }
        ensures fault { IfErr result (λ fault. StopsAt (Stops fault.kind) (first.declared (setup_of draft.old)) self.old.number (file_lines self.old.rest.now) fault.line) }
    {
        while let Some(line) = self.next_read() {
            match draft.add_line(alloc, line) {
                Ok(()) => {}
                Err(kind) => return Err(self.fault(kind)),
            }
        }
        Ok(())
    }
}

/// The setup that the text of a setup file is.
///
/// The first line at fault is answered, and lines behind it are not read: `Syntax`, where it is not spelled as a
/// declaration or another one is due; `TooMany`, where there are more names than there may be or a content is too long;
/// then, for the first word at fault from the left, `Repeated` or `Unknown`; then `CurrentAboveGreatest`. A file of more
/// than 16,777,216 bytes is line 0, `TooMany`, and one that ends before its categories is `Syntax` at the number of its
/// lines and one. A mode that is given twice is no fault. `Memory` comes with the line that was being read.
pub fn read_setup(alloc: Global, bytes: &[u8]) -> Result<Setup, SetupFault>
    ensures setup { IfOk result (IsSetup bytes.now) }
    ensures only { IfOk result (λ setup. (other : setups.Setup) → IsSetup bytes.now other → other ≡ setup) }
    // Any fault but out of memory is the first of the text.
    ensures first { IfErr result (λ fault. UnlessMemory fault.kind (FirstSetupFault bytes.now fault)) }
    // Want of memory names a line that is read, and the lines before it are right.
    ensures memory { IfErr result (λ fault. fault.kind ≡ Memory → IsReadAt bytes.now fault.line) }
    // Any fault but out of memory means that the text is no setup.
    ensures fault { IfErr result (λ fault. UnlessMemory fault.kind ((setup : setups.Setup) → IsSetup bytes.now setup → ⊥)) }
{
    read_setup_within(alloc, bytes, MOST_BYTES)
}

/// So many bytes have no more lines than can be counted in 32 bits.
const MOST_COUNTED: usize = 4_294_967_294;

/// The setup that a text of at most `most` bytes is. Lines are counted in 32 bits, so a bound above 4,294,967,294 is
/// taken for that one.
///
/// Faults are answered as by `read_setup`, with `most` in place of its bound: a longer text is line 0, `TooMany`.
pub fn read_setup_within(alloc: Global, bytes: &[u8], most: usize) -> Result<Setup, SetupFault>
    ensures setup { IfOk result (IsSetupWithin most bytes.now) }
    ensures only { IfOk result (λ setup. (other : setups.Setup) → IsSetupWithin most bytes.now other → other ≡ setup) }
    // Any fault but out of memory is the first of the text.
    ensures first { IfErr result (λ fault. UnlessMemory fault.kind
        (FirstSetupFaultWithin (counted most) bytes.now fault)) }
    // Want of memory names a line that is read, and the lines before it are right.
    ensures memory { IfErr result (λ fault. fault.kind ≡ Memory → IsReadWithin most bytes.now fault.line) }
    // Any fault but out of memory means that the text is no setup.
    ensures fault { IfErr result (λ fault. UnlessMemory fault.kind
        ((setup : setups.Setup) → IsSetupWithin (counted most) bytes.now setup → ⊥)) }
{
    if bytes.len() > most.min(MOST_COUNTED) {
        return Err(SetupFault {
            line: 0,
            kind: SetupFaultKind::TooMany,
        });
    }
    let mut lines = Lines {
        rest: bytes,
        number: 0,
    };
    let scheme = lines.scheme(alloc)?;
    let mut draft = match Draft::new(alloc, scheme) {
        Ok(draft) => draft,
        Err(_) => return Err(lines.fault(SetupFaultKind::Memory)),
    };
    lines.read_into(alloc, &mut draft)?;
    Ok(Setup::of(draft.names, draft.policy, draft.contents))
}
