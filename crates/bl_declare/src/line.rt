//! From a line to its declaration.
ghost use Rattle.std.specs.Prelude.{[], IfOk, IfErr};
ghost use Rattle.bl_level.specs.Lexing.{Begins};
ghost use Rattle.bl_level.specs.Name.{AreProper};
ghost use Rattle.bl_declare.specs.Declaration.{Declaration, spell_declaration};
ghost use Rattle.bl_declare.specs.Faults.{OfSyntax};
ghost use Rattle.bl_declare.specs.Words.{declaration_of};

use crate::declaration::Words;
use crate::fault::SetupFaultKind;
use crate::parser::parse;
use bl_level::lexer::lex;
use std::alloc::Global;

/// The declaration that a line spells. It fails where the line spells none, or when out of memory.
pub fn words_of<'a>(alloc: Global, line: &'a [u8]) -> Result<Words<'a>, SetupFaultKind>
    ensures spelled { IfOk result (λ w. Begins line.now (spell_declaration (declaration_of w)) []) }
    ensures proper { IfOk result (λ w. AreProper (spell_declaration (declaration_of w))) }
    ensures fault { IfErr result (λ e. OfSyntax e ((d : Declaration) → Begins line.now (spell_declaration d) [] → ⊥)) }
{
    let lexed = lex(alloc, line)?;
    if lexed.broken.is_some() {
        return Err(SetupFaultKind::Syntax);
    }
    parse(alloc, lexed.tokens.as_slice())
}
