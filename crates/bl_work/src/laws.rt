//! What holds of scripts and their effects, whoever runs them.
ghost use Rattle.std.specs.Prelude.{◌≡◌, ◌↔◌, ℕ, List, [], IsTrue};
ghost use Rattle.bl_policy.specs.declared.access.Access.{Access};
ghost use Rattle.bl_document.specs.Content.{IsContent};
ghost use Rattle.bl_work.specs.Effects.{effects_of, holds_of};
ghost use Rattle.bl_work.specs.KnownLine.{IsKnownLine};
ghost use Rattle.bl_work.specs.LineGrammar.{LineOf};
ghost use Rattle.bl_work.specs.Names.{KnownNames};
ghost use Rattle.bl_work.specs.declared.asked.Line.{Line as AskedLine};
ghost use Rattle.bl_work.specs.Laws.{AltersOnlyDeclared, IsAdded, LookAlike, StaysContent};
ghost use Rattle.bl_work.specs.Modes.{KeepsModes};
ghost use Rattle.bl_work.specs.Piece.{StandsIn};
ghost use Rattle.bl_work.specs.Script.{HasContents, IsScript};
ghost use Rattle.bl_work.specs.Statements.{Part, Statements};
ghost use Rattle.bl_work.specs.declared.asked.Line.TheVariants as asked;
ghost use Rattle.bl_work.specs.declared.script.Condition.TheVariants.{Is, Has};
ghost use Rattle.bl_work.specs.declared.work.Work.TheVariants.{Behaviour};

use bl_level::laws::{canonical_is_shortest, read_tokens_are_proper};

/// A blind append sees nothing: on contents that differ only where the accesses do not let the body look, a body that
/// keeps to its accesses has the same effects.
pub fn blind_append()
    ensures { (accesses : List Access) (contents others : ℕ → List ℕ) (body : Statements) →
        LookAlike accesses contents others → KeepsModes accesses body →
        effects_of contents body ≡ effects_of others body }
{}

/// A body that keeps to its accesses alters no document but those that it declares append or write.
pub fn only_declared_documents_change()
    ensures { (accesses : List Access) (contents : ℕ → List ℕ) (body : Statements) →
        KeepsModes accesses body → AltersOnlyDeclared accesses contents body }
{}

/// From contents and texts a body makes contents.
pub fn contents_stay_contents()
    ensures { (contents : ℕ → List ℕ) (body : Statements) →
        ((doc : ℕ) → IsContent (contents doc)) → HasContents body → StaysContent contents body }
{}

/// An addition is cut only where the content is full.
pub fn additions_are_cut()
    ensures { (content text : List ℕ) → IsAdded content text }
{}

/// A condition `is` holds of the text itself alone, and a condition `has` of each content in which the text stands
/// somewhere as one piece: of every content, where the text is empty.
pub fn conditions()
    ensures is { (content text : List ℕ) → (IsTrue (holds_of Is content text) ↔ (content ≡ text)) }
    ensures has { (content text : List ℕ) → (IsTrue (holds_of Has content text) ↔ StandsIn text content) }
    ensures empty { (content : List ℕ) → IsTrue (holds_of Has content []) }
{}

/// A line that is read speaks of known subjects and documents alone.
pub fn read_lines_are_known()
    ensures { (names : KnownNames) (bytes : List ℕ) (line : AskedLine) → LineOf names bytes line → IsKnownLine names line }
{}

/// What a line asks to be run is a script.
pub fn lines_ask_scripts()
    ensures { (names : KnownNames) (bytes : List ℕ) (script : List Part) →
        LineOf names bytes (asked.Work (Behaviour script)) → IsScript script }
{
    canonical_is_shortest();
    read_tokens_are_proper();
}
