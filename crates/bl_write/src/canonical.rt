//! Laws of the canonical text of a script or a rule: it is read again from it, and no text of it is shorter; and that
//! no text of a line has an LF.
ghost use Rattle.std.specs.Prelude.{◌↔◌, ◌≤◌, ◌≢◌, ℕ, List, All, length};
ghost use Rattle.bl_work.specs.Names.{KnownNames, AreNames};
ghost use Rattle.bl_work.specs.Statements.{Part};
ghost use Rattle.bl_work.specs.Script.{IsScript};
ghost use Rattle.bl_work.specs.LineGrammar.{LineOf};
ghost use Rattle.bl_work.specs.Readable.{IsReadable};
ghost use Rattle.bl_work.specs.declared.asked.Line as asked_line;
ghost use Rattle.bl_work.specs.declared.work.Work as asked_work;
ghost use Rattle.bl_write.specs.CanonicalLine.{canonical_line};
ghost use Rattle.bl_policy.specs.declared.rule.Rule as asked_rule;
ghost use Rattle.bl_write.specs.Known.{canonical_script, IsKnownScript, canonical_rule, IsKnownRule, IsKnownWork};
ghost use Rattle.bl_work.specs.declared.asked.Line.TheVariants.{Work};
ghost use Rattle.bl_work.specs.declared.work.Work.TheVariants.{Behaviour, Rule};

use bl_level::laws::{canonical_is_shortest, canonical_reads_again, read_tokens_are_proper};

/// The canonical text of a script that the names know reads as the script.
pub fn canonical_script_reads_again()
    ensures { (names : KnownNames) (script : List Part) → AreNames names → IsScript script → IsKnownScript names script
        → LineOf names (canonical_script names script) (Work (Behaviour script)) }
{
    canonical_reads_again();
}

/// The names know each script that some text reads as by them, and its canonical text is no longer than the text.
pub fn canonical_script_is_shortest()
    ensures known { (names : KnownNames) (bytes : List ℕ) (script : List Part)
        → LineOf names bytes (Work (Behaviour script)) → IsKnownScript names script }
    ensures shortest { (names : KnownNames) (bytes : List ℕ) (script : List Part)
        → LineOf names bytes (Work (Behaviour script))
        → length (canonical_script names script) ≤ length bytes }
{
    canonical_is_shortest();
}

/// The canonical text of a rule that the names know reads as the rule.
pub fn canonical_rule_reads_again()
    ensures { (names : KnownNames) (rule : asked_rule.Rule) → AreNames names → IsKnownRule names rule
        → LineOf names (canonical_rule names rule) (Work (Rule rule)) }
{
    canonical_reads_again();
    read_tokens_are_proper();
}

/// The names know each rule that some text reads as by them, and its canonical text is no longer than the text.
pub fn canonical_rule_is_shortest()
    ensures known { (names : KnownNames) (bytes : List ℕ) (rule : asked_rule.Rule) → AreNames names
        → LineOf names bytes (Work (Rule rule))
        → IsKnownRule names rule }
    ensures shortest { (names : KnownNames) (bytes : List ℕ) (rule : asked_rule.Rule) → AreNames names
        → LineOf names bytes (Work (Rule rule))
        → length (canonical_rule names rule) ≤ length bytes }
{
    canonical_is_shortest();
}

/// The canonical text of each work that some text reads as reads as it again.
pub fn canonical_works_read_again()
    ensures { (names : KnownNames) (work : asked_work.Work) → AreNames names → IsReadable names work
        → LineOf names (canonical_line names (Work work)) (Work work) }
{
    canonical_reads_again();
    canonical_is_shortest();
    read_tokens_are_proper();
}

/// Some text reads as a work exactly where what it names is there and its canonical text is no longer than a line.
pub(crate) fn readable_is_known()
    ensures { (names : KnownNames) (work : asked_work.Work) → AreNames names
        → IsReadable names work ↔ IsKnownWork names work }
{
    canonical_reads_again();
    canonical_is_shortest();
    read_tokens_are_proper();
}

/// No text of a line has an LF.
pub fn lines_have_no_lf()
    ensures { (names : KnownNames) (bytes : List ℕ) (line : asked_line.Line) → LineOf names bytes line
        → All (λ b. b ≢ 10) bytes }
{}
