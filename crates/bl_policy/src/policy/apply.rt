// What a rule makes of the policy (Bell and La Padula 1976, rules).
//
// A rule writes one place: a cell of the matrix, a current level, the level of a document, or whether it is present. Then it
// mends the cells that this touches: that cell, the row of the speaker, or the column of the document, which a deletion empties.
ghost use Rattle.std.specs.Prelude.{◌≡◌, ◌<◌, false, length, IfNone, OnSome};
ghost use Rattle.bl_level.specs.Level.{Dominates};
ghost use Rattle.bl_policy.specs.Matrix.{triple};
ghost use Rattle.bl_policy.specs.Policy.{greatest_of, without_triple, with_current, with_level, with_presence, without_cells, CurrentBelowGreatest};
ghost use Rattle.bl_policy.specs.RuleEffect.{IsRuleOf, Permits, failed_condition, rule_fault, rule_makes, after_rule};

use super::cell::{empty_column, mend_column, mend_row};
use super::{MOST_DOCUMENTS, Policy, Subject, cell_place};
use crate::access::{Mode, ModeSet};
use crate::denial::{Clause, Denial};
use crate::id::{DocId, SubjectId};
use crate::rule::Rule;
use bitflags::Flags;
use bl_level::level::Level;

impl Policy {
    /// Applies a rule for the subject that asks for it, the speaker, and answers None; or changes nothing
    /// and answers the first condition that the rule fails. `Give` and `Rescind` need an administrator
    /// (`Admin`), `Current` a level that the speaker's greatest level dominates (`Greatest`),
    /// `Classify` an administrator (`Admin`) who is also trusted (`Trusted`), `Create` an administrator
    /// (`Admin`) and a document that is absent (`Present`), `Delete` an administrator (`Admin`) and one that
    /// is present (`Absent`). The denial names the speaker and the rule's document, which `Current` has none
    /// of. To give a mode that is there, or to rescind one that is not, succeeds and changes nothing. No rule
    /// but `Create` and `Delete` asks whether a document is present. No memory is taken.
    ///
    /// `decide` says of the policy after any rules what it says of any policy: its first fault.
    pub fn apply(&mut self, subject: SubjectId, rule: &Rule) -> Option<Denial>
        requires known { subject < length self.old.subjects }
        requires there { IsRuleOf self.old rule.now }
        ensures fault { result ≡ rule_fault self.old subject rule.now }
        ensures policy { self.new ≡ after_rule self.old subject rule.now }
        ensures permitted { IfNone result (Permits self.old subject rule.now) }
        ensures denied { OnSome result (self.new ≡ self.old) }
        ensures below { CurrentBelowGreatest self.new }
        ensures same_ids { (length self.new.subjects ≡ length self.old.subjects) × (length self.new.documents ≡ length self.old.documents) }
    {
        if let Some(clause) = self.failed_condition(subject, rule) {
            return Some(Denial {
                clause,
                subject,
                object: rule.doc(),
            });
        }
        self.change(subject, rule);
        None
    }

    /// The first condition that a rule of this speaker fails. Each greatest level dominates the current one, as in any policy.
    fn failed_condition(&self, subject: SubjectId, rule: &Rule) -> Option<Clause>
        requires known { subject < length self.now.subjects }
        requires there { IsRuleOf self.now rule.now }
        ensures first { result ≡ failed_condition self.now subject rule.now }
        ensures permitted { IfNone result (Permits self.now subject rule.now) }
        ensures below { CurrentBelowGreatest self.now }
    {
        let speaker = &self.subjects[subject.position() as usize];
        match *rule {
            Rule::Current { level } if !speaker.greatest.dominates(&level) => Some(
                Clause::Greatest,
            ),
            Rule::Current { .. } => None,
            _ if !speaker.admin => Some(Clause::Admin),
            Rule::Classify { .. } if !speaker.trusted => Some(Clause::Trusted),
            Rule::Create { doc } if self.is_present(doc) => Some(Clause::Present),
            Rule::Delete { doc } if !self.is_present(doc) => Some(Clause::Absent),
            _ => None,
        }
    }

    /// Makes the change of a rule that its speaker may ask for.
    fn change(&mut self, subject: SubjectId, rule: &Rule)
        requires known { subject < length self.old.subjects }
        requires there { IsRuleOf self.old rule.now }
        requires permitted { Permits self.old subject rule.now }
        ensures { self.new ≡ rule_makes self.old subject rule.now }
    {
        match *rule {
            Rule::Give { subject, doc, mode } => self.allow(subject, doc, ModeSet::from(mode)),
            Rule::Rescind { subject, doc, mode } => self.withdraw(subject, doc, mode),
            Rule::Current { level } => self.set_current(subject, level),
            Rule::Classify { doc, level } => self.set_level(doc, level),
            Rule::Create { doc } => self.set_present(doc, true),
            Rule::Delete { doc } => self.delete(doc),
        }
    }

    /// Takes a mode out of a cell, which keeps the others.
    fn withdraw(&mut self, subject: SubjectId, doc: DocId, mode: Mode)
        requires known { subject < length self.old.subjects }
        requires there { doc < length self.old.documents }
        ensures { self.new ≡ without_triple self.old (triple subject doc mode) }
    {
        let place = cell_place(subject, doc);
        let modes = self.cells[place].modes.difference(ModeSet::from(mode));
        let level = &self.documents[doc.position() as usize];
        self.cells[place] = self.subjects[subject.position() as usize].cell(level, modes);
    }

    /// Gives a subject a current level, which its greatest level has to dominate. The cells of who is trusted stay, since
    /// the star property does not bind them.
    fn set_current(&mut self, subject: SubjectId, level: Level)
        requires known { subject < length self.old.subjects }
        requires below { Dominates (greatest_of self.old subject) level }
        ensures { self.new ≡ with_current self.old subject level }
    {
        let row = subject.position() as usize;
        let moved = Subject {
            current: level,
            ..self.subjects[row]
        };
        if !moved.trusted {
            mend_row(
                &mut self.cells,
                row * MOST_DOCUMENTS,
                &moved,
                &self.documents,
            );
        }
        self.subjects[row] = moved;
    }

    /// Gives a document a level.
    fn set_level(&mut self, doc: DocId, level: Level)
        requires { doc < length self.old.documents }
        ensures { self.new ≡ with_level self.old doc level }
    {
        let column = doc.position() as usize;
        mend_column(&mut self.cells, column, &self.subjects, &level);
        self.documents[column] = level;
    }

    /// Makes a document present or absent.
    fn set_present(&mut self, doc: DocId, present: bool)
        requires { doc < length self.old.documents }
        ensures { self.new ≡ with_presence self.old doc present }
    {
        self.present[doc.position() as usize] = present;
    }

    /// Makes a document absent, and empties each cell of it.
    fn delete(&mut self, doc: DocId)
        requires { doc < length self.old.documents }
        ensures { self.new ≡ without_cells (with_presence self.old doc false) doc }
    {
        let column = doc.position() as usize;
        let level = self.documents[column];
        empty_column(&mut self.cells, column, &self.subjects, &level);
        self.set_present(doc, false);
    }
}
