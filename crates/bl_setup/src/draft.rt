//! A setup while it is read: what the lines so far declare.
ghost use Rattle.std.specs.Prelude.{◌≡◌, ◌↔◌, ◌≤◌, ◌∷◌, ℕ, List, length, IsTrue, Contains, MatchResult, OnOk, OnErr, IfOk, IfErr};
ghost use Rattle.std.specs.List.{list_all};
ghost use Rattle.bl_level.specs.Name.{IsName, AreProper};
ghost use Rattle.bl_level.specs.LevelText.{Means};
ghost use Rattle.bl_policy.specs.declared.access.Mode.{Mode};
ghost use Rattle.bl_policy.specs.Limits.{most_documents};
ghost use Rattle.bl_policy.specs.Mode.{has_mode};
ghost use Rattle.bl_policy.specs.Policy.{with_declared};
ghost use Rattle.bl_work.specs.Content.{is_content_byte};
ghost use Rattle.bl_declare.specs.Declaration.{declared_content, spell_declaration};
ghost use Rattle.bl_setup.specs.Grammar.{Adds, AddsSubject, AddsDocument, AddsModes, LineAdds};
ghost use Rattle.bl_declare.specs.Faults.{UnlessMemory};
ghost use Rattle.bl_setup.specs.FirstSetupFault as first;
ghost use Rattle.bl_setup.specs.FirstSetupFault.{DeclarationFault, LineFault, FirstFails, asked_of_level};
ghost use Rattle.bl_setup.specs.Taking.{Refuses};
ghost use Rattle.bl_declare.specs.Declaration as text;
ghost use Rattle.bl_setup.specs.Agreement.{Agree, of_scheme};
ghost use Rattle.bl_declare.specs.Words.{level_text, subject_text, document_text, allow_text, declaration_of};
ghost use Rattle.bl_setup.specs.Draft.{setup_of};

use bitflags::Flags;
use bl_declare::declaration::{AllowWords, DocumentWords, LevelWords, SubjectWords, Words};
use bl_declare::fault::SetupFaultKind;
use bl_declare::line::words_of;
use bl_level::level::Level;
use bl_level::name::Name;
use bl_level::scheme::Scheme;
use bl_policy::access::{Mode, ModeSet};
use bl_policy::id::DocId;
use bl_policy::policy::{AddFault, MOST_DOCUMENTS, MOST_SUBJECTS, Policy};
use bl_work::document::{Document, MOST_BYTES};
use bl_work::names::Names;
use std::alloc::{AllocError, Global};

/// Names, a policy over their places, and the contents of the documents.
#[derive(Drop)]
pub struct Draft {
    pub names: Names,
    pub policy: Policy,
    pub contents: Vec<Document>,
}

/// The level that a text means.
fn level_of(scheme: &Scheme, words: &LevelWords<'_>) -> Result<Level, SetupFaultKind>
    ensures { MatchResult result (Means scheme.now (level_text words.now))
        (FirstFails (asked_of_level scheme.now (level_text words.now))) }
{
    Ok(scheme.level(words.rank, words.categories.as_slice())?)
}

/// The set of these modes.
fn set_of(mode: Mode, modes: &[Mode]) -> ModeSet
    ensures { (m : Mode) → IsTrue (has_mode result m) ↔ Contains (mode ∷ modes.now) m }
{
    let mut set = ModeSet::from(mode);
    for mode in modes {
        set.insert(ModeSet::from(*mode));
    }
    set
}

/// Adds a document of this level, which is present or not.
fn declare(policy: &mut Policy, level: Level, present: bool) -> Result<DocId, AddFault>
    ensures ok { IfOk result (λ _. policy.new ≡ with_declared policy.old level present) }
    ensures too_many { OnErr result (most_documents ≤ length policy.old.documents) }
{
    if present {
        policy.add_document(level)
    } else {
        policy.add_reserved(level)
    }
}

impl Draft {
    /// A scheme, without a subject or a document.
    pub fn new(alloc: Global, scheme: Scheme) -> Result<Draft, AllocError>
        ensures value { IfOk result (λ draft. setup_of draft ≡ of_scheme scheme) }
        ensures agree { IfOk result (λ draft. Agree (setup_of draft)) }
    {
        let contents = Vec::with_capacity(alloc, MOST_DOCUMENTS)?;
        let policy = Policy::new(alloc)?;
        let names = Names::new(alloc, scheme)?;
        Ok(Draft {
            names,
            policy,
            contents,
        })
    }

    /// Adds a subject.
    fn add_subject(&mut self, subject: &SubjectWords<'_>) -> Result<(), SetupFaultKind>
        requires name { IsName subject.now.name.now }
        requires agree { Agree (setup_of self.old) }
        ensures ok { OnOk result (AddsSubject (setup_of self.old) (subject_text subject.now) (setup_of self.new)) }
        ensures agree { OnOk result (Agree (setup_of self.new)) }
        ensures fault { IfErr result (λ kind. UnlessMemory kind (DeclarationFault (first.declared (setup_of self.old)) (text.subject (subject_text subject.now)) kind)) }
    {
        if self.names.subjects() >= MOST_SUBJECTS {
            return Err(SetupFaultKind::TooMany);
        }
        if self.names.subject(subject.name).is_some() {
            return Err(SetupFaultKind::Repeated);
        }
        let greatest = level_of(self.names.scheme(), &subject.greatest)?;
        let current = level_of(self.names.scheme(), &subject.current)?;
        self.policy
            .add_subject(greatest, current, subject.trusted, subject.admin)?;
        self.names.add_subject(Name::new(subject.name).unwrap())?;
        Ok(())
    }

    /// Adds a document, which is present where it has a content.
    fn add_document(
        &mut self,
        alloc: Global,
        document: &DocumentWords<'_>,
    ) -> Result<(), SetupFaultKind>
        requires name { IsName document.now.name.now }
        requires plain { IsTrue (list_all is_content_byte (declared_content (document_text document.now))) }
        requires agree { Agree (setup_of self.old) }
        ensures ok { OnOk result (AddsDocument (setup_of self.old) (document_text document.now) (setup_of self.new)) }
        ensures agree { OnOk result (Agree (setup_of self.new)) }
        ensures fault { IfErr result (λ kind. UnlessMemory kind (DeclarationFault (first.declared (setup_of self.old)) (text.document (document_text document.now)) kind)) }
    {
        if self.names.documents() >= MOST_DOCUMENTS {
            return Err(SetupFaultKind::TooMany);
        }
        let content = document.content.unwrap_or(b"");
        if content.len() > MOST_BYTES {
            return Err(SetupFaultKind::TooMany);
        }
        if self.names.document(document.name).is_some() {
            return Err(SetupFaultKind::Repeated);
        }
        let level = level_of(self.names.scheme(), &document.level)?;
        declare(&mut self.policy, level, document.content.is_some())?;
        self.contents.push(Document::new(alloc, content)?)?;
        self.names.add_document(Name::new(document.name).unwrap())?;
        Ok(())
    }

    /// Adds modes to a cell.
    fn add_modes(&mut self, allow: &AllowWords<'_>) -> Result<(), SetupFaultKind>
        requires { Agree (setup_of self.old) }
        ensures ok { OnOk result (AddsModes (setup_of self.old) (allow_text allow.now) (setup_of self.new)) }
        ensures agree { OnOk result (Agree (setup_of self.new)) }
        ensures fault { IfErr result (λ kind. UnlessMemory kind (DeclarationFault (first.declared (setup_of self.old)) (text.allow (allow_text allow.now)) kind)) }
    {
        let Some(subject) = self.names.subject(allow.subject) else {
            return Err(SetupFaultKind::Unknown);
        };
        let Some(document) = self.names.document(allow.document) else {
            return Err(SetupFaultKind::Unknown);
        };
        let modes = set_of(allow.mode, allow.modes.as_slice());
        self.policy.allow(subject, document, modes);
        Ok(())
    }

    /// Adds what a line declares that stands behind the first two.
    fn add(&mut self, alloc: Global, words: &Words<'_>) -> Result<(), SetupFaultKind>
        requires proper { AreProper (spell_declaration (declaration_of words.now)) }
        requires agree { Agree (setup_of self.old) }
        ensures ok { OnOk result (Adds (setup_of self.old) (declaration_of words.now) (setup_of self.new)) }
        ensures agree { OnOk result (Agree (setup_of self.new)) }
        ensures fault { IfErr result (λ kind. UnlessMemory kind (Refuses (first.declared (setup_of self.old)) (declaration_of words.now) kind)) }
    {
        match words {
            Words::Ranks(_, _) | Words::Categories(_) => Err(SetupFaultKind::Syntax),
            Words::Subject(subject) => self.add_subject(subject),
            Words::Document(document) => self.add_document(alloc, document),
            Words::Allow(allow) => self.add_modes(allow),
        }
    }

    /// Adds what a line behind the first two declares.
    pub fn add_line(&mut self, alloc: Global, line: &[u8]) -> Result<(), SetupFaultKind>
        requires { Agree (setup_of self.old) }
        ensures ok { OnOk result (LineAdds (setup_of self.old) line.now (setup_of self.new)) }
        ensures agree { OnOk result (Agree (setup_of self.new)) }
        ensures fault { IfErr result (λ kind. UnlessMemory kind (LineFault (first.declared (setup_of self.old)) line.now kind)) }
    {
        let words = words_of(alloc, line)?;
        self.add(alloc, &words)
    }
}
