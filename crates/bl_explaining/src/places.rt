//! What made it so: where the setup file says what decides, and which events changed that last.
ghost use Rattle.std.specs.Prelude.{◌≡◌, ◌<◌, IfOk, IfSome, length};
ghost use Rattle.bl_explain_text.specs.Reasons.{document_name, subject_name};
ghost use Rattle.bl_explaining.specs.Explained.{IsSetting};
ghost use Rattle.bl_explaining.specs.Places.{ArePlaces, AreRulePlaces, IsDocumentAt, IsRightAt, IsRuleDocumentAt, IsSubjectAt};
ghost use Rattle.bl_explaining.specs.Places.{between, both_text, compared_text, origin_text, place_text, source};
ghost use Rattle.bl_policy.specs.RuleEffect.{HasIdsBelow};

use crate::setting::Setting;
use bl_explain::setup_lines::{Sought, declared_at};
use bl_explain::since::Since;
use bl_policy::access::{Access, Mode};
use bl_policy::denial::Clause;
use bl_policy::id::DocId;
use bl_policy::rule::Rule;
use itoa::Buffer;
use std::alloc::{AllocError, Global};

/// The numbers of the setup file's lines that say what decides, each from 1, none where no line does; and the events that
/// changed it last.
#[derive(Clone, Copy)]
pub struct Places {
    /// That of the subject.
    pub subject: Option<usize>,
    /// That of the document.
    pub document: Option<usize>,
    /// That of the right.
    pub right: Option<usize>,
    /// The events, by their numbers.
    pub since: Since,
}

/// The line of the subject that asks.
fn subject_at(setting: &Setting<'_>) -> Result<Option<usize>, AllocError>
    requires { IsSetting setting.now }
    ensures { IfOk result (IsSubjectAt setting.now.moment.bytes.now (subject_name setting.now.moment.setup.now.names setting.now.subject)) }
{
    let name = setting.subject_name();
    declared_at(setting.alloc, setting.moment.bytes, &Sought::Subject(name))
}

/// The line of a document.
fn document_at(setting: &Setting<'_>, doc: DocId) -> Result<Option<usize>, AllocError>
    requires { doc < length setting.now.moment.setup.now.names.documents }
    ensures { IfOk result (IsDocumentAt setting.now.moment.bytes.now (document_name setting.now.moment.setup.now.names doc)) }
{
    let name = setting.document_name(doc);
    declared_at(setting.alloc, setting.moment.bytes, &Sought::Document(name))
}

/// The line of the right to an access.
fn right_at(setting: &Setting<'_>, access: &Access) -> Result<Option<usize>, AllocError>
    requires setting { IsSetting setting.now }
    requires there { access.now.doc < length setting.now.moment.setup.now.names.documents }
    ensures { IfOk result (IsRightAt setting.now.moment.bytes.now (subject_name setting.now.moment.setup.now.names setting.now.subject)
        (document_name setting.now.moment.setup.now.names access.now.doc) access.now.mode) }
{
    let subject = setting.subject_name();
    let document = setting.document_name(access.doc);
    let sought = Sought::Right(subject, document, access.mode);
    declared_at(setting.alloc, setting.moment.bytes, &sought)
}

impl Places {
    /// Those of what decides an access.
    pub(crate) fn of(setting: &Setting<'_>, access: &Access) -> Result<Places, AllocError>
        requires setting { IsSetting setting.now }
        requires there { access.now.doc < length setting.now.moment.setup.now.names.documents }
        ensures { IfOk result (ArePlaces setting.now access.now) }
    {
        let subject = subject_at(setting)?;
        let document = document_at(setting, access.doc)?;
        let right = right_at(setting, access)?;
        let since = setting.since(access)?;
        Ok(Places {
            subject,
            document,
            right,
            since,
        })
    }

    /// Those of what decides a rule.
    pub(crate) fn of_rule(setting: &Setting<'_>, rule: &Rule) -> Result<Places, AllocError>
        requires setting { IsSetting setting.now }
        requires there { HasIdsBelow (length setting.now.moment.setup.now.names.subjects) (length setting.now.moment.setup.now.names.documents) rule.now }
        ensures { IfOk result (AreRulePlaces setting.now rule.now) }
    {
        let subject = subject_at(setting)?;
        let document = rule_document_at(setting, rule.doc())?;
        let since = setting.rule_since(rule.doc())?;
        Ok(Places {
            subject,
            document,
            right: None,
            since,
        })
    }

    /// What the simple-security property compares, where something is observed.
    fn compared_text(&self, alloc: Global, path: &str, mode: Mode) -> Result<Vec<u8>, AllocError>
        ensures { IfOk result (λ text. text.items ≡ compared_text path.now self.now mode) }
    {
        match mode {
            Mode::Append => Ok(Vec::new(alloc)),
            Mode::Read | Mode::Write => {
                let greatest = place_text(alloc, path, self.subject)?;
                let level = origin_text(alloc, path, self.since.level, self.document)?;
                both_text(alloc, &greatest, &level)
            }
        }
    }

    /// The lines or events that made a test be answered so.
    pub(crate) fn source(
        &self,
        alloc: Global,
        path: &str,
        mode: Mode,
        clause: Clause,
    ) -> Result<Vec<u8>, AllocError>
        ensures { IfOk result (λ text. text.items ≡ source path.now self.now mode clause) }
    {
        let since = self.since;
        match clause {
            Clause::Absent | Clause::Present => {
                origin_text(alloc, path, since.present, self.document)
            }
            Clause::Simple => self.compared_text(alloc, path, mode),
            Clause::Star => origin_text(alloc, path, since.current, self.subject),
            Clause::Admin | Clause::Trusted | Clause::Greatest => {
                place_text(alloc, path, self.subject)
            }
            Clause::Discretionary => origin_text(alloc, path, since.allowed, self.right),
            Clause::Carry => Ok(Vec::new(alloc)),
        }
    }
}

/// The line of a rule's document, where it has one.
fn rule_document_at(setting: &Setting<'_>, doc: Option<DocId>) -> Result<Option<usize>, AllocError>
    requires { IfSome doc (λ o. o < length setting.now.moment.setup.now.names.documents) }
    ensures { IfOk result (IsRuleDocumentAt setting.now.moment.bytes.now setting.now.moment.setup.now.names doc) }
{
    match doc {
        Some(doc) => document_at(setting, doc),
        None => Ok(None),
    }
}

/// A line as editors know it; nothing where there is none.
fn place_text(alloc: Global, path: &str, number: Option<usize>) -> Result<Vec<u8>, AllocError>
    ensures { IfOk result (λ text. text.items ≡ place_text path.now number) }
{
    let mut text = Vec::new(alloc);
    let Some(number) = number else {
        return Ok(text);
    };
    let mut digits = Buffer::new();
    text.extend_from_slice(path.as_bytes())?;
    text.extend_from_slice(b":")?;
    text.extend_from_slice(digits.format(number as u64).as_bytes())?;
    Ok(text)
}

/// The event that changed a value last, by its number; else the line that declared it.
fn origin_text(
    alloc: Global,
    path: &str,
    event: Option<u64>,
    line: Option<usize>,
) -> Result<Vec<u8>, AllocError>
    ensures { IfOk result (λ text. text.items ≡ origin_text path.now event line) }
{
    let Some(event) = event else {
        return place_text(alloc, path, line);
    };
    let mut text = Vec::new(alloc);
    let mut digits = Buffer::new();
    text.extend_from_slice(b"event ")?;
    text.extend_from_slice(digits.format(event).as_bytes())?;
    Ok(text)
}

/// What stands between two texts: nothing, where one of them is empty.
fn between<'a>(one: &[u8], other: &[u8]) -> &'a [u8]
    ensures { result.now ≡ between one.now other.now }
{
    match one {
        [] => b"",
        [_, ..] => match other {
            [] => b"",
            [_, ..] => b", ",
        },
    }
}

/// Two texts, where they are apart.
fn both_text(alloc: Global, one: &[u8], other: &[u8]) -> Result<Vec<u8>, AllocError>
    ensures { IfOk result (λ text. text.items ≡ both_text one.now other.now) }
{
    let mut text = Vec::new(alloc);
    text.extend_from_slice(one)?;
    text.extend_from_slice(between(one, other))?;
    text.extend_from_slice(other)?;
    Ok(text)
}
