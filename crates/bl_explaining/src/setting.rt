//! At which moment of a run over a setup file something is explained, and for whom.
ghost use Rattle.std.specs.Prelude.{◌≡◌, ◌<◌, IfOk, IfSome, length};
ghost use Rattle.bl_explaining.specs.Explained.{IsSetting};
ghost use Rattle.bl_explaining.specs.Places.{rule_since_in, since_in};
ghost use Rattle.bl_explaining.specs.Shown.{grounds_in, rule_grounds_in};
ghost use Rattle.bl_explain_text.specs.Reasons.{HoldsGrounds, document_name, subject_name};
ghost use Rattle.bl_explain_text.specs.RuleReasons.{HoldsRuleGrounds};
ghost use Rattle.bl_explaining.specs.Rules.{IsRuleOfSetting};

use bl_explain::grounds::Grounds;
use bl_explain::rules::RuleGrounds;
use bl_explain::since::{Applied, Since, made_by};
use bl_level::level::Level;
use bl_policy::access::{Access, Mode};
use bl_policy::id::{DocId, SubjectId};
use bl_policy::policy::Policy;
use bl_policy::rule::Rule;
use bl_setup::setup::Setup;
use bl_work::names::Names;
use std::alloc::{AllocError, Global};

/// A moment of a run over a setup file.
#[derive(Clone, Copy)]
pub struct Moment<'a> {
    /// The bytes of the setup file.
    pub bytes: &'a [u8],
    /// The setup that they are.
    pub setup: &'a Setup,
    /// The rules that the run applied so far, refused or not, in their order: none as it begins.
    pub rules: &'a [Applied],
    /// The policy that they made of the setup's.
    pub policy: &'a Policy,
}

/// At which moment something is explained, and for whom.
#[derive(Clone, Copy)]
pub struct Setting<'a> {
    /// Where memory comes from.
    pub alloc: Global,
    /// The name of the setup file.
    pub path: &'a str,
    /// The moment.
    pub moment: Moment<'a>,
    /// The subject that asks.
    pub subject: SubjectId,
    /// The level that is carried.
    pub carried: Level,
}

impl<'a> Setting<'a> {
    /// The names of the setup.
    pub(crate) fn names(&self) -> &'a Names
        ensures { result.now ≡ self.now.moment.setup.now.names }
    {
        self.moment.setup.names()
    }

    /// The name of the subject.
    pub(crate) fn subject_name(&self) -> &'a [u8]
        requires { IsSetting self.now }
        ensures { result.now ≡ subject_name self.now.moment.setup.now.names self.now.subject }
    {
        self.names().subject_name(self.subject).bytes()
    }

    /// The name of a document.
    pub(crate) fn document_name(&self, doc: DocId) -> &'a [u8]
        requires { doc < length self.now.moment.setup.now.names.documents }
        ensures { result.now ≡ document_name self.now.moment.setup.now.names doc }
    {
        self.names().document_name(doc).bytes()
    }

    /// What decides an access.
    pub(crate) fn grounds(&self, access: &Access) -> Grounds
        requires setting { IsSetting self.now }
        requires there { access.now.doc < length self.now.moment.setup.now.names.documents }
        ensures value { result ≡ grounds_in self.now access.now }
        ensures held { HoldsGrounds self.now.moment.setup.now.names.scheme result }
    {
        Grounds::of(self.moment.policy, self.subject, &self.carried, access)
    }

    /// What decides a rule.
    pub(crate) fn rule_grounds(&self, rule: &Rule) -> RuleGrounds
        requires { IsRuleOfSetting self.now rule.now }
        ensures value { result ≡ rule_grounds_in self.now rule.now }
        ensures held { HoldsRuleGrounds self.now.moment.setup.now.names.scheme result rule.now }
    {
        RuleGrounds::of(self.moment.policy, self.subject, rule)
    }

    /// Since when what decides an access stands. An error comes only where a growth is refused.
    pub(crate) fn since(&self, access: &Access) -> Result<Since, AllocError>
        requires setting { IsSetting self.now }
        requires there { access.now.doc < length self.now.moment.setup.now.names.documents }
        ensures { IfOk result (λ since. since ≡ since_in self.now access.now) }
    {
        let began = self.moment.setup.policy();
        made_by(began, self.subject, access, self.moment.rules)
    }

    /// Since when the document of a rule is present or absent, where it has one. An error comes only where a growth is
    /// refused.
    pub(crate) fn rule_since(&self, doc: Option<DocId>) -> Result<Since, AllocError>
        requires setting { IsSetting self.now }
        requires there { IfSome doc (λ o. o < length self.now.moment.setup.now.names.documents) }
        ensures { IfOk result (λ since. since ≡ rule_since_in self.now doc) }
    {
        let Some(doc) = doc else {
            return Ok(Since {
                present: None,
                level: None,
                current: None,
                allowed: None,
            });
        };
        self.since(&Access {
            mode: Mode::Read,
            doc,
        })
    }
}
