//! Why a condition of a rule is answered so, in words.
ghost use Rattle.std.specs.Prelude.{◌≡◌, ◌↔◌, ◌<◌, IfOk, IfSome, IsTrue, length};
ghost use Rattle.bl_policy.specs.RuleEffect.{HasIdsBelow};
ghost use Rattle.bl_explain_text.specs.RuleReasons.{HoldsAsked, HoldsRuleGrounds, admin_words, document_reason, greatest_reason, rule_reason};

use crate::reasons::{
    both, document_name, greatest_words, subject_name, there_words, trusted_words,
};
use bl_explain::rules::RuleGrounds;
use bl_level::scheme::Scheme;
use bl_policy::denial::Clause;
use bl_policy::id::{DocId, SubjectId};
use bl_policy::rule::Rule;
use bl_work::names::Names;
use std::alloc::{AllocError, Global};

fn admin_words(admin: bool) -> &'static [u8]
    ensures { result.now ≡ admin_words admin }
{
    if admin {
        b" is an administrator"
    } else {
        b" is no administrator"
    }
}

/// Whether the scheme has a name for the level that a rule asks for as the current one.
fn holds_asked(scheme: &Scheme, rule: &Rule) -> bool
    ensures { IsTrue result ↔ HoldsAsked scheme.now rule.now }
{
    match rule {
        Rule::Current { level } => scheme.holds(level),
        Rule::Give { .. }
        | Rule::Rescind { .. }
        | Rule::Classify { .. }
        | Rule::Create { .. }
        | Rule::Delete { .. } => true,
    }
}

/// Whether the scheme has names for the levels that a rule is judged by.
pub fn holds_rule_grounds(scheme: &Scheme, grounds: &RuleGrounds, rule: &Rule) -> bool
    ensures { IsTrue result ↔ HoldsRuleGrounds scheme.now grounds.now rule.now }
{
    scheme.holds(&grounds.greatest) && holds_asked(scheme, rule)
}

/// What the speaker's greatest level dominates, of a rule that asks for a current level.
fn greatest(
    alloc: Global,
    names: &Names,
    speaker: SubjectId,
    rule: &Rule,
    grounds: &RuleGrounds,
) -> Result<Vec<u8>, AllocError>
    requires known { speaker < length names.now.subjects }
    requires held { HoldsRuleGrounds names.now.scheme grounds.now rule.now }
    ensures { IfOk result (λ text. text.items ≡ greatest_reason names.now speaker rule.now grounds.now) }
{
    match rule {
        Rule::Current { level } => {
            greatest_words(alloc, names, speaker, &grounds.greatest, level)
        }
        Rule::Give { .. }
        | Rule::Rescind { .. }
        | Rule::Classify { .. }
        | Rule::Create { .. }
        | Rule::Delete { .. } => Ok(Vec::new(alloc)),
    }
}

/// Whether a document is present, where there is one.
fn document(
    alloc: Global,
    names: &Names,
    doc: Option<DocId>,
    present: Option<bool>,
) -> Result<Vec<u8>, AllocError>
    requires { IfSome doc (λ o. o < length names.now.documents) }
    ensures { IfOk result (λ text. text.items ≡ document_reason names.now doc present) }
{
    let (Some(doc), Some(present)) = (doc, present) else {
        return Ok(Vec::new(alloc));
    };
    both(alloc, document_name(names, doc), there_words(present))
}

/// Why this condition, of the rule of a speaker on these grounds, is answered as it is. No rule is tested by a property of
/// accesses but presence: of such a clause the text is empty. `holds_rule_grounds` tests what the scheme has to hold. An
/// error comes only where a growth is refused.
pub fn rule_reason(
    alloc: Global,
    names: &Names,
    speaker: SubjectId,
    rule: &Rule,
    grounds: &RuleGrounds,
    clause: Clause,
) -> Result<Vec<u8>, AllocError>
    requires known { speaker < length names.now.subjects }
    requires there { HasIdsBelow (length names.now.subjects) (length names.now.documents) rule.now }
    requires held { HoldsRuleGrounds names.now.scheme grounds.now rule.now }
    ensures { IfOk result (λ text. text.items ≡ rule_reason names.now speaker rule.now grounds.now clause) }
{
    let name = subject_name(names, speaker);
    match clause {
        Clause::Admin => both(alloc, name, admin_words(grounds.admin)),
        Clause::Trusted => both(alloc, name, trusted_words(grounds.trusted)),
        Clause::Greatest => greatest(alloc, names, speaker, rule, grounds),
        Clause::Present | Clause::Absent => document(alloc, names, rule.doc(), grounds.present),
        Clause::Simple | Clause::Star | Clause::Discretionary | Clause::Carry => {
            Ok(Vec::new(alloc))
        }
    }
}
