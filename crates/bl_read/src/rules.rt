//! What a rule asks, and what is wrong with one that is spelled as it should be. Its names are looked up once; only
//! where that fails each fault is asked of the whole rule before the next, from the left. Nothing here takes memory.
ghost use Rattle.std.specs.Prelude.{◌≡◌, ◌↔◌, ◌∷◌, [], map, All, Contains, Some, IsTrue, IfSome, IfNone, IfOk, IfErr};
ghost use Rattle.std.specs.Prelude.{MatchResult};
ghost use Rattle.bl_level.specs.LevelText as of_level;
ghost use Rattle.bl_level.specs.Name.{AreProper};
ghost use Rattle.bl_level.specs.Table.{AreDistinct, IsFirstRepeated, place_of};
ghost use Rattle.bl_work.specs.First.{IsNameOfFirst};
ghost use Rattle.bl_syntax.specs.RawRules.{raw_names, raw_level, raw_rule};
ghost use Rattle.bl_read.specs.RuleFaults.{category_mention, right_mentions, mentioned, mentions_in, mentions_in_level};
ghost use Rattle.bl_read.specs.RuleFaults.{categories_in, IsKnown, IsRuleFaultless, IsFaultOfRule};
ghost use Rattle.bl_work.specs.RuleMeaning.{MeansRule};
ghost use Rattle.bl_work.specs.SpelledRules.{spell_rule};

use bl_level::level::Level;
use bl_level::name::Name;
use bl_policy::id::{DocId, SubjectId};
use bl_policy::rule::Rule;
use bl_syntax::raw::{RawLevel, RawRight, RawRule};
use bl_work::asked::LineFault;
use bl_work::names::Names;

/// What the place of a name in a rule asks it to be.
#[derive(Clone, Copy, Debug, PartialEq, Eq)]
pub enum Role {
    Subject,
    Document,
    Rank,
    Category,
}

/// What the rule asks, or its fault: `Unknown` with the first name from the left that is no subject, document, rank or
/// category, as its place asks; otherwise `Twice` with the first category from the left that stands a second time in
/// the level. It takes no memory, so that it never answers `Memory`.
pub fn read_rule(names: &Names, rule: &RawRule<'_>) -> Result<Rule, LineFault>
    requires { AreProper (spell_rule (raw_rule rule.now)) }
    ensures found { IfOk result (MeansRule names.now (raw_rule rule.now)) }
    ensures fault { IfErr result (IsFaultOfRule names.now (raw_rule rule.now)) }
{
    match rule_of(names, rule) {
        Some(rule) => Ok(rule),
        None => Err(fault_of(names, rule)),
    }
}

/// The fault of a rule that has one.
fn fault_of(names: &Names, rule: &RawRule<'_>) -> LineFault
    requires proper { AreProper (spell_rule (raw_rule rule.now)) }
    requires faulty { IsRuleFaultless names.now (raw_rule rule.now) → ⊥ }
    ensures { IsFaultOfRule names.now (raw_rule rule.now) result }
{
    if let Err(name) = check_rule_known(names, rule) {
        return LineFault::Unknown(Name::new(name).unwrap());
    }
    if let Err(name) = check_rule_once(rule) {
        return LineFault::Twice(Name::new(name).unwrap());
    }
    unreachable!()
}

/// Err has the first name of the rule, from the left, that is not what its place asks, and Ok says that there is none.
fn check_rule_known<'a>(names: &Names, rule: &RawRule<'a>) -> Result<(), &'a [u8]>
    ensures { let P = IsKnown names.now in
        let xs = mentions_in (raw_rule rule.now) in
        MatchResult result (λ _. All P xs) (λ name. IsNameOfFirst P mentioned xs name.now) }
{
    match rule {
        RawRule::Give(right) => check_right_known(names, right),
        RawRule::Rescind(right) => check_right_known(names, right),
        RawRule::Current(level) => check_level_known(names, level),
        RawRule::Classify { document, level } => {
            check_known(names, Role::Document, document)?;
            check_level_known(names, level)
        }
        RawRule::Create(document) => check_known(names, Role::Document, document),
        RawRule::Delete(document) => check_known(names, Role::Document, document),
    }
}

/// The first name of these that is not what its place asks.
fn check_right_known<'a>(names: &Names, right: &RawRight<'a>) -> Result<(), &'a [u8]>
    ensures { let P = IsKnown names.now in
        let xs = right_mentions right.now.subject.now right.now.document.now in
        MatchResult result (λ _. All P xs) (λ name. IsNameOfFirst P mentioned xs name.now) }
{
    check_known(names, Role::Subject, right.subject)?;
    check_known(names, Role::Document, right.document)
}

/// The first name of the level that is not what its place asks.
fn check_level_known<'a>(names: &Names, level: &RawLevel<'a>) -> Result<(), &'a [u8]>
    ensures { let P = IsKnown names.now in
        let xs = mentions_in_level (raw_level level.now) in
        MatchResult result (λ _. All P xs) (λ name. IsNameOfFirst P mentioned xs name.now) }
{
    check_known(names, Role::Rank, level.rank)?;
    check_categories_known(names, &level.categories)
}

/// The first name of these that is no category.
fn check_categories_known<'a>(names: &Names, categories: &[&'a [u8]]) -> Result<(), &'a [u8]>
    ensures { let P = IsKnown names.now in
        let xs = map category_mention (raw_names categories.now) in
        MatchResult result (λ _. All P xs) (λ name. IsNameOfFirst P mentioned xs name.now) }
{
    for category in categories {
        check_known(names, Role::Category, category)?;
    }
    Ok(())
}

/// This name, where it is not what its place asks.
fn check_known<'a>(names: &Names, role: Role, name: &'a [u8]) -> Result<(), &'a [u8]>
    ensures { let P = IsKnown names.now in
        let xs = record { role = role; word = name.now } ∷ [] in
        MatchResult result (λ _. All P xs) (λ unknown. IsNameOfFirst P mentioned xs unknown.now) }
{
    if is_known(names, role, name) {
        Ok(())
    } else {
        Err(name)
    }
}

/// Whether the name is what its place asks.
fn is_known(names: &Names, role: Role, name: &[u8]) -> bool
    ensures { IsTrue result ↔ IsKnown names.now (record { role = role; word = name.now }) }
{
    match role {
        Role::Subject => names.subject(name).is_some(),
        Role::Document => names.document(name).is_some(),
        Role::Rank => names.scheme().ranks().position_of(name).is_some(),
        Role::Category => names.scheme().categories().position_of(name).is_some(),
    }
}

/// Err has the first category of the rule, from the left, that stands a second time in the level, and Ok says that
/// there is none.
fn check_rule_once<'a>(rule: &RawRule<'a>) -> Result<(), &'a [u8]>
    ensures { let xs = categories_in (raw_rule rule.now) in
        MatchResult result (λ _. AreDistinct xs) (λ name. IsFirstRepeated xs name.now) }
{
    match rule {
        RawRule::Give(_) | RawRule::Rescind(_) => Ok(()),
        RawRule::Create(_) | RawRule::Delete(_) => Ok(()),
        RawRule::Current(level) => check_once(&level.categories),
        RawRule::Classify { level, .. } => check_once(&level.categories),
    }
}

/// The first name of these that stood before.
fn check_once<'a>(categories: &[&'a [u8]]) -> Result<(), &'a [u8]>
    ensures { let xs = raw_names categories.now in
        MatchResult result (λ _. AreDistinct xs) (λ name. IsFirstRepeated xs name.now) }
{
    for (i, category) in categories.iter().enumerate() {
        if has_name(&categories[..i], category) {
            return Err(category);
        }
    }
    Ok(())
}

/// Whether one of these is the name.
fn has_name(names: &[&[u8]], name: &[u8]) -> bool
    ensures { IsTrue result ↔ Contains (raw_names names.now) name.now }
{
    for other in names {
        if *other == name {
            return true;
        }
    }
    false
}

/// The rule, its names looked up. None where it has a fault.
fn rule_of(names: &Names, rule: &RawRule<'_>) -> Option<Rule>
    ensures found { IfSome result (MeansRule names.now (raw_rule rule.now)) }
    ensures fault { IfNone result (IsRuleFaultless names.now (raw_rule rule.now) → ⊥) }
{
    match rule {
        RawRule::Give(right) => {
            let (subject, doc) = right_of(names, right)?;
            let mode = right.mode;
            Some(Rule::Give { subject, doc, mode })
        }
        RawRule::Rescind(right) => {
            let (subject, doc) = right_of(names, right)?;
            let mode = right.mode;
            Some(Rule::Rescind { subject, doc, mode })
        }
        RawRule::Current(level) => {
            let level = level_of(names, level)?;
            Some(Rule::Current { level })
        }
        RawRule::Classify { document, level } => {
            let doc = names.document(document)?;
            let level = level_of(names, level)?;
            Some(Rule::Classify { doc, level })
        }
        RawRule::Create(document) => {
            let doc = names.document(document)?;
            Some(Rule::Create { doc })
        }
        RawRule::Delete(document) => {
            let doc = names.document(document)?;
            Some(Rule::Delete { doc })
        }
    }
}

/// The subject and the document. None where one is unknown.
fn right_of(names: &Names, right: &RawRight<'_>) -> Option<(SubjectId, DocId)>
    ensures found { IfSome result (λ both. (place_of right.now.subject.now names.now.subjects ≡ Some both.0)
        × (place_of right.now.document.now names.now.documents ≡ Some both.1)) }
    ensures unknown { IfNone result (All (IsKnown names.now)
        (right_mentions right.now.subject.now right.now.document.now) → ⊥) }
{
    let subject = names.subject(right.subject)?;
    let document = names.document(right.document)?;
    Some((subject, document))
}

/// The level, its names looked up. None where one is unknown, or a category stands twice.
fn level_of(names: &Names, level: &RawLevel<'_>) -> Option<Level>
    ensures found { IfSome result (of_level.Means names.now.scheme (raw_level level.now)) }
    ensures fault { IfNone result (All (IsKnown names.now) (mentions_in_level (raw_level level.now))
        → AreDistinct (raw_names level.now.categories.items) → ⊥) }
{
    match names.scheme().level(level.rank, &level.categories) {
        Ok(level) => Some(level),
        Err(_) => None,
    }
}
