//! What is told of a rule.
ghost use Rattle.std.specs.Prelude.{◌≡◌, IfOk, OnOk};
ghost use Rattle.bl_explain_text.specs.RuleReasons.{rule_reason};
ghost use Rattle.bl_explaining.specs.Explained.{TellsRule};
ghost use Rattle.bl_explaining.specs.Rules.{IsRuleOfSetting};
ghost use Rattle.bl_explaining.specs.Shown.{rule_grounds_in, wider_rule, wider_second, with_condition, with_conditions, with_second};

use crate::explained::Explained;
use crate::places::Places;
use crate::rows::{put_line, put_row};
use crate::setting::Setting;
use bl_explain::tests::Tested;
use bl_explain_text::rule_reasons::rule_reason;
use bl_explain_text::telling::rule_verdict;
use bl_policy::access::Mode;
use bl_policy::denial::Clause;
use bl_policy::rule::Rule;
use std::alloc::AllocError;

/// Why a condition is answered so.
fn why(setting: &Setting<'_>, rule: &Rule, clause: Clause) -> Result<Vec<u8>, AllocError>
    requires { IsRuleOfSetting setting.now rule.now }
    ensures { IfOk result (λ text. text.items
        ≡ rule_reason setting.now.moment.setup.now.names setting.now.subject rule.now (rule_grounds_in setting.now rule.now) clause) }
{
    let grounds = setting.rule_grounds(rule);
    let names = setting.names();
    rule_reason(
        setting.alloc,
        names,
        setting.subject,
        rule,
        &grounds,
        clause,
    )
}

/// The greater one of a width and that of why a condition is answered so.
fn wider(
    setting: &Setting<'_>,
    rule: &Rule,
    width: usize,
    tested: Tested,
) -> Result<usize, AllocError>
    requires { IsRuleOfSetting setting.now rule.now }
    ensures { IfOk result (λ most. most ≡ wider_rule setting.now rule.now width tested) }
{
    let why = why(setting, rule, tested.clause)?;
    Ok(width.max(why.len()))
}

/// The same of a second condition, where there is one.
fn wider_second(
    setting: &Setting<'_>,
    rule: &Rule,
    width: usize,
    second: Option<Tested>,
) -> Result<usize, AllocError>
    requires { IsRuleOfSetting setting.now rule.now }
    ensures { IfOk result (λ most. most ≡ wider_second setting.now rule.now width second) }
{
    match second {
        Some(tested) => wider(setting, rule, width, tested),
        None => Ok(width),
    }
}

/// A rule, what made it so, and how wide its reasons stand.
#[derive(Clone, Copy)]
struct Placed {
    rule: Rule,
    places: Places,
    width: usize,
}

/// Puts the line of a condition behind a text.
fn put_condition(
    text: &mut Vec<u8>,
    setting: &Setting<'_>,
    placed: &Placed,
    tested: Tested,
) -> Result<(), AllocError>
    requires { IsRuleOfSetting setting.now placed.now.rule }
    ensures { OnOk result (text.new.items
        ≡ with_condition setting.now placed.now.rule placed.now.places placed.now.width text.old.items tested) }
{
    let Placed {
        rule,
        places,
        width,
    } = *placed;
    let why = why(setting, &rule, tested.clause)?;
    let source = places.source(setting.alloc, setting.path, Mode::Read, tested.clause)?;
    put_row(text, setting.alloc, tested, &why, &source, width)
}

/// Puts that of a second condition behind a text, where there is one.
fn put_second(
    text: &mut Vec<u8>,
    setting: &Setting<'_>,
    placed: &Placed,
    second: Option<Tested>,
) -> Result<(), AllocError>
    requires { IsRuleOfSetting setting.now placed.now.rule }
    ensures { OnOk result (text.new.items
        ≡ with_second setting.now placed.now.rule placed.now.places placed.now.width text.old.items second) }
{
    match second {
        Some(tested) => put_condition(text, setting, placed, tested),
        None => Ok(()),
    }
}

/// Puts the lines of the conditions of a rule behind a text.
fn put_conditions(
    text: &mut Vec<u8>,
    setting: &Setting<'_>,
    rule: Rule,
    places: Places,
    first: Tested,
    second: Option<Tested>,
) -> Result<(), AllocError>
    requires { IsRuleOfSetting setting.now rule }
    ensures { OnOk result (text.new.items ≡ with_conditions setting.now rule places first second text.old.items) }
{
    let own = wider(setting, &rule, 0, first)?;
    let width = wider_second(setting, &rule, own, second)?;
    let placed = Placed {
        rule,
        places,
        width,
    };
    put_condition(text, setting, &placed, first)?;
    put_second(text, setting, &placed, second)
}

/// What is told of a rule, of which these are the words, and whether it is permitted. An error comes only where a growth is
/// refused.
pub fn tell_rule(setting: &Setting<'_>, rule: &Rule, words: &[u8]) -> Result<Explained, AllocError>
    requires { IsRuleOfSetting setting.now rule.now }
    ensures { IfOk result (λ told. TellsRule setting.now rule.now words.now told.text.items told.granted) }
{
    let alloc = setting.alloc;
    let tests = setting.rule_grounds(rule).tests(rule);
    let failed = tests.fails_first();
    let places = Places::of_rule(setting, rule)?;
    let line = rule_verdict(alloc, setting.names(), setting.subject, failed, words)?;
    let mut text = Vec::new(alloc);
    put_line(&mut text, &line)?;
    put_conditions(&mut text, setting, *rule, places, tests.first, tests.second)?;
    Ok(Explained {
        text,
        granted: failed.is_none(),
    })
}
