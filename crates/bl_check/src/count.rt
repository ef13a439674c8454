//! How deep a `when` goes, how many `when` it has and how many accesses each of them has.
ghost use Rattle.std.specs.Prelude.{◌≡◌, ◌+◌, ◌≤◌, ◌↔◌, [], ◌∷◌, map, IsTrue, MatchOption};
ghost use Rattle.bl_work.specs.Spelled.{SpelledAccess};
ghost use Rattle.bl_syntax.specs.RawBodies.{raw_access, raw_body};
ghost use Rattle.bl_work.specs.Meaning.{whens};
ghost use Rattle.bl_work.specs.WhenFaults.{depth_in, AreFew};
ghost use Rattle.bl_work.specs.FirstWhenFault.{AreFewIn};

use bl_syntax::raw::{RawAccess, RawBody, RawStatement};
use bl_work::accesses::MOST_ACCESSES;

/// How deep a `when` or an `if` may be, the outermost `when` being at depth 1.
pub const MOST_DEPTH: usize = 8;

/// How many `when` a line may have.
pub const MOST_WHENS: usize = 32;

/// Whether nothing in this body is more than so many steps below it.
#[cycle(depth)]
pub fn is_body_shallow(body: &RawBody<'_>, most: usize) -> bool
    ensures { IsTrue result ↔ (depth_in body.now ≤ most) }
{
    for statement in body.statements() {
        if !is_statement_shallow(statement, most) {
            return false;
        }
    }
    true
}

/// Whether nothing in this statement is more than so many steps below the body that it stands in.
#[cycle(depth)]
fn is_statement_shallow(statement: &RawStatement<'_>, most: usize) -> bool
    ensures { IsTrue result ↔ (depth_in (raw_body (statement.now ∷ [])) ≤ most) }
{
    match statement {
        RawStatement::IfThen(choice) => {
            let choice = choice.as_ref();
            most > 0 && is_body_shallow(&choice.then_body, most - 1)
        }
        RawStatement::IfElse(choice) => {
            let choice = choice.as_ref();
            most > 0
                && is_body_shallow(&choice.then_body, most - 1)
                && is_body_shallow(&choice.else_body, most - 1)
        }
        RawStatement::Spawn(when) => {
            let when = when.as_ref();
            most > 0 && is_body_shallow(&when.body, most - 1)
        }
        _ => true,
    }
}

/// How many `when` stand in this body. None where the line has too many, or one that has too many accesses.
pub fn few_whens(more: &[RawAccess<'_>], body: &RawBody<'_>) -> Option<usize>
    ensures { (first : SpelledAccess) → let few = AreFew first (map raw_access more.now) body.now in
        MatchOption result (few → ⊥) (λ count. few × (count ≡ whens body.now)) }
{
    if more.len() >= MOST_ACCESSES {
        return None;
    }
    let left = whens_left(body, MOST_WHENS - 1)?;
    Some(MOST_WHENS - 1 - left)
}

/// How many `when` may stand behind this body, where so many may from its begin on. None where it has more than may stand, or
/// one that has too many accesses.
#[cycle(few)]
fn whens_left(body: &RawBody<'_>, most: usize) -> Option<usize>
    ensures { MatchOption result (AreFewIn most body.now → ⊥) (λ left. AreFewIn most body.now × (whens body.now + left ≡ most)) }
{
    let mut left = most;
    for statement in body.statements() {
        left = whens_left_behind(statement, left)?;
    }
    Some(left)
}

/// How many `when` may stand behind this statement, where so many may from its begin on. None where it has more than may stand,
/// or one that has too many accesses.
#[cycle(few)]
fn whens_left_behind(statement: &RawStatement<'_>, most: usize) -> Option<usize>
    ensures { let body = raw_body (statement.now ∷ []) in
        MatchOption result (AreFewIn most body → ⊥) (λ left. AreFewIn most body × (whens body + left ≡ most)) }
{
    match statement {
        RawStatement::IfThen(choice) => {
            let choice = choice.as_ref();
            whens_left(&choice.then_body, most)
        }
        RawStatement::IfElse(choice) => {
            let choice = choice.as_ref();
            let left = whens_left(&choice.then_body, most)?;
            whens_left(&choice.else_body, left)
        }
        RawStatement::Spawn(when) => {
            let when = when.as_ref();
            if most == 0 || when.more.len() >= MOST_ACCESSES {
                return None;
            }
            whens_left(&when.body, most - 1)
        }
        _ => Some(most),
    }
}
