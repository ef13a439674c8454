//! The items that are left of a declaration, and what a token leaves of them.
ghost use Rattle.std.specs.Prelude.{◌≡◌, ◌∷◌, ◌++◌, [], IfOk, MatchOption};
ghost use Rattle.bl_level.specs.Token.{tok};
ghost use Rattle.bl_due.specs.Items as items;
ghost use Rattle.bl_due.specs.Items.{items_of};

use crate::due::Due;
use crate::item::{Fit, Item};
use bl_level::token::Token;
use std::alloc::{AllocError, Global};

/// The items that are left: one that others gave way to, where there is one, and those behind it.
#[derive(Clone, Copy)]
pub struct Left {
    pub head: Option<Item>,
    pub rest: &'static [Item],
}

impl Left {
    /// The first item, and those behind it.
    fn split(&self) -> Option<(Item, &'static [Item])>
        ensures { MatchOption result (items_of self.now ≡ []) (λ s. items_of self.now ≡ s.0 ∷ s.1.now) }
    {
        match self.head {
            Some(item) => Some((item, self.rest)),
            None => match self.rest {
                [] => None,
                [item, rest @ ..] => Some((*item, rest)),
            },
        }
    }

    /// What is left behind a token. None where it may not stand there.
    pub fn next(&self, token: &Token<'_>) -> Option<Left>
        ensures { items.behind_of result ≡ items.step (items_of self.now) (tok token.now) }
    {
        let mut left = *self;
        while let Some((item, rest)) = left.split() {
            match item.fit(token) {
                Fit::Never => return None,
                Fit::LeftOut => left = Left { head: None, rest },
                Fit::Ends => return Some(Left { head: None, rest }),
                Fit::Becomes(next) => return Some(Left {
                    head: Some(next),
                    rest,
                }),
            }
        }
        None
    }

    /// Whether the line may end there.
    pub fn may_end(&self) -> bool
        ensures { result ≡ items.may_end (items_of self.now) }
    {
        let mut left = *self;
        while let Some((item, rest)) = left.split() {
            if item.runs_on() {
                return true;
            }
            if !item.may_be_left() {
                return false;
            }
            left = Left { head: None, rest };
        }
        true
    }

    /// What is due there: each word or kind of tokens that may come, and the line's end where it may.
    pub fn due(&self, alloc: Global) -> Result<Vec<Due>, AllocError>
        ensures { IfOk result (λ due. due.items ≡ items.due_of (items_of self.now)) }
    {
        let mut due = Vec::new(alloc);
        let mut left = *self;
        while let Some((item, rest)) = left.split() {
            due.push(item.due())?;
            if let Some(further) = item.further_due() {
                due.push(further)?;
            }
            if !item.may_be_left() {
                return Ok(due);
            }
            left = Left { head: None, rest };
        }
        due.push(Due::End)?;
        Ok(due)
    }
}
