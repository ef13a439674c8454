//! What an entry is answered.
ghost use Rattle.std.specs.Prelude.{◌≡◌, IfOk};
ghost use Rattle.bl_work.specs.Few.{items_of};

use crate::few::Few;
use bl_document::document::Document;
use bl_policy::denial::Denial;
use std::alloc::AllocError;
use std::marker::Model;

/// The texts that a behaviour showed, in order.
#[derive(Drop)]
pub struct Outputs {
    texts: Few<Document>,
}

impl Model for Outputs {
    ghost use Rattle.std.specs.Prelude.{List, ℕ};
    ghost use Rattle.bl_work.specs.Few.{items_of};

    ghost Value = { List (List ℕ) };

    ghost view = { λ o. items_of o.texts };
}

impl Outputs {
    /// Outputs of these texts.
    pub fn new(texts: Vec<Document>) -> Outputs
        ensures { result ≡ texts.items }
    {
        Outputs {
            texts: Few::new(texts),
        }
    }

    /// Outputs of these few texts. It takes no memory.
    pub fn of(texts: Few<Document>) -> Outputs
        ensures { result ≡ items_of texts }
    {
        Outputs { texts }
    }

    /// Equal outputs, each text with one more owner.
    pub fn share(&self) -> Result<Outputs, AllocError>
        ensures { IfOk result (λ o. o ≡ self.now) }
    {
        let texts = match &self.texts {
            Few::Nothing => Few::Nothing,
            Few::One(text) => Few::One(text.share()?),
            Few::Many(texts) => Few::Many(shared(texts)?),
        };
        Ok(Outputs { texts })
    }

    /// The texts, in the order in which they were shown.
    pub fn texts(&self) -> &[Document]
        ensures { result.now ≡ self.now }
    {
        self.texts.as_slice()
    }
}

/// Equal texts, each with one more owner.
fn shared(texts: &Vec<Document>) -> Result<Vec<Document>, AllocError>
    ensures { IfOk result (λ shares. shares.items ≡ texts.now.items) }
{
    let mut shares = Vec::with_capacity(*texts.allocator(), texts.len())?;
    for text in texts {
        shares.push(text.share()?)?;
    }
    Ok(shares)
}

/// The answer of an entry.
#[derive(Drop)]
pub enum Answer {
    /// The behaviour ran, and showed these texts.
    Done(Outputs),
    /// The rule was applied.
    RuleDone,
    /// The policy denied it, and nothing was changed.
    Denied(Denial),
    /// It was lost, out of memory, and nothing was changed.
    Lost,
}

impl Answer {
    /// An equal answer.
    pub fn share(&self) -> Result<Answer, AllocError>
        ensures { IfOk result (λ a. a ≡ self.now) }
    {
        match self {
            Answer::Done(outputs) => Ok(Answer::Done(outputs.share()?)),
            Answer::RuleDone => Ok(Answer::RuleDone),
            Answer::Denied(denial) => Ok(Answer::Denied(*denial)),
            Answer::Lost => Ok(Answer::Lost),
        }
    }
}
