//! A setup: who and what there is, at which levels, and who may use what.
ghost use Rattle.std.specs.Prelude.{◌≡◌, IfOk};
ghost use Rattle.bl_setup.specs.Agreement.{Agree};

use crate::version::Version;
use bl_policy::policy::Policy;
use bl_work::document::Document;
use bl_work::names::Names;
use std::alloc::AllocError;
use std::marker::Model;

/// The names of subjects and documents with the scheme of their levels, the policy over their positions, and the content
/// of each document. A run over it is judged by version 2.
#[derive(Drop)]
pub struct Setup {
    names: Names,
    policy: Policy,
    contents: Vec<Document>,
}

impl Model for Setup {
    ghost use Rattle.std.specs.Coded.{codes};
    ghost use Rattle.bl_policy.specs.Codes.{matrix_code};
    ghost use Rattle.bl_setup.specs.Setup as setups;

    ghost Value = { setups.Setup };

    ghost coded = { Prim.hlevel (codes, matrix_code) };

    ghost use Rattle.bl_setup.specs.Agreement.{Agree};
    ghost use Rattle.bl_setup.specs.declared.version.Version.TheVariants.{Two};

    ghost view = { λ s. record { names = s.names; policy = s.policy; contents = s.contents.items; version = Two } };

    ghost invariant = { λ s. Agree (record { names = s.names; policy = s.policy; contents = s.contents.items; version = Two }) };
}

/// The same contents, each with one more owner.
fn shared(contents: &Vec<Document>) -> Result<Vec<Document>, AllocError>
    ensures { IfOk result (λ copy. copy.items ≡ contents.now.items) }
{
    let mut copy = Vec::with_capacity(*contents.allocator(), contents.len())?;
    for content in contents {
        copy.push(content.share()?)?;
    }
    Ok(copy)
}

impl Setup {
    ghost use Rattle.std.specs.Prelude.{◌≡◌, IfOk};
    ghost use Rattle.bl_setup.specs.Agreement.{Agree};

    /// The setup of these parts: the names of subjects and documents with the scheme of their levels, the policy over
    /// their positions, and the content of each document, in the order of their names. A document that is not present
    /// has an empty content. A run over it is judged by version 2.
    pub fn of(names: Names, policy: Policy, contents: Vec<Document>) -> Setup
        requires { Agree (record { names = names; policy = policy; contents = contents.items; version = Version.Two }) }
        ensures { result ≡ record { names = names; policy = policy; contents = contents.items; version = Version.Two } }
    {
        Setup {
            names,
            policy,
            contents,
        }
    }

    /// An equal setup. It has names and a policy of its own, and the same contents.
    pub fn copy(&self) -> Result<Setup, AllocError>
        ensures { IfOk result (λ setup. setup ≡ self.now) }
    {
        let contents = shared(&self.contents)?;
        let policy = self.policy.copy()?;
        let names = self.names.copy()?;
        Ok(Setup::of(names, policy, contents))
    }

    /// The scheme, and the names of subjects and documents in the order in which they were declared.
    pub fn names(&self) -> &Names
        ensures value { result.now ≡ self.now.names }
        // The policy and the contents are of just these subjects and documents.
        ensures agree { Agree self.now }
    {
        &self.names
    }

    /// The policy: a subject's or a document's position is that of its name.
    pub fn policy(&self) -> &Policy
        ensures value { result.now ≡ self.now.policy }
        ensures agree { Agree self.now }
    {
        &self.policy
    }

    /// The version of trails by which a run over this setup is judged: 2.
    pub fn version(&self) -> Version
        ensures value { result ≡ self.now.version }
        ensures two { self.now.version ≡ Version.Two }
    {
        // read for the proof alone: what is said of a setup is said of its fields
        let _names = &self.names;
        Version::Two
    }

    /// The content of each document, in the order of their names.
    pub fn contents(&self) -> &[Document]
        ensures value { result.now ≡ self.now.contents }
        ensures agree { Agree self.now }
    {
        self.contents.as_slice()
    }
}
