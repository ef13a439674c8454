//! A body's statements, run one after another over the grants of its behaviour.
ghost use Rattle.std.specs.Prelude.{◌≡◌, [], ◌∷◌, List, map, IsTrue, OnOk};
ghost use Rattle.bl_work.specs.Modes.{declares, observes, alters, is_write, KeepsModes};
ghost use Rattle.bl_work.specs.Script.{AreApart, HasContents};
ghost use Rattle.bl_work.specs.Statements as statement;
ghost use Rattle.bl_work.specs.Effects.{holds_of};
ghost use Rattle.bl_work.specs.declared.script.Condition.TheVariants.{Has};
ghost use Rattle.bl_work.specs.Body.{statements_of};
ghost use Rattle.bl_work.specs.Content.{is_content_byte};
ghost use Rattle.std.specs.List.{list_all};
ghost use Rattle.bl_grant.specs.Loaned.{Loaned, as_lent};
ghost use Rattle.bl_grant.specs.Loans.{accesses_of, content_of};
ghost use Rattle.bl_eval.specs.Told.{HasRun};
ghost use Rattle.bl_eval.specs.declared.told.Told.{Told};

use bl_grant::grants::Grants;
use bl_policy::id::DocId;
use bl_work::document::Document;
use bl_work::few::Few;
use bl_work::laws;
use bl_work::script::{Condition, Stmt};
use bstr::ByteSlice;
use std::alloc::{AllocError, Global};

/// What a body has shown and spawned so far.
#[derive(Drop)]
pub(crate) struct Told {
    pub(crate) shown: Few<Document>,
    pub(crate) spawned: Vec<u8>,
}

/// Whether a content has the text somewhere as one piece.
fn has(content: &Document, text: &Document) -> bool
    ensures { result ≡ holds_of Has content.now text.now }
{
    laws::conditions();
    content.bytes().contains_str(text.bytes())
}

/// Whether a condition holds of a document's content.
fn holds(grants: &Grants, doc: DocId, test: Condition, text: &Document) -> bool
    requires apart { AreApart (accesses_of grants.now) }
    requires observes { IsTrue (declares observes (accesses_of grants.now) doc) }
    ensures { result ≡ holds_of test (content_of grants.now doc) text.now }
{
    let content = grants.content(doc);
    match test {
        Condition::Is => content == text,
        Condition::Has => has(content, text),
    }
}

/// Adds a text to a document's end.
fn add(alloc: Global, grants: &mut Grants, doc: DocId, text: &Document) -> Result<(), AllocError>
    requires apart { AreApart (accesses_of grants.old) }
    requires alters { IsTrue (declares alters (accesses_of grants.old) doc) }
    requires text { IsTrue (list_all is_content_byte text.now) }
    ensures kept { map as_lent grants.new ≡ map as_lent grants.old }
    ensures ran { OnOk result ((told : Told) → HasRun (statement.Add doc text.now statement.Nothing) grants.old told grants.new told) }
{
    grants.add(alloc, doc, text.bytes())
}

/// Makes a text a document's content.
fn set(grants: &mut Grants, doc: DocId, text: &Document) -> Result<(), AllocError>
    requires apart { AreApart (accesses_of grants.old) }
    requires replaces { IsTrue (declares is_write (accesses_of grants.old) doc) }
    ensures kept { map as_lent grants.new ≡ map as_lent grants.old }
    ensures ran { OnOk result ((told : Told) → HasRun (statement.Set doc text.now statement.Nothing) grants.old told grants.new told) }
{
    let content = text.share()?;
    grants.put(doc, content);
    Ok(())
}

/// Makes the first document's content the second one's too.
fn copy(grants: &mut Grants, from: DocId, to: DocId) -> Result<(), AllocError>
    requires apart { AreApart (accesses_of grants.old) }
    requires observes { IsTrue (declares observes (accesses_of grants.old) from) }
    requires replaces { IsTrue (declares is_write (accesses_of grants.old) to) }
    ensures kept { map as_lent grants.new ≡ map as_lent grants.old }
    ensures ran { OnOk result ((told : Told) → HasRun (statement.Copy from to statement.Nothing) grants.old told grants.new told) }
{
    let content = grants.content(from).share()?;
    grants.put(to, content);
    Ok(())
}

/// Adds the first document's content to the second one's end.
fn pour(alloc: Global, grants: &mut Grants, from: DocId, to: DocId) -> Result<(), AllocError>
    requires apart { AreApart (accesses_of grants.old) }
    requires observes { IsTrue (declares observes (accesses_of grants.old) from) }
    requires alters { IsTrue (declares alters (accesses_of grants.old) to) }
    ensures kept { map as_lent grants.new ≡ map as_lent grants.old }
    ensures ran { OnOk result ((told : Told) → HasRun (statement.Pour from to statement.Nothing) grants.old told grants.new told) }
{
    let content = grants.content(from).share()?;
    grants.add(alloc, to, content.bytes())
}

impl Told {
    /// Shows a document's content, which is shared and not copied.
    fn show(&mut self, alloc: Global, grants: &Grants, doc: DocId) -> Result<(), AllocError>
        requires apart { AreApart (accesses_of grants.now) }
        requires observes { IsTrue (declares observes (accesses_of grants.now) doc) }
        ensures { OnOk result (HasRun (statement.Show doc statement.Nothing) grants.now self.old grants.now self.new) }
    {
        let content = grants.content(doc).share()?;
        self.shown.push(alloc, content)?;
        Ok(())
    }

    /// Shows a text.
    fn say(&mut self, alloc: Global, text: &Document) -> Result<(), AllocError>
        ensures { OnOk result ((grants : List Loaned) → HasRun (statement.Say text.now statement.Nothing) grants self.old grants self.new) }
    {
        self.shown.push(alloc, text.share()?)?;
        Ok(())
    }

    /// Spawns a behaviour.
    fn spawn(&mut self, behaviour: u8) -> Result<(), AllocError>
        ensures { OnOk result ((grants : List Loaned) → HasRun (statement.Spawn behaviour statement.Nothing) grants self.old grants self.new) }
    {
        self.spawned.push(behaviour)?;
        Ok(())
    }

    /// Runs one statement. After an error the grants may have changed, but are still of what was lent.
    #[cycle(run)]
    fn step(
        &mut self,
        alloc: Global,
        grants: &mut Grants,
        statement: &Stmt,
    ) -> Result<(), AllocError>
        requires apart { AreApart (accesses_of grants.old) }
        requires modes { KeepsModes (accesses_of grants.old) (statements_of (statement.now ∷ [])) }
        requires texts { HasContents (statements_of (statement.now ∷ [])) }
        ensures kept { map as_lent grants.new ≡ map as_lent grants.old }
        ensures ran { OnOk result (HasRun (statements_of (statement.now ∷ [])) grants.old self.old grants.new self.new) }
    {
        match statement {
            Stmt::Show(doc) => self.show(alloc, grants, *doc),
            Stmt::Say(text) => self.say(alloc, text),
            Stmt::Add(doc, text) => add(alloc, grants, *doc, text),
            Stmt::Set(doc, text) => set(grants, *doc, text),
            Stmt::Copy(from, to) => copy(grants, *from, *to),
            Stmt::Pour(from, to) => pour(alloc, grants, *from, *to),
            Stmt::If(choice) => {
                let choice = &**choice;
                if holds(grants, choice.doc, choice.test, &choice.text) {
                    self.run(alloc, grants, choice.then_body.statements())
                } else {
                    self.run(alloc, grants, choice.else_body.statements())
                }
            }
            Stmt::Spawn(behaviour) => self.spawn(*behaviour),
        }
    }

    /// Runs the statements in order. After an error the grants may have changed, but are still of what was lent.
    #[cycle(run)]
    pub(crate) fn run(
        &mut self,
        alloc: Global,
        grants: &mut Grants,
        statements: &[Stmt],
    ) -> Result<(), AllocError>
        requires apart { AreApart (accesses_of grants.old) }
        requires modes { KeepsModes (accesses_of grants.old) (statements_of statements.now) }
        requires texts { HasContents (statements_of statements.now) }
        ensures kept { map as_lent grants.new ≡ map as_lent grants.old }
        ensures ran { OnOk result (HasRun (statements_of statements.now) grants.old self.old grants.new self.new) }
    {
        for statement in statements {
            self.step(alloc, grants, statement)?;
        }
        Ok(())
    }
}
