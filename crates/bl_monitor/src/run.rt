//! A behaviour while it runs: it changes the contents in place, and keeps what it has shown and spawned so far and what
//! undoes its changes. So an addition is written behind a content that has no other owner, and nothing is copied for
//! it.
ghost use Rattle.std.specs.Prelude.{◌≡◌, ◌<◌, ◌∷◌, [], ℕ, List, length, slice_set, All, OnOk};
ghost use Rattle.bl_work.specs.Body.{statements_of};
ghost use Rattle.bl_work.specs.Statements as statement;
ghost use Rattle.bl_monitor.specs.Undoing.{IsOf, undone};
ghost use Rattle.bl_monitor.specs.Running.{GoesOn, LeadsBack, UsesBelow};

use crate::text::holds;
use bl_policy::id::DocId;
use bl_work::document::Document;
use bl_work::script::Stmt;
use std::alloc::{AllocError, Global};
use std::mem;

/// What undoes one change of a content.
#[derive(Drop)]
pub(crate) enum Undo {
    /// The document's content is cut back to this length.
    Cut { doc: DocId, len: usize },
    /// This is the document's content again.
    Put { doc: DocId, content: Document },
}

/// How far a behaviour has come.
#[derive(Drop)]
pub(crate) struct Run {
    pub(crate) shown: Vec<Document>,
    pub(crate) spawned: Vec<u8>,
    /// What undoes its changes, the last of them first.
    undos: Vec<Undo>,
}

impl Run {
    /// A run at its start.
    pub(crate) fn new(alloc: Global) -> Run
        ensures shown { result.shown.items ≡ [] }
        ensures spawned { result.spawned.items ≡ [] }
        ensures undos { result.undos.items ≡ [] }
    {
        Run {
            shown: Vec::new(alloc),
            spawned: Vec::new(alloc),
            undos: Vec::new(alloc),
        }
    }

    fn show(&mut self, contents: &[Document], doc: DocId) -> Result<(), AllocError>
        requires { doc < length contents.now }
        ensures ran { OnOk result (GoesOn (statement.Show doc statement.Nothing) contents.now self.old contents.now self.new) }
        ensures undos { self.new.undos ≡ self.old.undos }
    {
        let content = contents[doc.position() as usize].share()?;
        self.shown.push(content)?;
        Ok(())
    }

    fn say(&mut self, text: &Document) -> Result<(), AllocError>
        ensures ran { OnOk result ((contents : List (List ℕ))
            → GoesOn (statement.Say text.now statement.Nothing) contents self.old contents self.new) }
        ensures undos { self.new.undos ≡ self.old.undos }
    {
        let said = text.share()?;
        self.shown.push(said)?;
        Ok(())
    }

    fn add(
        &mut self,
        alloc: Global,
        contents: &mut [Document],
        doc: DocId,
        text: &Document,
    ) -> Result<(), AllocError>
        requires { doc < length contents.old }
        ensures ran { OnOk result (GoesOn (statement.Add doc text.now statement.Nothing) contents.old self.old contents.new self.new) }
        ensures back { LeadsBack contents.old self.old contents.new self.new }
    {
        self.undos.reserve(1)?;
        let content = &mut contents[doc.position() as usize];
        let len = content.bytes().len();
        content.add(alloc, text.bytes())?;
        self.undos.push_reserved(Undo::Cut { doc, len });
        Ok(())
    }

    /// Makes this a document's content.
    fn put(
        &mut self,
        contents: &mut [Document],
        doc: DocId,
        content: Document,
    ) -> Result<(), AllocError>
        requires { doc < length contents.old }
        ensures put { OnOk result (contents.new ≡ slice_set contents.old doc content) }
        ensures shown { self.new.shown ≡ self.old.shown }
        ensures spawned { self.new.spawned ≡ self.old.spawned }
        ensures back { LeadsBack contents.old self.old contents.new self.new }
    {
        self.undos.reserve(1)?;
        let was = mem::replace(&mut contents[doc.position() as usize], content);
        self.undos.push_reserved(Undo::Put { doc, content: was });
        Ok(())
    }

    fn set(
        &mut self,
        contents: &mut [Document],
        doc: DocId,
        text: &Document,
    ) -> Result<(), AllocError>
        requires { doc < length contents.old }
        ensures ran { OnOk result (GoesOn (statement.Set doc text.now statement.Nothing) contents.old self.old contents.new self.new) }
        ensures back { LeadsBack contents.old self.old contents.new self.new }
    {
        let content = text.share()?;
        self.put(contents, doc, content)
    }

    fn copy(&mut self, contents: &mut [Document], from: DocId, to: DocId) -> Result<(), AllocError>
        requires from { from < length contents.old }
        requires to { to < length contents.old }
        ensures ran { OnOk result (GoesOn (statement.Copy from to statement.Nothing) contents.old self.old contents.new self.new) }
        ensures back { LeadsBack contents.old self.old contents.new self.new }
    {
        let content = contents[from.position() as usize].share()?;
        self.put(contents, to, content)
    }

    fn pour(
        &mut self,
        alloc: Global,
        contents: &mut [Document],
        from: DocId,
        to: DocId,
    ) -> Result<(), AllocError>
        requires from { from < length contents.old }
        requires to { to < length contents.old }
        ensures ran { OnOk result (GoesOn (statement.Pour from to statement.Nothing) contents.old self.old contents.new self.new) }
        ensures back { LeadsBack contents.old self.old contents.new self.new }
    {
        let poured = contents[from.position() as usize].share()?;
        self.add(alloc, contents, to, &poured)
    }

    fn spawn(&mut self, behaviour: u8) -> Result<(), AllocError>
        ensures ran { OnOk result ((contents : List (List ℕ))
            → GoesOn (statement.Spawn behaviour statement.Nothing) contents self.old contents self.new) }
        ensures undos { self.new.undos ≡ self.old.undos }
    {
        self.spawned.push(behaviour)?;
        Ok(())
    }

    /// Runs the statements in order. Where memory is wanting it stops somewhere between, and can be undone.
    #[cycle(run)]
    pub(crate) fn run(
        &mut self,
        alloc: Global,
        contents: &mut [Document],
        statements: &[Stmt],
    ) -> Result<(), AllocError>
        requires { UsesBelow (length contents.old) (statements_of statements.now) }
        ensures ran { OnOk result (GoesOn (statements_of statements.now) contents.old self.old contents.new self.new) }
        ensures back { LeadsBack contents.old self.old contents.new self.new }
    {
        for statement in statements {
            self.perform(alloc, contents, statement)?;
        }
        Ok(())
    }

    #[cycle(run)]
    fn perform(
        &mut self,
        alloc: Global,
        contents: &mut [Document],
        statement: &Stmt,
    ) -> Result<(), AllocError>
        requires { UsesBelow (length contents.old) (statements_of (statement.now ∷ [])) }
        ensures ran { OnOk result (GoesOn (statements_of
            (statement.now ∷ [])) contents.old self.old contents.new self.new) }
        ensures back { LeadsBack contents.old self.old contents.new self.new }
    {
        match statement {
            Stmt::Show(doc) => self.show(contents, *doc),
            Stmt::Say(text) => self.say(text),
            Stmt::Add(doc, text) => self.add(alloc, contents, *doc, text),
            Stmt::Set(doc, text) => self.set(contents, *doc, text),
            Stmt::Copy(from, to) => self.copy(contents, *from, *to),
            Stmt::Pour(from, to) => self.pour(alloc, contents, *from, *to),
            Stmt::If(choice) => {
                let choice = &**choice;
                let content = contents[choice.doc.position() as usize].bytes();
                if holds(choice.test, content, choice.text.bytes()) {
                    self.run(alloc, contents, choice.then_body.statements())
                } else {
                    self.run(alloc, contents, choice.else_body.statements())
                }
            }
            Stmt::Spawn(behaviour) => self.spawn(*behaviour),
        }
    }

    /// Makes the contents what they were before the run. It takes no memory.
    pub(crate) fn undo(self, contents: &mut [Document])
        requires { All (IsOf (length contents.old)) self.undos.items }
        ensures { contents.new ≡ undone contents.old self.undos.items }
    {
        let Run {
            shown: _,
            spawned: _,
            undos,
        } = self;
        let mut undos = undos;
        while let Some(undo) = undos.pop() {
            match undo {
                Undo::Cut { doc, len } => contents[doc.position() as usize].truncate(len),
                Undo::Put { doc, content } => contents[doc.position() as usize] = content,
            }
        }
    }
}
