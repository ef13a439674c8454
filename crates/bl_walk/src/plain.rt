//! A `when` without fault, read in one walk: from its bytes to its script, with no tree between them. At the first
//! doubt the walk gives up, and the line is read by parts.

ghost use Rattle.std.specs.Prelude.{◌≡◌, ◌≢◌, ◌<◌, ◌≤◌, [], ◌∷◌, List, length, All, Contains, IsTrue, IfOk};
ghost use Rattle.bl_name.specs.declared.token.Keyword.TheVariants.{If, Spawn};
ghost use Rattle.bl_level.specs.Token.{name};
ghost use Rattle.bl_policy.specs.declared.access.Access.{Access};
ghost use Rattle.bl_work.specs.Body.{statements_of};
ghost use Rattle.bl_work.specs.Few.{items_of};
ghost use Rattle.bl_work.specs.LineGrammar.{LineOf, most_line_bytes};
ghost use Rattle.bl_work.specs.Modes.{observes, alters, is_write};
ghost use Rattle.bl_work.specs.Script.{most_behaviours, most_depth};
ghost use Rattle.bl_work.specs.Statements as statement;
ghost use Rattle.bl_work.specs.declared.asked.Line.TheVariants as asked;
ghost use Rattle.bl_work.specs.declared.work.Work.TheVariants as work;
ghost use Rattle.bl_walk.specs.Placed.{name_at, IsOfDocument, TakesAccesses, TakesDeclared};
ghost use Rattle.bl_walk.specs.Spawned.{with_outermost};
ghost use Rattle.bl_walk.specs.Takes.{Takes};
ghost use Rattle.bl_walk.specs.Walked.{TakesTest, WalkedStatement, WalkedBody, WalkedWhen};

use crate::parts::{choice_statement, put, unbuilt};
use crate::unread::{Unread, is_cut_short};
use bl_level::token::Keyword;
use bl_policy::access::{Access, Mode};
use bl_policy::id::DocId;
use bl_work::accesses::{Accesses, MOST_ACCESSES};
use bl_work::document::Document;
use bl_work::few::Few;
use bl_work::laws::lines_ask_scripts;
use bl_work::names::Names;
use bl_work::script::{Behaviour, Body, Choice, Condition, Script, Stmt};
use std::alloc::{AllocError, AllocFailed, Global};

/// How deep a `when` or an `if` may be, the outermost `when` being at depth 1.
const MOST_DEPTH: usize = 8;

/// How many `when` a line may have.
const MOST_WHENS: usize = 32;

/// Why a walk gave up.
#[derive(Clone, Copy, Debug, PartialEq, Eq)]
pub enum Doubt {
    /// The line is no `when`, or something is wrong with it.
    Fault,
    /// A growth was refused.
    Memory,
}

impl From<AllocError> for Doubt {
    fn from(_: AllocError) -> Self {
        Doubt::Memory
    }
}

impl<T: Drop> From<AllocFailed<T>> for Doubt {
    fn from(_: AllocFailed<T>) -> Self {
        Doubt::Memory
    }
}

/// What the innermost `when` declares, by the names of the server.
#[derive(Drop)]
struct Declared<'a> {
    names: &'a Names,
    accesses: Accesses,
    ghost placed: { All (IsOfDocument names.now) accesses },
}

/// An `if` up to its `then`.
#[derive(Drop)]
struct Test {
    doc: DocId,
    test: Condition,
    text: Document,
}

/// The body of these statements. Their block keeps no room for more.
#[inline(always)]
fn body_of(statements: Few<Stmt>) -> Body
    ensures { result ≡ statements_of (items_of statements) }
{
    match statements {
        Few::Nothing => Body::empty(),
        Few::One(statement) => Body::one(statement),
        Few::Many(mut statements) => {
            statements.shrink_to_fit();
            Body::new(statements)
        }
    }
}

/// The statement of an `if` with these bodies.
#[inline(always)]
fn choice_of(
    alloc: Global,
    test: Test,
    then_body: Few<Stmt>,
    else_body: Few<Stmt>,
) -> Result<Stmt, AllocError>
    ensures { IfOk result (λ made. statements_of (made ∷ [])
        ≡ statement.If test.doc test.test test.text (statements_of (items_of then_body))
        (statements_of (items_of else_body)) statement.Nothing) }
{
    let choice = Choice {
        doc: test.doc,
        test: test.test,
        text: test.text,
        then_body: body_of(then_body),
        else_body: body_of(else_body),
    };
    choice_statement(alloc, choice)
}

/// A line while it is walked.
#[derive(Drop)]
struct Walk<'a> {
    unread: Unread<'a>,
    /// The behaviours that were spawned so far.
    spawned: Vec<Behaviour>,
}

/// Whether none of the accesses is of this document.
#[inline(always)]
fn are_others(accesses: &[Access], doc: DocId) -> bool
    ensures { IsTrue result → All (λ (access : Access). access.doc ≢ doc) accesses.now }
{
    accesses.iter().all(|access| access.doc != doc)
}

/// Takes the accesses of a `when`, of which no two are of one document.
#[inline(always)]
fn accesses_of(unread: &mut Unread<'_>, names: &Names) -> Result<Accesses, Doubt>
    ensures { IfOk result (TakesAccesses names.now unread.old.bytes.now unread.new.bytes.now) }
{
    let mut accesses = Accesses::new(unread.access(names, true)?);
    while unread.takes_comma() {
        let access = unread.access(names, false)?;
        let others = accesses.as_slice();
        if others.len() >= MOST_ACCESSES || !are_others(others, access.doc) {
            return Err(Doubt::Fault);
        }
        accesses.push(access);
    }
    Ok(accesses)
}

impl<'a> Declared<'a> {
    /// Takes the name of a document that is declared. Its access.
    #[inline(always)]
    fn access(&self, unread: &mut Unread<'_>) -> Result<Access, Doubt>
        ensures { IfOk result (λ access. Contains self.now.accesses access
            × Takes unread.old.bytes.now (name (name_at self.now.names.now access.doc) ∷ []) unread.new.bytes.now) }
    {
        for access in self.accesses.as_slice() {
            if unread.takes_name(self.names.document_name(access.doc)) {
                return Ok(*access);
            }
        }
        Err(Doubt::Fault)
    }

    /// Takes the name of a document that is declared read or written.
    #[inline(always)]
    fn observed(&self, unread: &mut Unread<'_>) -> Result<DocId, Doubt>
        ensures { IfOk result (TakesDeclared self.now.names.now self.now.accesses observes unread.old.bytes.now
            unread.new.bytes.now) }
    {
        let access = self.access(unread)?;
        match access.mode {
            Mode::Read | Mode::Write => Ok(access.doc),
            Mode::Append => Err(Doubt::Fault),
        }
    }

    /// Takes the name of a document that is declared appended to or written.
    #[inline(always)]
    fn altered(&self, unread: &mut Unread<'_>) -> Result<DocId, Doubt>
        ensures { IfOk result (TakesDeclared self.now.names.now self.now.accesses alters unread.old.bytes.now
            unread.new.bytes.now) }
    {
        let access = self.access(unread)?;
        match access.mode {
            Mode::Append | Mode::Write => Ok(access.doc),
            Mode::Read => Err(Doubt::Fault),
        }
    }

    /// Takes the name of a document that is declared written.
    #[inline(always)]
    fn replaced(&self, unread: &mut Unread<'_>) -> Result<DocId, Doubt>
        ensures { IfOk result (TakesDeclared self.now.names.now self.now.accesses is_write unread.old.bytes.now
            unread.new.bytes.now) }
    {
        let access = self.access(unread)?;
        match access.mode {
            Mode::Write => Ok(access.doc),
            Mode::Read | Mode::Append => Err(Doubt::Fault),
        }
    }

    /// Takes an `if` behind its first word, up to its `then`.
    #[inline(always)]
    fn test(&self, alloc: Global, unread: &mut Unread<'_>) -> Result<Test, Doubt>
        ensures { IfOk result (TakesTest self.now.names.now self.now.accesses unread.old.bytes.now
            unread.new.bytes.now) }
    {
        let doc = self.observed(unread)?;
        let test = unread.condition()?;
        let text = unread.text(alloc)?;
        unread.key(Keyword::Then)?;
        Ok(Test { doc, test, text })
    }
}

impl<'a> Walk<'a> {
    /// Takes the statements of a body at this depth, and the word that ends it.
    #[cycle(walk)]
    fn body(
        &mut self,
        alloc: Global,
        declared: &Declared<'_>,
        depth: usize,
        statements: &mut Few<Stmt>,
    ) -> Result<Keyword, Doubt>
        requires few { length (with_outermost self.old.spawned.items) ≤ most_behaviours }
        requires none { items_of statements.old ≡ [] }
        ensures { IfOk result (λ last. WalkedBody declared.now.names.now declared.now.accesses depth last
            self.old.unread.bytes.now self.new.unread.bytes.now (with_outermost self.old.spawned.items)
            (with_outermost self.new.spawned.items) (items_of statements.new)) }
    {
        loop {
            let start = self.unread.start()?;
            if start == Keyword::End || start == Keyword::Else {
                return Ok(start);
            }
            let statement = self.statement(alloc, declared, depth, start)?;
            self.unread.semicolon()?;
            statements.push(alloc, statement)?;
        }
    }

    /// Takes a statement behind its first word, up to its semicolon.
    #[cycle(walk)]
    #[inline(always)]
    fn statement(
        &mut self,
        alloc: Global,
        declared: &Declared<'_>,
        depth: usize,
        start: Keyword,
    ) -> Result<Stmt, Doubt>
        requires { length (with_outermost self.old.spawned.items) ≤ most_behaviours }
        ensures { IfOk result (WalkedStatement declared.now.names.now declared.now.accesses depth start
            self.old.unread.bytes.now self.new.unread.bytes.now (with_outermost self.old.spawned.items)
            (with_outermost self.new.spawned.items)) }
    {
        let unread = &mut self.unread;
        match start {
            Keyword::Show => Ok(Stmt::Show(declared.observed(unread)?)),
            Keyword::Say => Ok(Stmt::Say(unread.text(alloc)?)),
            Keyword::Add => {
                let doc = declared.altered(unread)?;
                Ok(Stmt::Add(doc, unread.text(alloc)?))
            }
            Keyword::Set => {
                let doc = declared.replaced(unread)?;
                Ok(Stmt::Set(doc, unread.text(alloc)?))
            }
            Keyword::Copy => {
                let from = declared.observed(unread)?;
                unread.key(Keyword::To)?;
                Ok(Stmt::Copy(from, declared.replaced(unread)?))
            }
            Keyword::Pour => {
                let from = declared.observed(unread)?;
                unread.key(Keyword::To)?;
                Ok(Stmt::Pour(from, declared.altered(unread)?))
            }
            Keyword::If => self.choice(alloc, declared, depth),
            Keyword::Spawn => self.spawn(alloc, declared.names, depth),
            _ => Err(Doubt::Fault),
        }
    }

    /// Takes an `if` behind its first word.
    #[cycle(walk)]
    #[inline(never)]
    fn choice(
        &mut self,
        alloc: Global,
        declared: &Declared<'_>,
        depth: usize,
    ) -> Result<Stmt, Doubt>
        requires { length (with_outermost self.old.spawned.items) ≤ most_behaviours }
        ensures { IfOk result (WalkedStatement declared.now.names.now declared.now.accesses depth If
            self.old.unread.bytes.now self.new.unread.bytes.now (with_outermost self.old.spawned.items)
            (with_outermost self.new.spawned.items)) }
    {
        if depth >= MOST_DEPTH {
            return Err(Doubt::Fault);
        }
        let test = declared.test(alloc, &mut self.unread)?;
        let mut then_body = Few::Nothing;
        match self.body(alloc, declared, depth + 1, &mut then_body)? {
            Keyword::End => Ok(choice_of(alloc, test, then_body, Few::Nothing)?),
            Keyword::Else => {
                let mut else_body = Few::Nothing;
                match self.body(alloc, declared, depth + 1, &mut else_body)? {
                    Keyword::End => Ok(choice_of(alloc, test, then_body, else_body)?),
                    _ => Err(Doubt::Fault),
                }
            }
            _ => Err(Doubt::Fault),
        }
    }

    /// Takes a `when` behind `spawn`. It stands before those that it spawns itself.
    #[cycle(walk)]
    #[inline(never)]
    fn spawn(&mut self, alloc: Global, names: &Names, depth: usize) -> Result<Stmt, Doubt>
        requires { length (with_outermost self.old.spawned.items) ≤ most_behaviours }
        ensures { (accesses : List Access) → IfOk result (WalkedStatement names.now accesses depth Spawn
            self.old.unread.bytes.now self.new.unread.bytes.now (with_outermost self.old.spawned.items)
            (with_outermost self.new.spawned.items)) }
    {
        let place = self.spawned.len();
        if depth >= MOST_DEPTH || place >= MOST_WHENS - 1 {
            return Err(Doubt::Fault);
        }
        self.unread.key(Keyword::When)?;
        self.spawned.push(unbuilt())?;
        let behaviour = self.when(alloc, names, depth + 1)?;
        put(&mut self.spawned, place, behaviour);
        Ok(Stmt::Spawn((1 + place) as u8))
    }

    /// Takes a `when` behind its first word.
    #[cycle(walk)]
    #[inline(always)]
    fn when(&mut self, alloc: Global, names: &Names, depth: usize) -> Result<Behaviour, Doubt>
        requires few { length (with_outermost self.old.spawned.items) ≤ most_behaviours }
        requires shallow { depth ≤ most_depth }
        ensures { IfOk result (WalkedWhen names.now depth self.old.unread.bytes.now self.new.unread.bytes.now
            (with_outermost self.old.spawned.items) (with_outermost self.new.spawned.items)) }
    {
        let accesses = accesses_of(&mut self.unread, names)?;
        self.unread.key(Keyword::Do)?;
        let declared = Declared { names, accesses };
        let mut statements = Few::Nothing;
        match self.body(alloc, &declared, depth, &mut statements)? {
            Keyword::End => Ok(Behaviour::new(declared.accesses, body_of(statements))),
            _ => Err(Doubt::Fault),
        }
    }
}

/// The script of a `when` that has no fault.
pub fn plain_script(alloc: Global, names: &Names, bytes: &[u8]) -> Result<Script, Doubt>
    requires { length bytes.now ≤ most_line_bytes }
    ensures { IfOk result (λ script. LineOf names.now bytes.now (asked.Work (work.Behaviour script))) }
{
    let mut walk = Walk {
        unread: Unread::new(bytes),
        spawned: Vec::new(alloc),
    };
    walk.unread.key(Keyword::When)?;
    if is_cut_short(bytes) {
        return Err(Doubt::Fault);
    }
    let outermost = walk.when(alloc, names, 1)?;
    if !walk.unread.is_over() {
        return Err(Doubt::Fault);
    }
    lines_ask_scripts();
    walk.spawned.shrink_to_fit();
    Ok(Script::new(alloc, outermost, walk.spawned)?)
}
