//! Behaviours built by hand.
ghost use Rattle.std.specs.Prelude.{◌≡◌, ◌≤◌, [], ◌∷◌, codes, IfOk};
ghost use Rattle.bl_policy.specs.declared.access.Mode.TheVariants.{Read, Append, Write};
ghost use Rattle.bl_work.specs.declared.script.Condition.TheVariants.{Is, Has};
ghost use Rattle.bl_work.specs.Script.{IsBehaviour};
ghost use Rattle.bl_work.specs.Statements as statement;
ghost use Rattle.bl_work.specs.Nesting.{spawned, depth_at};

use bl_policy::access::{Access, Mode};
use bl_policy::id::DocId;
use bl_work::accesses::Accesses;
use bl_work::document::Document;
use bl_work::script::{Behaviour, Body, Choice, Condition, Script, Stmt};
use std::alloc::{AllocError, Global};

/// A script of one behaviour.
fn one(alloc: Global, accesses: Accesses, body: Body) -> Result<Script, AllocError>
    requires behaviour { IsBehaviour (record { accesses = accesses; body = body }) }
    requires alone { spawned body ≡ [] }
    requires shallow { depth_at (record { accesses = accesses; body = body } ∷ []) 0 ≤ 8 }
{
    let behaviour = Behaviour::new(accesses, body);
    let spawned = Vec::new(alloc);
    let script = Script::new(alloc, behaviour, spawned)?;
    Ok(script)
}

/// `append log, read note`
fn pour_accesses() -> Accesses
    ensures { result ≡ record { mode = Append; doc = 2 } ∷ record { mode = Read; doc = 1 } ∷ [] }
{
    let mut accesses = Accesses::new(Access {
        mode: Mode::Append,
        doc: DocId::new(2),
    });
    accesses.push(Access {
        mode: Mode::Read,
        doc: DocId::new(1),
    });
    accesses
}

/// `pour note to log; show note;`
fn pour_body(alloc: Global) -> Result<Body, AllocError>
    ensures { IfOk result (λ b. b ≡ statement.Pour 1 2 (statement.Show 1 statement.Nothing)) }
{
    let mut statements = Vec::new(alloc);
    statements.push(Stmt::Pour(DocId::new(1), DocId::new(2)))?;
    statements.push(Stmt::Show(DocId::new(1)))?;
    Ok(Body::new(statements))
}

pub fn pour_script(alloc: Global) -> Result<Script, AllocError> {
    let accesses = pour_accesses();
    let body = pour_body(alloc)?;
    one(alloc, accesses, body)
}

/// `write memo`
fn add_accesses() -> Accesses
    ensures { result ≡ record { mode = Write; doc = 0 } ∷ [] }
{
    Accesses::new(Access {
        mode: Mode::Write,
        doc: DocId::new(0),
    })
}

/// `add memo "xy";`
fn add_body(alloc: Global) -> Result<Body, AllocError>
    ensures { IfOk result (λ b. b ≡ statement.Add 0 (codes "xy") statement.Nothing) }
{
    let mut statements = Vec::new(alloc);
    statements.push(Stmt::Add(DocId::new(0), Document::new(alloc, b"xy")?))?;
    Ok(Body::new(statements))
}

pub fn add_script(alloc: Global) -> Result<Script, AllocError> {
    let accesses = add_accesses();
    let body = add_body(alloc)?;
    one(alloc, accesses, body)
}

/// `read note, write memo`
fn choose_accesses() -> Accesses
    ensures { result ≡ record { mode = Read; doc = 1 } ∷ record { mode = Write; doc = 0 } ∷ [] }
{
    let mut accesses = Accesses::new(Access {
        mode: Mode::Read,
        doc: DocId::new(1),
    });
    accesses.push(Access {
        mode: Mode::Write,
        doc: DocId::new(0),
    });
    accesses
}

/// `pour note to memo;`
fn then_body(alloc: Global) -> Result<Body, AllocError>
    ensures { IfOk result (λ b. b ≡ statement.Pour 1 0 statement.Nothing) }
{
    let mut statements = Vec::new(alloc);
    statements.push(Stmt::Pour(DocId::new(1), DocId::new(0)))?;
    Ok(Body::new(statements))
}

/// `set memo "no";`
fn else_body(alloc: Global) -> Result<Body, AllocError>
    ensures { IfOk result (λ b. b ≡ statement.Set 0 (codes "no") statement.Nothing) }
{
    let mut statements = Vec::new(alloc);
    statements.push(Stmt::Set(DocId::new(0), Document::new(alloc, b"no")?))?;
    Ok(Body::new(statements))
}

/// `say "yes";`
fn yes_body(alloc: Global) -> Result<Body, AllocError>
    ensures { IfOk result (λ b. b ≡ statement.Say (codes "yes") statement.Nothing) }
{
    let mut statements = Vec::new(alloc);
    statements.push(Stmt::Say(Document::new(alloc, b"yes")?))?;
    Ok(Body::new(statements))
}

/// `if note is "n1" then pour note to memo; else set memo "no"; end; show memo; if memo has "1n" then say "yes"; end;`
fn choose_body(alloc: Global) -> Result<Body, AllocError>
    ensures { IfOk result (λ b. b ≡ statement.If 1 Is (codes "n1") (statement.Pour 1 0 statement.Nothing) (statement.Set 0 (codes "no") statement.Nothing) (statement.Show 0 (statement.If 0 Has (codes "1n") (statement.Say (codes "yes") statement.Nothing) statement.Nothing statement.Nothing))) }
{
    let mut statements = Vec::new(alloc);
    let first = Choice {
        doc: DocId::new(1),
        test: Condition::Is,
        text: Document::new(alloc, b"n1")?,
        then_body: then_body(alloc)?,
        else_body: else_body(alloc)?,
    };
    statements.push(Stmt::If(Box::new(alloc, first)?))?;
    statements.push(Stmt::Show(DocId::new(0)))?;
    let second = Choice {
        doc: DocId::new(0),
        test: Condition::Has,
        text: Document::new(alloc, b"1n")?,
        then_body: yes_body(alloc)?,
        else_body: Body::new(Vec::new(alloc)),
    };
    statements.push(Stmt::If(Box::new(alloc, second)?))?;
    Ok(Body::new(statements))
}

pub fn choose_script(alloc: Global) -> Result<Script, AllocError> {
    let accesses = choose_accesses();
    let body = choose_body(alloc)?;
    one(alloc, accesses, body)
}
