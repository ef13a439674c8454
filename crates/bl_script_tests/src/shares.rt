//! Each call that gives one more owner, once with ample memory.
use super::fixtures::work_of;
use bl_policy::access::Mode;
use bl_policy::id::{DocId, SubjectId};
use bl_policy::rule::Rule;
use bl_script::answer::{Answer, Outputs};
use bl_script::document::Document;
use bl_script::script::{Script, Stmt};
use bl_script::work::Work;
use std::alloc::{AllocError, Global};

/// Whether what is shared of a document is the same, and another is not.
fn is_shared(alloc: Global) -> Result<bool, AllocError> {
    let document = Document::new(alloc, b"m1")?;
    let shared = document.share()?;
    let other = Document::new(alloc, b"")?;
    Ok(shared == document && other != document)
}

#[test]
fn shares_a_document(rt: HostRuntime) {
    assert!(rt; is_shared(rt.alloc()) == Ok(true));
}

/// Whether a script reads this document and shows it, and does no more.
fn is_one_read(script: &Script, document: DocId) -> bool {
    script.weight() == 1
        && script.accesses(0).len() == 1
        && script.accesses(0)[0].mode == Mode::Read
        && matches!(script.body(0), [Stmt::Show(doc)] if *doc == document)
}

/// Whether what is shared of the work that reads and shows note does so.
fn is_read_shared(alloc: Global) -> Option<bool> {
    let work = work_of(alloc, b"when read note do show note;end")?;
    match work.share().ok()? {
        Work::Behaviour(script) => Some(is_one_read(&script, DocId::new(1))),
        Work::Rule(_) => None,
    }
}

#[test]
fn shares_a_work_of_one_read(rt: HostRuntime) {
    assert!(rt; is_read_shared(rt.alloc()) == Some(true));
}

/// The answer of what is done, and shows one text.
fn one_text(alloc: Global) -> Result<Answer, AllocError> {
    let mut texts = Vec::new(alloc);
    texts.push(Document::new(alloc, b"n1")?)?;
    Ok(Answer::Done(Outputs::new(texts)))
}

/// How many texts what is shared of that answer shows.
fn texts_shared(alloc: Global) -> Result<usize, AllocError> {
    let answer = one_text(alloc)?;
    match answer.share()? {
        Answer::Done(outputs) => Ok(outputs.texts().len()),
        _ => Ok(0),
    }
}

#[test]
fn shares_an_answer(rt: HostRuntime) {
    assert!(rt; texts_shared(rt.alloc()) == Ok(1));
}

/// Whether what is shared of a rule is the same.
fn is_rule_shared(rule: Rule) -> Result<bool, AllocError> {
    match Work::Rule(rule).share()? {
        Work::Rule(shared) => Ok(shared == rule),
        Work::Behaviour(_) => Ok(false),
    }
}

/// Whether what is shared of the answer to a rule is the same.
fn is_rule_done_shared() -> Result<bool, AllocError> {
    Ok(matches!(Answer::RuleDone.share()?, Answer::RuleDone))
}

#[test]
fn shares_a_work_of_a_rule(rt: HostRuntime) {
    let rule = Rule::Give {
        subject: SubjectId::new(1),
        doc: DocId::new(2),
        mode: Mode::Append,
    };
    assert!(rt; is_rule_shared(rule) == Ok(true));
    assert!(rt; is_rule_done_shared() == Ok(true));
}
