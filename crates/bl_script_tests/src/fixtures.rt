//! Names, what lines ask by them, and tables of lines. Names are let go by `drop`, which is proved once for all of
//! them, and not at the end of a scope, where the proof takes them apart each time.
use bl_level::level::Level;
use bl_level::name::Name;
use bl_level::scheme::Scheme;
use bl_policy::access::Mode;
use bl_policy::id::{DocId, SubjectId};
use bl_policy::rule::Rule;
use bl_script::asked::{Line, LineFault};
use bl_script::knows::KnowsWorks;
use bl_script::line::read_line;
use bl_script::names::Names;
use bl_script::work::Work;
use std::alloc::Global;
use std::process::Abort;

/// Why a line is refused, with the place or the name that is told.
#[derive(Clone, Copy)]
pub enum Fault {
    Long,
    Syntax(u32),
    Deep,
    Many,
    Unknown(&'static str),
    Twice(&'static str),
    Mode(&'static str),
}

/// What a line asks but for a behaviour: a rule with the places of its subject and its document, and with the rank and
/// the categories of its level.
#[derive(Clone, Copy)]
pub enum Asks {
    Hello(u16),
    Wait,
    Give(u16, u16, Mode),
    Rescind(u16, u16, Mode),
    Current(u8, u32),
    Classify(u16, u8, u32),
    Create(u16),
    Delete(u16),
}

/// A name for each word; none where one is no name, or a growth is refused.
fn names_for(alloc: Global, words: &[&[u8]]) -> Option<Vec<Name>> {
    let mut names = Vec::new(alloc);
    for word in words {
        names.push(Name::new(word)?).ok()?;
    }
    Some(names)
}

/// The ranks u, c, s and t, and the categories nato and crypto.
fn base_scheme(alloc: Global) -> Option<Scheme> {
    let ranks = names_for(alloc, &[b"u", b"c", b"s", b"t"])?;
    let categories = names_for(alloc, &[b"nato", b"crypto"])?;
    Scheme::new(alloc, &ranks, &categories).ok()
}

/// Adds these subjects and these documents. None where one was not added.
fn add_all(names: &mut Names, subjects: &[&[u8]], documents: &[&[u8]]) -> Option<()> {
    for subject in subjects {
        names.add_subject(Name::new(subject)?).ok()?;
    }
    for document in documents {
        names.add_document(Name::new(document)?).ok()?;
    }
    Some(())
}

/// Names of these subjects and these documents.
fn names_with(alloc: Global, subjects: &[&[u8]], documents: &[&[u8]]) -> Option<Names> {
    let mut names = Names::new(alloc, base_scheme(alloc)?).ok()?;
    match add_all(&mut names, subjects, documents) {
        Some(()) => Some(names),
        None => {
            drop(names);
            None
        }
    }
}

/// The subjects ann, bob, cat and root, and the documents memo, note and log.
pub fn base_names(alloc: Global) -> Option<Names> {
    names_with(
        alloc,
        &[b"ann", b"bob", b"cat", b"root"],
        &[b"memo", b"note", b"log"],
    )
}

/// Names with this document alone.
pub fn names_of(alloc: Global, document: &str) -> Option<Names> {
    names_with(alloc, &[], &[document.as_bytes()])
}

/// What a line asks by these names. It promises nothing, which keeps the proofs of its callers short.
fn read_by(alloc: Global, names: Names, line: &[u8]) -> Result<Line, LineFault> {
    let asked = read_line(alloc, &names, line);
    drop(names);
    asked
}

/// What a line asks by the base names.
pub fn read(alloc: Global, line: &[u8]) -> Result<Line, LineFault> {
    match base_names(alloc) {
        Some(names) => read_by(alloc, names, line),
        None => Err(LineFault::Memory),
    }
}

/// The work that a line asks by the base names, of which memo is the first document and note the second.
pub fn work_of(alloc: Global, line: &[u8]) -> Option<Work> {
    match read(alloc, line).ok()? {
        Line::Work(work) => Some(work),
        _ => None,
    }
}

/// Whether a fault is this one.
fn is_fault(fault: &LineFault, wanted: Fault) -> bool {
    match (fault, wanted) {
        (LineFault::Long, Fault::Long)
        | (LineFault::Deep, Fault::Deep)
        | (LineFault::Many, Fault::Many) => true,
        (LineFault::Syntax(place), Fault::Syntax(wanted)) => *place == wanted,
        (LineFault::Unknown(name), Fault::Unknown(wanted))
        | (LineFault::Twice(name), Fault::Twice(wanted))
        | (LineFault::Mode(name), Fault::Mode(wanted)) => name.bytes() == wanted.as_bytes(),
        _ => false,
    }
}

/// Whether a line is refused for this fault by these names.
pub fn is_refused_by(alloc: Global, names: Names, line: &[u8], wanted: Fault) -> bool {
    match read_by(alloc, names, line).err() {
        Some(fault) => is_fault(&fault, wanted),
        None => false,
    }
}

/// The same by the base names.
pub fn is_refused(alloc: Global, line: &[u8], wanted: Fault) -> bool {
    match base_names(alloc) {
        Some(names) => is_refused_by(alloc, names, line, wanted),
        None => false,
    }
}

/// Asserts of each line that it is refused for this fault.
pub fn assert_refused(rt: &impl Abort, alloc: Global, lines: &[(&str, Fault)]) {
    for (line, fault) in lines {
        assert!(rt; is_refused(alloc, line.as_bytes(), *fault), "{line}");
    }
}

/// Whether this is what a line asks.
fn is_asked(line: &Line, asks: Asks) -> bool {
    match (line, asks) {
        (Line::Hello(subject), Asks::Hello(place)) => subject.position() == place,
        (Line::Wait, Asks::Wait) => true,
        (Line::Work(Work::Rule(rule)), _) => rule_of(asks) == Some(*rule),
        _ => false,
    }
}

/// Whether a line asks this by the base names.
fn is_read(alloc: Global, line: &str, asks: Asks) -> bool {
    match read(alloc, line.as_bytes()).ok() {
        Some(line) => {
            let is_asked = is_asked(&line, asks);
            drop(line);
            is_asked
        }
        None => false,
    }
}

/// Asserts of each line that it asks this.
pub fn assert_asked(rt: &impl Abort, alloc: Global, lines: &[(&str, Asks)]) {
    for (line, asks) in lines {
        assert!(rt; is_read(alloc, line, *asks), "{line}");
    }
}

/// Whether some text reads as the work by these names.
pub fn is_known_by(names: Names, work: &Work) -> bool {
    let known = names.knows(work);
    drop(names);
    known
}

/// The rule that is asked; none where there is no such level, or no rule.
pub fn rule_of(asks: Asks) -> Option<Rule> {
    Some(match asks {
        Asks::Hello(_) | Asks::Wait => return None,
        Asks::Give(subject, doc, mode) => Rule::Give {
            subject: SubjectId::new(subject),
            doc: DocId::new(doc),
            mode,
        },
        Asks::Rescind(subject, doc, mode) => Rule::Rescind {
            subject: SubjectId::new(subject),
            doc: DocId::new(doc),
            mode,
        },
        Asks::Current(rank, categories) => Rule::Current {
            level: Level::new(rank, categories)?,
        },
        Asks::Classify(doc, rank, categories) => Rule::Classify {
            doc: DocId::new(doc),
            level: Level::new(rank, categories)?,
        },
        Asks::Create(doc) => Rule::Create {
            doc: DocId::new(doc),
        },
        Asks::Delete(doc) => Rule::Delete {
            doc: DocId::new(doc),
        },
    })
}
