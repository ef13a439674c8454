//! Setups, and what is found in them by names.
ghost use Rattle.std.specs.Prelude.{◌<◌, IfSome, length};

use bl_policy::access::{Access, Mode};
use bl_policy::id::{DocId, SubjectId};
use bl_policy::rule::Rule;
use bl_read::line::read_line;
use bl_setup::reader::read_setup;
use bl_setup::setup::Setup;
use bl_work::asked::Line;
use bl_work::names::Names;
use bl_work::work::Work;
use std::alloc::Global;

/// The base setup.
pub const BASE: &[u8] = b"ranks u c s t\n\
categories nato crypto\n\
subject ann greatest s{nato} current s{nato}\n\
subject bob greatest s{nato} current u\n\
subject cat greatest s{crypto} current s{crypto}\n\
subject root greatest t{nato,crypto} current u trusted admin\n\
document memo s{nato} \"m1\"\n\
document note u \"n1\"\n\
document log t{nato,crypto} \"\"\n\
allow ann memo r w\n\
allow ann note r w\n\
allow ann log r a\n\
allow bob memo r w a\n\
allow bob note r w\n\
allow cat memo r\n\
allow root note r w\n";

/// The further lines of a setup with two reserved documents.
pub const RESERVED: &[u8] = b"reserve draft u\nreserve top t\n";

/// The further line of a setup with an administrator who is not trusted.
pub const WITH_DAN: &[u8] = b"subject dan greatest u current u admin\n";

/// The base setup with further lines; none where a growth is refused.
pub fn setup_with(alloc: Global, more: &[u8]) -> Option<Setup> {
    let mut text = Vec::new(alloc);
    text.extend_from_slice(BASE).ok()?;
    text.extend_from_slice(more).ok()?;
    read_setup(alloc, &text).ok()
}

/// The subject of this name.
pub fn subject_of(setup: &Setup, name: &str) -> Option<SubjectId>
    ensures names { IfSome result (λ subject. subject < length setup.now.names.subjects) }
    ensures policy { IfSome result (λ subject. subject < length setup.now.policy.subjects) }
{
    let subject = setup.names().subject(name.as_bytes())?;
    if (subject.position() as usize) < setup.policy().subjects() {
        Some(subject)
    } else {
        None
    }
}

/// The document of this name.
pub fn document_of(setup: &Setup, name: &str) -> Option<DocId>
    ensures names { IfSome result (λ doc. doc < length setup.now.names.documents) }
    ensures policy { IfSome result (λ doc. doc < length setup.now.policy.documents) }
{
    let doc = setup.names().document(name.as_bytes())?;
    if (doc.position() as usize) < setup.policy().documents() {
        Some(doc)
    } else {
        None
    }
}

/// The access in this mode to the document of this name.
pub fn access_of(setup: &Setup, mode: Mode, name: &str) -> Option<Access>
    ensures names { IfSome result (λ access. access.doc < length setup.now.names.documents) }
    ensures policy { IfSome result (λ access. access.doc < length setup.now.policy.documents) }
{
    match document_of(setup, name) {
        Some(doc) => Some(Access { mode, doc }),
        None => None,
    }
}

/// The rule that a line asks for.
fn rule_in(line: &Line) -> Option<Rule> {
    match line {
        Line::Work(Work::Rule(rule)) => Some(*rule),
        Line::Hello(_) | Line::Wait | Line::Work(_) => None,
    }
}

/// The rule of a line of this text.
pub fn rule_of(alloc: Global, names: &Names, text: &str) -> Option<Rule> {
    match read_line(alloc, names, text.as_bytes()) {
        Ok(line) => rule_in(&line),
        Err(_fault) => None,
    }
}
