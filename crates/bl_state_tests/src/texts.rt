//! The texts that are due. What is written once is written again of what it reads as.
use crate::base::{BASE, BASE_WRITTEN, assert_stays};
use std::alloc::{AllocError, Global};
use std::test::Fail;

/// These parts, one behind the other.
fn parts_of(alloc: Global, parts: &[&[u8]]) -> Result<Vec<u8>, AllocError> {
    let mut text = Vec::new(alloc);
    for part in parts {
        text.extend_from_slice(part)?;
    }
    Ok(text)
}

/// A text of so many bytes.
fn long(alloc: Global, bytes: usize) -> Result<Vec<u8>, AllocError> {
    let mut text = Vec::with_capacity(alloc, bytes)?;
    for _ in 0..bytes {
        text.push(b'x')?;
    }
    Ok(text)
}

/// The base setup: one is trusted and an administrator, and one has a current level below the greatest.
#[test]
fn base_setup(rt: HostRuntime) -> Result<(), Fail> {
    assert_stays(&rt, BASE.as_bytes(), BASE_WRITTEN.as_bytes())
}

/// Reserved documents stand among the others, and so before the rights.
#[test]
fn reserved_setup(rt: HostRuntime) -> Result<(), Fail> {
    let reserved: &[u8] = b"reserve draft u\nreserve top t\n";
    let text = parts_of(rt.alloc(), &[BASE.as_bytes(), reserved])?;
    let rights = match BASE_WRITTEN.find("allow") {
        Some(at) => at,
        None => 0,
    };
    let written = BASE_WRITTEN.as_bytes();
    let wanted = parts_of(
        rt.alloc(),
        &[&written[..rights], reserved, &written[rights..]],
    )?;
    assert_stays(&rt, &text, &wanted)
}

/// Comments, blank lines and line ends are not kept, nor is the order of the rights.
#[test]
fn not_kept(rt: HostRuntime) -> Result<(), Fail> {
    assert_stays(
        &rt,
        b"# who\r\n\r\nranks\tu\r\ncategories\n \nsubject b greatest u  current u\nsubject a greatest u current u\n\
document d u \"\"\ndocument c u \" \"\nallow a c w\nallow b c w a\nallow a d r\nallow a c r",
        b"ranks u\ncategories\nsubject b greatest u current u\nsubject a greatest u current u\n\
document d u\"\"\ndocument c u\" \"\nallow b c a w\nallow a d r\nallow a c r w\n",
    )
}

/// A document that was deleted, or never created, has no text, and may have rights.
#[test]
fn rights_of_an_absent_document(rt: HostRuntime) -> Result<(), Fail> {
    let text =
        b"ranks u\ncategories\nsubject ann greatest u current u\nreserve gone u\nreserve new u\nallow ann gone r a w\n";
    assert_stays(&rt, text, text)
}

/// Neither subjects nor documents.
#[test]
fn a_scheme_alone(rt: HostRuntime) -> Result<(), Fail> {
    let text = b"ranks u\ncategories\n";
    assert_stays(&rt, text, text)
}

/// Documents without subjects, and the other way round.
#[test]
fn one_kind_alone(rt: HostRuntime) -> Result<(), Fail> {
    let documents = b"ranks u\ncategories\ndocument d u\"#\"\nreserve e u\n";
    assert_stays(&rt, documents, documents)?;
    let subjects = b"ranks u\ncategories\nsubject s greatest u current u\n";
    assert_stays(&rt, subjects, subjects)
}

/// A level has 32 categories, in the scheme's order.
#[test]
fn thirty_two_categories(rt: HostRuntime) -> Result<(), Fail> {
    let text =
        b"ranks u\ncategories a b c d e f g h i j k l m n o p q r s t u v w x y z aa ab ac ad ae af\n\
document d u{af,b,a,c,d,e,f,g,h,i,j,k,l,m,n,o,p,q,r,s,t,u,v,w,x,y,z,ab,aa,ad,ac,ae} \"\"\n";
    let wanted =
        b"ranks u\ncategories a b c d e f g h i j k l m n o p q r s t u v w x y z aa ab ac ad ae af\n\
document d u{a,b,c,d,e,f,g,h,i,j,k,l,m,n,o,p,q,r,s,t,u,v,w,x,y,z,aa,ab,ac,ad,ae,af}\"\"\n";
    assert_stays(&rt, text, wanted)
}

/// A text that has grown as far as it may.
#[test]
fn a_long_text(rt: HostRuntime) -> Result<(), Fail> {
    let content = long(rt.alloc(), 65_536)?;
    let front: &[u8] = b"ranks u\ncategories\ndocument d u\"";
    let text = parts_of(rt.alloc(), &[front, &content, b"\"\n"])?;
    assert_stays(&rt, &text, &text)
}
