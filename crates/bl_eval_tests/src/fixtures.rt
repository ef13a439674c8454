//! Contents, what comes back of grants, and what a test expects.
use bl_grant::withdrawn::Withdrawn;
use bl_policy::id::DocId;
use bl_work::document::Document;
use std::alloc::{AllocError, Global};
use std::process::Abort;

/// Expects the checks of a test to hold.
pub fn expect(rt: &impl Abort, outcome: Result<bool, AllocError>) {
    match outcome {
        Ok(holds) => assert!(rt; holds),
        Err(AllocError) => panic!(rt; "no memory"),
    }
}

/// Whether all checks hold.
pub fn all_hold(checks: &[bool]) -> bool {
    !checks.contains(&false)
}

/// A content of 65,535 times `a`.
pub fn nearly_full(alloc: Global) -> Result<Document, AllocError> {
    let mut content = Document::new(alloc, b"a")?;
    for _ in 0..15 {
        let half = content.share()?;
        content.add(alloc, half.bytes())?;
        content.add(alloc, b"a")?;
    }
    Ok(content)
}

/// Whether this is 65,535 times `a` and an `x`.
pub fn is_full(content: &Document) -> bool {
    let bytes = content.bytes();
    bytes.len() == 65_536 && bytes[65_535] == b'x' && bytes[65_534] == b'a'
}

/// Whether just these contents come back, in order.
pub fn are_back(grants: Withdrawn, documents: &[Document]) -> bool {
    let mut grants = grants;
    let mut same = grants.count() == documents.len();
    while let Some(back) = grants.close_last() {
        let content = back.into_content();
        let place = grants.count();
        if place >= documents.len() || documents[place] != content {
            same = false;
        }
    }
    grants.end();
    same
}

/// What comes back of a document.
pub fn back_of(grants: Withdrawn, doc: DocId) -> Option<Document> {
    let mut grants = grants;
    let mut found = None;
    while let Some(back) = grants.close_last() {
        if back.access().doc == doc {
            found = Some(back.into_content());
        } else {
            let _content = back.into_content();
        }
    }
    grants.end();
    found
}
