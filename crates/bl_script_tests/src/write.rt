//! The text of tokens and of lines.
use super::fixtures::base_names;
use bl_level::token::{Keyword, Sign, Token};
use bl_script::asked::LineFault;
use bl_script::line::read_line;
use bl_script::names::Names;
use bl_script::write::{write_line, write_tokens};
use std::alloc::Global;
use std::process::Abort;

/// The canonical text of what a line asks by these names.
fn text_by(alloc: Global, names: &Names, bytes: &[u8]) -> Result<Vec<u8>, LineFault> {
    let line = read_line(alloc, names, bytes)?;
    Ok(write_line(alloc, names, &line)?)
}

/// The same by the base names.
fn text_of(alloc: Global, bytes: &[u8]) -> Result<Vec<u8>, LineFault> {
    match base_names(alloc) {
        Some(names) => {
            let text = text_by(alloc, &names, bytes);
            drop(names);
            text
        }
        None => Err(LineFault::Memory),
    }
}

/// Whether this is the canonical text of what a line asks.
fn is_written(alloc: Global, line: &str, expected: &str) -> bool {
    match text_of(alloc, line.as_bytes()) {
        Ok(text) => text.as_slice() == expected.as_bytes(),
        Err(_) => false,
    }
}

/// Asserts of each line that what it asks has this canonical text.
pub fn assert_written(rt: &impl Abort, alloc: Global, lines: &[(&str, &str)]) {
    for (line, text) in lines {
        assert!(rt; is_written(alloc, line, text), "{line}");
    }
}

#[test]
fn writes_a_hello(rt: HostRuntime) {
    const LINES: &[(&str, &str)] = &[(" hello \t bob ", "hello bob")];
    assert_written(&rt, rt.alloc(), LINES);
}

#[test]
fn writes_a_wait(rt: HostRuntime) {
    const LINES: &[(&str, &str)] = &[("  wait", "wait")];
    assert_written(&rt, rt.alloc(), LINES);
}

#[test]
fn writes_child_enters_after_admitted_line(rt: HostRuntime) {
    const LINES: &[(&str, &str)] = &[(
        "when write memo do add memo \"a\"; spawn when read memo do show memo; end; end",
        "when write memo do add memo\"a\";spawn when read memo do show memo;end;end",
    )];
    assert_written(&rt, rt.alloc(), LINES);
}

#[test]
fn writes_no_else_before_an_empty_body(rt: HostRuntime) {
    const LINES: &[(&str, &str)] = &[(
        "when read memo do if memo is \"a\" then show memo; else end; end",
        "when read memo do if memo is\"a\"then show memo;end;end",
    )];
    assert_written(&rt, rt.alloc(), LINES);
}

#[test]
fn writes_an_else_before_a_statement(rt: HostRuntime) {
    const LINES: &[(&str, &str)] = &[(
        "when write memo, read note do if memo has \"\" then else copy note to memo; end; end",
        "when write memo,read note do if memo has\"\"then else copy note to memo;end;end",
    )];
    assert_written(&rt, rt.alloc(), LINES);
}

#[test]
fn writes_what_changes_a_document(rt: HostRuntime) {
    const LINES: &[(&str, &str)] = &[(
        "when write memo, append log do set memo \"a\"; say \"b\"; pour memo to log; end",
        "when write memo,append log do set memo\"a\";say\"b\";pour memo to log;end",
    )];
    assert_written(&rt, rt.alloc(), LINES);
}

static TOKENS: [Token<'static>; 19] = [
    Token::Reserved(Keyword::When),
    Token::Reserved(Keyword::Write),
    Token::Name(b"memo"),
    Token::Reserved(Keyword::Do),
    Token::Reserved(Keyword::Add),
    Token::Name(b"memo"),
    Token::Text(b"a"),
    Token::Sign(Sign::Semicolon),
    Token::Reserved(Keyword::Spawn),
    Token::Reserved(Keyword::When),
    Token::Reserved(Keyword::Read),
    Token::Name(b"memo"),
    Token::Reserved(Keyword::Do),
    Token::Reserved(Keyword::Show),
    Token::Name(b"memo"),
    Token::Sign(Sign::Semicolon),
    Token::Reserved(Keyword::End),
    Token::Sign(Sign::Semicolon),
    Token::Reserved(Keyword::End),
];

/// Whether this is the canonical text of the tokens.
fn are_written(alloc: Global, tokens: &[Token<'_>], expected: &str) -> bool {
    match write_tokens(alloc, tokens) {
        Ok(text) => text.as_slice() == expected.as_bytes(),
        Err(_) => false,
    }
}

#[test]
fn writes_the_canonical_text(rt: HostRuntime) {
    let expected = "when write memo do add memo\"a\";spawn when read memo do show memo;end;end";
    assert!(rt; are_written(rt.alloc(), &TOKENS, expected));
}
