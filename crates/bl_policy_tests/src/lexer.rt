//! Tokens, their places and lexical faults.
use bl_level::lexer::{Front, Lexed, keyword_of, lex, next_token};
use bl_level::token::{Keyword, Sign, Token};
use std::alloc::Global;
use std::process::Abort;

/// The tokens of the line, each with its place.
static TOKENS: [(Token<'static>, usize); 12] = [
    (Token::Reserved(Keyword::When), 1),
    (Token::Reserved(Keyword::Read), 6),
    (Token::Name(b"a_1"), 11),
    (Token::Sign(Sign::Comma), 14),
    (Token::Name(b"b"), 15),
    (Token::Reserved(Keyword::Do), 17),
    (Token::Sign(Sign::Open), 19),
    (Token::Reserved(Keyword::Say), 20),
    (Token::Text(b"a }b"), 23),
    (Token::Sign(Sign::Semicolon), 29),
    (Token::Sign(Sign::Close), 30),
    (Token::Reserved(Keyword::End), 31),
];

/// Whether these are the tokens of a line, each at its place, as far as they go.
fn are_tokens(lexed: &Lexed<'_>, tokens: &[(Token<'_>, usize)]) -> bool {
    for (i, (token, place)) in tokens.iter().enumerate() {
        if lexed.tokens.get(i) != Some(token) || lexed.places.get(i) != Some(place) {
            return false;
        }
    }
    lexed.broken.is_none()
}

/// Whether a line is cut into these tokens, without fault.
fn is_cut(alloc: Global, line: &[u8], tokens: &[(Token<'_>, usize)]) -> bool {
    match lex(alloc, line) {
        Ok(lexed) => {
            let is_cut = lexed.tokens.len() == tokens.len() && are_tokens(&lexed, tokens);
            drop(lexed);
            is_cut
        }
        Err(_) => false,
    }
}

#[test]
fn cuts_a_line_into_its_tokens(rt: HostRuntime) {
    assert!(rt;
        is_cut(
            rt.alloc(),
            b" when\tread a_1,b do{say\"a }b\";}end ",
            &TOKENS
        )
    );
}

/// Whether a line has so many tokens before a lexical fault at this place.
fn is_broken(alloc: Global, line: &[u8], tokens: usize, place: usize) -> bool {
    match lex(alloc, line) {
        Ok(lexed) => {
            let is_broken = lexed.tokens.len() == tokens && lexed.broken == Some(place);
            drop(lexed);
            is_broken
        }
        Err(_) => false,
    }
}

fn assert_broken(rt: &impl Abort, alloc: Global, lines: &[(&[u8], usize, usize)]) {
    for (line, tokens, place) in lines {
        assert!(rt; is_broken(alloc, line, *tokens, *place), "at {place}");
    }
}

#[test]
fn places_each_lexical_fault(rt: HostRuntime) {
    const LINES: &[(&[u8], usize, usize)] = &[
        // A byte that begins no token, a byte that no text holds, and a text that is not closed.
        (b"wait A", 1, 5),
        (b"say \"a\\b\"", 1, 6),
        (b"say \"ab", 1, 7),
        (b"3", 0, 0),
        // A word of 32 bytes, and one of 33.
        (b"a2345678901234567890123456789012!", 1, 32),
        (b" a23456789012345678901234567890123", 0, 1),
    ];
    assert_broken(&rt, rt.alloc(), LINES);
}

fn assert_keywords(rt: &impl Abort, words: &[(&[u8], Option<Keyword>)]) {
    for (n, (word, keyword)) in words.iter().enumerate() {
        assert!(rt; keyword_of(word) == *keyword, "word {n}");
    }
}

/// Whether nothing stands behind a reserved word at the front.
fn is_last_word(line: &[u8], keyword: Keyword) -> bool {
    matches!(next_token(line), Front::Token(Token::Reserved(word), b"") if word == keyword)
}

#[test]
fn knows_its_words(rt: HostRuntime) {
    const WORDS: &[(&[u8], Option<Keyword>)] = &[
        (b"categories", Some(Keyword::Categories)),
        (b"category", None),
        (b"", None),
    ];
    assert_keywords(&rt, WORDS);
    assert!(rt; is_last_word(b"\t reserve", Keyword::Reserve));
    assert!(rt; matches!(next_token(b" \t"), Front::Nothing));
}
