//! The tokens of a script, put one after the other: of each `when` its accesses and its statements, and where these
//! spawn a behaviour, the tokens of its `when`.
ghost use Rattle.std.specs.Prelude.{◌≡◌, ◌<◌, [], ◌∷◌, map, fold, length, OnOk};
ghost use Rattle.bl_level.specs.Token.{reserved, name, text, sign};
ghost use Rattle.bl_name.specs.declared.token.Keyword.TheVariants.{To, If, Then};
ghost use Rattle.bl_name.specs.declared.token.Sign.TheVariants.{Semicolon};
ghost use Rattle.bl_work.specs.Body.{statements_of};
ghost use Rattle.bl_work.specs.Script.{IsScript};
ghost use Rattle.bl_work.specs.Spelled.{spell_access, spell_more, spell_body};
ghost use Rattle.bl_work.specs.Spelled as spelled;
ghost use Rattle.bl_write.specs.There.{AreIn, AreThere, AreWithin};
ghost use Rattle.bl_write.specs.Unread.{name_at, unread_access, unread_body, unread_at, tokens_of, spell_else};

use crate::sink::{Sink, put_all};
use bl_level::token::{Keyword, Sign, Token};
use bl_policy::access::{Access, Mode};
use bl_policy::id::DocId;
use bl_work::names::Names;
use bl_work::script::{Condition, Script, Stmt};

const SEMICOLON: Token<'static> = Token::Sign(Sign::Semicolon);

fn mode_word(mode: Mode) -> Keyword
    ensures { result ≡ spelled.mode_word mode }
{
    match mode {
        Mode::Read => Keyword::Read,
        Mode::Append => Keyword::Append,
        Mode::Write => Keyword::Write,
    }
}

fn asks_word(test: Condition) -> Keyword
    ensures { result ≡ spelled.asks_word test }
{
    match test {
        Condition::Is => Keyword::Is,
        Condition::Has => Keyword::Has,
    }
}

pub(crate) fn name_of(names: &Names, document: DocId) -> &[u8]
    requires { document < length names.now.documents }
    ensures { result.now ≡ name_at names.now document }
{
    names.document_name(document).bytes()
}

/// Puts the mode and the document of an access.
fn put_access<S: Sink>(sink: &mut S, names: &Names, access: Access) -> Result<(), S::Refusal>
    requires { access.doc < length names.now.documents }
    ensures { OnOk result (sink.new ≡ fold S.taken sink.old (spell_access (unread_access names.now access) [])) }
{
    let mode = Token::Reserved(mode_word(access.mode));
    let document = Token::Name(name_of(names, access.doc));
    put_all(sink, &[mode, document])
}

/// Puts the accesses after the first one of a `when`.
fn put_more<S: Sink>(sink: &mut S, names: &Names, accesses: &[Access]) -> Result<(), S::Refusal>
    requires { AreIn (length names.now.documents) accesses.now }
    ensures { OnOk result (sink.new ≡ fold S.taken sink.old
        (spell_more (map (unread_access names.now) accesses.now) [])) }
{
    for access in accesses {
        sink.put(Token::Sign(Sign::Comma))?;
        put_access(sink, names, *access)?;
    }
    Ok(())
}

/// Puts a statement that adds to a document or sets it.
fn put_change<'a, S: Sink>(
    sink: &mut S,
    names: &'a Names,
    word: Keyword,
    doc: DocId,
    words: &'a [u8],
) -> Result<(), S::Refusal>
    requires { doc < length names.now.documents }
    ensures { OnOk result (sink.new ≡ fold S.taken sink.old
        (reserved word ∷ name (name_at names.now doc) ∷ text words.now ∷ sign Semicolon ∷ [])) }
{
    let change = Token::Reserved(word);
    let document = Token::Name(name_of(names, doc));
    let text = Token::Text(words);
    put_all(sink, &[change, document, text, SEMICOLON])
}

/// Puts a statement that copies or pours a document into another.
fn put_move<S: Sink>(
    sink: &mut S,
    names: &Names,
    word: Keyword,
    from: DocId,
    to: DocId,
) -> Result<(), S::Refusal>
    requires from { from < length names.now.documents }
    requires to { to < length names.now.documents }
    ensures { OnOk result (sink.new ≡ fold S.taken sink.old
        (reserved word ∷ name (name_at names.now from) ∷ reserved To ∷ name (name_at names.now to)
        ∷ sign Semicolon ∷ [])) }
{
    let moves = Token::Reserved(word);
    let source = Token::Name(name_of(names, from));
    let to_word = Token::Reserved(Keyword::To);
    let target = Token::Name(name_of(names, to));
    put_all(sink, &[moves, source, to_word, target, SEMICOLON])
}

/// Puts the condition of an `if`.
fn put_condition<'a, S: Sink>(
    sink: &mut S,
    names: &'a Names,
    doc: DocId,
    test: Condition,
    words: &'a [u8],
) -> Result<(), S::Refusal>
    requires { doc < length names.now.documents }
    ensures { OnOk result (sink.new ≡ fold S.taken sink.old
        (reserved If ∷ name (name_at names.now doc) ∷ reserved (spelled.asks_word test) ∷ text words.now
        ∷ reserved Then ∷ [])) }
{
    let if_word = Token::Reserved(Keyword::If);
    let document = Token::Name(name_of(names, doc));
    let asks = Token::Reserved(asks_word(test));
    let text = Token::Text(words);
    let then_word = Token::Reserved(Keyword::Then);
    put_all(sink, &[if_word, document, asks, text, then_word])
}

/// Puts the `when` of a behaviour, by its number.
#[cycle(spell)]
pub(crate) fn put_when<S: Sink>(
    sink: &mut S,
    names: &Names,
    script: &Script,
    index: usize,
) -> Result<(), S::Refusal>
    requires script { IsScript script.now }
    requires there { AreThere names.now script.now }
    requires index { index < length script.now }
    ensures { OnOk result (sink.new ≡ fold S.taken sink.old (tokens_of (unread_at names.now script.now index))) }
{
    let accesses = script.accesses(index);
    let statements = script.body(index);
    sink.put(Token::Reserved(Keyword::When))?;
    put_access(sink, names, accesses[0])?;
    put_more(sink, names, &accesses[1..])?;
    sink.put(Token::Reserved(Keyword::Do))?;
    put_statements(sink, names, script, statements)?;
    sink.put(Token::Reserved(Keyword::End))
}

/// Puts statements, from the left.
#[cycle(spell)]
fn put_statements<S: Sink>(
    sink: &mut S,
    names: &Names,
    script: &Script,
    statements: &[Stmt],
) -> Result<(), S::Refusal>
    requires script { IsScript script.now }
    requires there { AreThere names.now script.now }
    requires within { AreWithin (length names.now.documents) (length script.now) (statements_of statements.now) }
    ensures { OnOk result (sink.new ≡ fold S.taken sink.old
        (spell_body (unread_body names.now (unread_at names.now script.now) (statements_of statements.now)))) }
{
    for statement in statements {
        put_statement(sink, names, script, statement)?;
    }
    Ok(())
}

/// Puts a statement, with its semicolon.
#[cycle(spell)]
fn put_statement<S: Sink>(
    sink: &mut S,
    names: &Names,
    script: &Script,
    statement: &Stmt,
) -> Result<(), S::Refusal>
    requires script { IsScript script.now }
    requires there { AreThere names.now script.now }
    requires within { AreWithin (length names.now.documents) (length script.now) (statements_of (statement.now ∷ [])) }
    ensures { OnOk result (sink.new ≡ fold S.taken sink.old
        (spell_body (unread_body names.now (unread_at names.now script.now) (statements_of (statement.now ∷ []))))) }
{
    match statement {
        Stmt::Show(doc) => {
            let show = Token::Reserved(Keyword::Show);
            let document = Token::Name(name_of(names, *doc));
            put_all(sink, &[show, document, SEMICOLON])
        }
        Stmt::Say(text) => {
            let text = Token::Text(text.bytes());
            put_all(sink, &[Token::Reserved(Keyword::Say), text, SEMICOLON])
        }
        Stmt::Add(doc, text) => put_change(sink, names, Keyword::Add, *doc, text.bytes()),
        Stmt::Set(doc, text) => put_change(sink, names, Keyword::Set, *doc, text.bytes()),
        Stmt::Copy(from, to) => put_move(sink, names, Keyword::Copy, *from, *to),
        Stmt::Pour(from, to) => put_move(sink, names, Keyword::Pour, *from, *to),
        Stmt::If(choice) => {
            put_condition(sink, names, choice.doc, choice.test, choice.text.bytes())?;
            put_statements(sink, names, script, choice.then_body.statements())?;
            put_else(sink, names, script, choice.else_body.statements())?;
            put_all(sink, &[Token::Reserved(Keyword::End), SEMICOLON])
        }
        Stmt::Spawn(behaviour) => {
            sink.put(Token::Reserved(Keyword::Spawn))?;
            put_when(sink, names, script, usize::from(*behaviour))?;
            sink.put(SEMICOLON)
        }
    }
}

/// Puts the `else` of an `if`, where its body has a statement.
#[cycle(spell)]
fn put_else<S: Sink>(
    sink: &mut S,
    names: &Names,
    script: &Script,
    statements: &[Stmt],
) -> Result<(), S::Refusal>
    requires script { IsScript script.now }
    requires there { AreThere names.now script.now }
    requires within { AreWithin (length names.now.documents) (length script.now) (statements_of statements.now) }
    ensures { OnOk result (sink.new ≡ fold S.taken sink.old
        (spell_else (unread_body names.now (unread_at names.now script.now) (statements_of statements.now)))) }
{
    if statements.is_empty() {
        return Ok(());
    }
    sink.put(Token::Reserved(Keyword::Else))?;
    put_statements(sink, names, script, statements)
}
