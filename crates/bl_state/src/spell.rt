//! The lines of a setup, token by token.
ghost use Rattle.std.specs.Prelude.{◌≡◌, ◌<◌, ◌∷◌, fold, length, OnOk};
ghost use Rattle.bl_level.specs.LevelText.{text_of};
ghost use Rattle.bl_level.specs.Scheme.{HoldsLevel};
ghost use Rattle.bl_level.specs.Token.{name, reserved};
ghost use Rattle.bl_name.specs.declared.token.Keyword.TheVariants.{Allow as TheWordAllow};
ghost use Rattle.bl_declare.specs.Declaration.{document, spell_declaration, spell_flag, spell_modes, spell_names, subject};
ghost use Rattle.bl_state.specs.declared.line.Line.TheVariants as lines;
ghost use Rattle.bl_state.specs.Lines.{IsLineOf, declared_by};
ghost use Rattle.bl_state.specs.Texts.{document_text_of, mode_where, modes_where};
ghost use Rattle.bl_state.specs.Whole.{IsWhole};

use crate::line::{Line, Modes};
use bl_level::level::Level;
use bl_level::scheme::Scheme;
use bl_level::table::NameTable;
use bl_level::token::{Keyword, Token};
use bl_policy::access::Mode;
use bl_policy::id::{DocId, SubjectId};
use bl_setup::setup::Setup;
use bl_work::modes::letter_of;
use bl_write::sink::{Sink, put_all};
use bl_write::spell_rules::put_level;

/// Puts a word that stands there.
fn put_flag<S: Sink>(sink: &mut S, word: Keyword, there: bool) -> Result<(), S::Refusal>
    ensures { OnOk result (sink.new ≡ fold S.taken sink.old (spell_flag word there)) }
{
    if there {
        sink.put(Token::Reserved(word))?;
    }
    Ok(())
}

/// Puts the letter of a mode that is there.
fn put_mode<S: Sink>(sink: &mut S, there: bool, mode: Mode) -> Result<(), S::Refusal>
    ensures { OnOk result (sink.new ≡ fold S.taken sink.old (spell_modes (mode_where there mode))) }
{
    if there {
        sink.put(Token::Name(letter_of(mode)))?;
    }
    Ok(())
}

/// Puts the names of a table, in order.
fn put_names<S: Sink>(sink: &mut S, names: &NameTable) -> Result<(), S::Refusal>
    ensures { OnOk result (sink.new ≡ fold S.taken sink.old (spell_names names.now)) }
{
    for place in 0..names.len() {
        let name = names.get(place).unwrap();
        sink.put(Token::Name(name.bytes()))?;
    }
    Ok(())
}

/// Puts a word, and the names of a table behind it.
fn put_named<S: Sink>(sink: &mut S, word: Keyword, names: &NameTable) -> Result<(), S::Refusal>
    ensures { OnOk result (sink.new ≡ fold S.taken sink.old (reserved word ∷ spell_names names.now)) }
{
    sink.put(Token::Reserved(word))?;
    put_names(sink, names)
}

/// The levels of a subject, and whether it is trusted and an administrator.
#[derive(Clone, Copy)]
struct Cleared {
    greatest: Level,
    current: Level,
    trusted: bool,
    admin: bool,
}

/// Puts the line of a subject with this name.
fn put_cleared<S: Sink>(
    sink: &mut S,
    scheme: &Scheme,
    whose: &[u8],
    cleared: Cleared,
) -> Result<(), S::Refusal>
    requires greatest { HoldsLevel scheme.now cleared.greatest }
    requires current { HoldsLevel scheme.now cleared.current }
    ensures { OnOk result (sink.new ≡ fold S.taken sink.old
        (spell_declaration (subject (record {
          name = whose.now;
          greatest = text_of scheme.now cleared.greatest;
          current = text_of scheme.now cleared.current;
          trusted = cleared.trusted;
          admin = cleared.admin;
        })))) }
{
    let subject = Token::Reserved(Keyword::Subject);
    let greatest = Token::Reserved(Keyword::Greatest);
    put_all(sink, &[subject, Token::Name(whose), greatest])?;
    put_level(sink, scheme, &cleared.greatest)?;
    sink.put(Token::Reserved(Keyword::Current))?;
    put_level(sink, scheme, &cleared.current)?;
    put_flag(sink, Keyword::Trusted, cleared.trusted)?;
    put_flag(sink, Keyword::Admin, cleared.admin)
}

/// Puts the line of a subject.
fn put_subject<S: Sink>(sink: &mut S, setup: &Setup, subject: SubjectId) -> Result<(), S::Refusal>
    requires whole { IsWhole setup.now }
    requires known { subject < length setup.now.names.subjects }
    ensures { OnOk result (sink.new ≡ fold S.taken sink.old (spell_declaration (declared_by setup.now (lines.Subject subject)))) }
{
    let names = setup.names();
    let policy = setup.policy();
    let cleared = Cleared {
        greatest: policy.greatest(subject),
        current: policy.current(subject),
        trusted: policy.is_trusted(subject),
        admin: policy.is_admin(subject),
    };
    let whose = names.subject_name(subject).bytes();
    put_cleared(sink, names.scheme(), whose, cleared)
}

/// Puts the line of a document with this name: its content only where it is present.
fn put_held<'a, S: Sink>(
    sink: &mut S,
    scheme: &Scheme,
    called: &'a [u8],
    level: Level,
    present: bool,
    content: &'a [u8],
) -> Result<(), S::Refusal>
    requires { HoldsLevel scheme.now level }
    ensures { OnOk result (sink.new ≡ fold S.taken sink.old
        (spell_declaration (document (document_text_of scheme.now called.now level present content.now)))) }
{
    if present {
        put_all(
            sink,
            &[Token::Reserved(Keyword::Document), Token::Name(called)],
        )?;
        put_level(sink, scheme, &level)?;
        return sink.put(Token::Text(content));
    }
    put_all(
        sink,
        &[Token::Reserved(Keyword::Reserve), Token::Name(called)],
    )?;
    put_level(sink, scheme, &level)
}

/// Puts the line of a document.
fn put_document<S: Sink>(sink: &mut S, setup: &Setup, doc: DocId) -> Result<(), S::Refusal>
    requires whole { IsWhole setup.now }
    requires there { doc < length setup.now.names.documents }
    ensures { OnOk result (sink.new ≡ fold S.taken sink.old (spell_declaration (declared_by setup.now (lines.Document doc)))) }
{
    let names = setup.names();
    let policy = setup.policy();
    let level = policy.level(doc);
    let present = policy.is_present(doc);
    let called = names.document_name(doc).bytes();
    let content = setup.contents()[usize::from(doc.position())].bytes();
    put_held(sink, names.scheme(), called, level, present, content)
}

/// Puts the line of a cell with these modes, of which there is one at least.
fn put_modes<'a, S: Sink>(
    sink: &mut S,
    whose: &'a [u8],
    called: &'a [u8],
    modes: Modes,
) -> Result<(), S::Refusal>
    ensures { OnOk result (sink.new ≡ fold S.taken sink.old (reserved TheWordAllow ∷ name whose.now ∷ name called.now
        ∷ spell_modes (modes_where modes.read modes.append modes.write))) }
{
    let allow = Token::Reserved(Keyword::Allow);
    put_all(sink, &[allow, Token::Name(whose), Token::Name(called)])?;
    put_mode(sink, modes.read, Mode::Read)?;
    put_mode(sink, modes.append, Mode::Append)?;
    put_mode(sink, modes.write, Mode::Write)
}

/// Puts the line of a cell that has a mode.
fn put_allow<S: Sink>(
    sink: &mut S,
    setup: &Setup,
    whose: SubjectId,
    doc: DocId,
) -> Result<(), S::Refusal>
    requires { IsLineOf setup.now (lines.Allow whose doc) }
    ensures { OnOk result (sink.new ≡ fold S.taken sink.old (spell_declaration (declared_by setup.now (lines.Allow whose doc)))) }
{
    let names = setup.names();
    let modes = Modes::of(setup, whose, doc);
    let called = names.document_name(doc).bytes();
    let whose = names.subject_name(whose).bytes();
    put_modes(sink, whose, called, modes)
}

/// Puts the tokens of a line.
pub(crate) fn put_line<S: Sink>(sink: &mut S, setup: &Setup, line: Line) -> Result<(), S::Refusal>
    requires whole { IsWhole setup.now }
    requires there { IsLineOf setup.now line }
    ensures { OnOk result (sink.new ≡ fold S.taken sink.old (spell_declaration (declared_by setup.now line))) }
{
    let scheme = setup.names().scheme();
    match line {
        Line::Ranks => put_named(sink, Keyword::Ranks, scheme.ranks()),
        Line::Categories => put_named(sink, Keyword::Categories, scheme.categories()),
        Line::Subject(subject) => put_subject(sink, setup, subject),
        Line::Document(doc) => put_document(sink, setup, doc),
        Line::Allow(whose, doc) => put_allow(sink, setup, whose, doc),
    }
}
