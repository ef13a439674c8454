//! What is told of a setup file without fault.
use crate::base::{BASE, assert_writes};
use bl_checking::check::check_on;
use bl_wire::watched::Watched;
use std::io;
use std::io::Write;

/// The base setup.
pub const WHOLE: &str = "ranks u c s t\n\
categories nato crypto\n\
subject ann greatest s{nato} current s{nato}\n\
subject bob greatest s{nato} current u\n\
subject cat greatest s{crypto} current s{crypto}\n\
subject root greatest t{nato,crypto} current u trusted admin\n\
document memo s{nato} \"m1\"\n\
document note u \"n1\"\n\
document log t{nato,crypto} \"\"\n\
allow ann memo r w\n\
allow ann note r w\n\
allow ann log r a\n\
allow bob memo r w a\n\
allow bob note r w\n\
allow cat memo r\n\
allow root note r w\n";

/// What is told of it.
pub const TABLE: &str = "base.txt: 4 subjects, 3 documents, 14 rights\n  \
subject  document  level           read           append  write\n  \
ann      memo      s{nato}         yes            -       yes\n  \
ann      note      u               yes            -       at u\n  \
ann      log       t{nato,crypto}  never, simple  yes     -\n  \
bob      memo      s{nato}         from s{nato}   yes     at s{nato}\n  \
bob      note      u               yes            -       yes\n  \
cat      memo      s{nato}         never, simple  -       -\n  \
root     note      u               yes            -       yes\n\
remarks\n  \
never: ann has r of log, and no current level of ann lets it be used\n  \
never: cat has r of memo, and no current level of cat lets it be used\n  \
way down: root, a trusted administrator, may classify any document\n  \
unread: nobody may look at log\n";

#[test]
fn base_setup(rt: HostRuntime) {
    assert_writes(&rt, WHOLE, TABLE);
}

// What a trusted subject may do by its trust alone, and where it may carry what it has seen; a level up to which a subject
// may append; and who has no right.
#[test]
fn remarks_and_levels(rt: HostRuntime) {
    assert_writes(
        &rt,
        "ranks u s\n\
        categories nato\n\
        subject ann greatest s current s trusted\n\
        subject bob greatest s{nato}current s\n\
        subject eve greatest u current u\n\
        document memo s\"m1\"\n\
        document note u\"n1\"\n\
        reserve plan u{nato}\n\
        allow ann memo r\n\
        allow ann note w\n\
        allow bob plan a\n",
        "base.txt: 3 subjects, 3 documents, 3 rights\n  \
        subject  document  level    read  append         write\n  \
        ann      memo      s        yes   -              -\n  \
        ann      note      u        -     -              exempt\n  \
        bob      plan      u{nato}  -     up to u{nato}  -\n\
        remarks\n  \
        way down: ann, a trusted subject, may look at memo and alter note, whose level does not dominate it\n  \
        unread: nobody may look at plan\n  \
        idle: eve has no right\n  \
        nobody administers: no subject is an administrator\n",
    );
}

// Nothing is worth a remark where all is well.
#[test]
fn one_of_each(rt: HostRuntime) {
    assert_writes(
        &rt,
        "ranks u\ncategories nato\nsubject ann greatest u current u admin\ndocument memo u\"m1\"\nallow ann memo r\n",
        "base.txt: 1 subject, 1 document, 1 right\n  \
        subject  document  level  read  append  write\n  \
        ann      memo      u      yes   -       -\n\
        no remarks\n",
    );
}

// A table has no row where nobody has a right.
#[test]
fn no_right(rt: HostRuntime) {
    assert_writes(
        &rt,
        BASE,
        "base.txt: 1 subject, 1 document, 0 rights\n  \
        subject  document  level  read  append  write\n\
        remarks\n  \
        unread: nobody may look at memo\n  \
        idle: ann has no right\n  \
        nobody administers: no subject is an administrator\n",
    );
}

/// Takes no byte.
#[derive(Drop)]
struct TakesNothing {}

impl Write for TakesNothing {
    fn write(&mut self, _: &[u8]) -> io::Result<usize> {
        Ok(0)
    }

    fn flush(&mut self) -> io::Result<()> {
        Ok(())
    }
}

#[test]
fn names_a_fault_of_the_output(rt: HostRuntime) {
    let alloc = rt.alloc();
    let mut output = Watched::new(TakesNothing {});
    let mut errors = Watched::new(Vec::new(alloc));
    let status = check_on(
        alloc,
        b"base.txt",
        WHOLE.as_bytes(),
        &mut output,
        &mut errors,
    );
    assert_eq!(rt; status, 3);
    assert!(rt; errors.into_inner().as_slice() == b"write fault\n".as_slice());
}
