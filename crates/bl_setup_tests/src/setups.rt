//! Whole files, and what is read of them.
use super::files::{base_setup_of, reserving_setup_of};
use bitflags::Flags;
use bl_level::level::Level;
use bl_setup::reader::read_setup;
use bl_setup::setup::Setup;
use std::alloc::{AllocError, Global};
use std::process::Abort;
use std::test::Fail;

/// A subject with the ranks and the categories of its levels, and whether it is trusted and an administrator.
#[derive(Clone, Copy)]
struct Clearance<'a> {
    name: &'a [u8],
    greatest: (u8, u32),
    current: (u8, u32),
    trusted: bool,
    admin: bool,
}

fn is_level(level: Level, (rank, categories): (u8, u32)) -> bool {
    level.rank() == rank && level.categories() == categories
}

/// Whether a subject has this clearance.
fn is_cleared(setup: &Setup, clearance: &Clearance<'_>) -> bool {
    let Some(subject) = setup.names().subject(clearance.name) else {
        return false;
    };
    let policy = setup.policy();
    is_level(policy.greatest(subject), clearance.greatest)
        && is_level(policy.current(subject), clearance.current)
        && policy.is_trusted(subject) == clearance.trusted
        && policy.is_admin(subject) == clearance.admin
}

/// The bits of a cell: 1 for read, 2 for append, 4 for write.
fn cell_of(setup: &Setup, subject: &[u8], document: &[u8]) -> Option<u8> {
    let subject = setup.names().subject(subject)?;
    let document = setup.names().document(document)?;
    Some(setup.policy().cell(subject, document).bits())
}

/// Whether these cells have these bits.
fn are_cells(setup: &Setup, cells: &[(&[u8], &[u8], u8)]) -> bool {
    for (subject, document, bits) in cells {
        if cell_of(setup, subject, document) != Some(*bits) {
            return false;
        }
    }
    true
}

/// Whether a document has this content.
fn has_content(setup: &Setup, name: &[u8], content: &[u8]) -> bool {
    match setup.names().document(name) {
        Some(document) => {
            let place = usize::from(document.position());
            setup.contents()[place].bytes() == content
        }
        None => false,
    }
}

/// Whether a document is there by its name, with this level, and present or not.
fn is_document(setup: &Setup, name: &[u8], level: (u8, u32), present: bool) -> bool {
    match setup.names().document(name) {
        Some(document) => {
            let policy = setup.policy();
            is_level(policy.level(document), level) && policy.is_present(document) == present
        }
        None => false,
    }
}

/// Whether there are so many subjects and documents.
fn has_counts(setup: &Setup, subjects: usize, documents: usize) -> bool {
    setup.names().subjects() == subjects && setup.names().documents() == documents
}

/// The clearance of `root` in the setup that the tests share.
const ROOT: Clearance<'static> = Clearance {
    name: b"root",
    greatest: (3, 3),
    current: (0, 0),
    trusted: true,
    admin: true,
};

/// Whether the subjects of the setup that the tests share are there with their levels, and no document is one of them.
fn are_base_subjects(setup: &Setup) -> bool {
    let ann = Clearance {
        name: b"ann",
        greatest: (2, 1),
        current: (2, 1),
        trusted: false,
        admin: false,
    };
    let bob = Clearance {
        name: b"bob",
        greatest: (2, 1),
        current: (0, 0),
        trusted: false,
        admin: false,
    };
    is_cleared(setup, &ann)
        && is_cleared(setup, &bob)
        && is_cleared(setup, &ROOT)
        && setup.names().subject(b"memo").is_none()
}

fn check_base_setup(rt: &impl Abort, setup: &Setup) {
    assert!(rt; has_counts(setup, 4, 3));
    assert!(rt; are_base_subjects(setup));
    let cells: [(&[u8], &[u8], u8); 4] = [
        (b"ann", b"memo", 5),
        (b"ann", b"log", 3),
        (b"bob", b"memo", 7),
        (b"cat", b"note", 0),
    ];
    assert!(rt; are_cells(setup, &cells));
    assert!(rt; has_content(setup, b"memo", b"m1") && has_content(setup, b"log", b""));
}

#[test]
fn base_setup(rt: HostRuntime) -> Result<(), Fail> {
    let setup = base_setup_of(rt.alloc())?;
    check_base_setup(&rt, &setup);
    drop(setup);
    Ok(())
}

fn check_copy(rt: &impl Abort, copy: &Setup) {
    assert!(rt; has_counts(copy, 4, 3));
    assert!(rt; is_cleared(copy, &ROOT));
    assert!(rt; are_cells(copy, &[(b"ann", b"memo", 5)]));
    assert!(rt; has_content(copy, b"memo", b"m1") && has_content(copy, b"note", b"n1"));
}

fn check_a_copy_is_the_same(rt: &impl Abort, setup: &Setup) -> Result<(), Fail> {
    let copy = setup.copy()?;
    check_copy(rt, &copy);
    drop(copy);
    Ok(())
}

#[test]
fn a_copy_is_the_same(rt: HostRuntime) -> Result<(), Fail> {
    let setup = base_setup_of(rt.alloc())?;
    let passed = check_a_copy_is_the_same(&rt, &setup);
    drop(setup);
    passed
}

/// The setup of the parts of this one.
fn of_its_parts(alloc: Global, setup: &Setup) -> Result<Setup, AllocError> {
    let mut contents = Vec::new(alloc);
    for content in setup.contents() {
        contents.push(content.share()?)?;
    }
    let policy = setup.policy().copy()?;
    let names = setup.names().copy()?;
    Ok(Setup::of(names, policy, contents))
}

/// What a setup was made of is given back: names, policy and contents.
#[test]
fn a_setup_of_its_parts(rt: HostRuntime) -> Result<(), Fail> {
    let setup = reserving_setup_of(rt.alloc())?;
    let made = of_its_parts(rt.alloc(), &setup);
    drop(setup);
    let made = made?;
    check_reserved(&rt, &made);
    drop(made);
    Ok(())
}

fn check_line_ends_and_skipped_lines(rt: &impl Abort, setup: &Setup) {
    let ann = Clearance {
        name: b"ann",
        greatest: (0, 0),
        current: (0, 0),
        trusted: false,
        admin: true,
    };
    assert!(rt; is_cleared(setup, &ann));
    assert!(rt; has_content(setup, b"note", b"n1"));
}

#[test]
fn line_ends_and_skipped_lines(rt: HostRuntime) -> Result<(), Fail> {
    let text =
        b"# who\r\n\r\nranks u\r\n \t\ncategories\r\n#\ndocument note u \"n1\"\r\nsubject ann greatest u current u admin\r";
    let setup = read_setup(rt.alloc(), text.as_slice())?;
    check_line_ends_and_skipped_lines(&rt, &setup);
    drop(setup);
    Ok(())
}

fn check_reserved(rt: &impl Abort, setup: &Setup) {
    assert!(rt; has_counts(setup, 4, 5));
    assert!(rt;
        is_document(setup, b"memo", (2, 1), true) && is_document(setup, b"log", (3, 3), true)
    );
    assert!(rt; is_document(setup, b"draft", (0, 0), false));
    assert!(rt; is_document(setup, b"top", (3, 0), false));
    assert!(rt; has_content(setup, b"draft", b"") && has_content(setup, b"top", b""));
    assert!(rt; are_cells(setup, &[(b"ann", b"draft", 1), (b"ann", b"top", 0)]));
}

/// A reserved document is declared, empty and not present, in a copy too.
#[test]
fn reserved_documents(rt: HostRuntime) -> Result<(), Fail> {
    let setup = reserving_setup_of(rt.alloc())?;
    check_reserved(&rt, &setup);
    let copy = setup.copy();
    drop(setup);
    let copy = copy?;
    check_reserved(&rt, &copy);
    drop(copy);
    Ok(())
}
