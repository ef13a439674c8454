//! A table of names.
use bl_level::name::Name;
use bl_level::table::{NameTable, TableFault, table_of};
use std::alloc::Global;
use std::process::Abort;

/// What is done to a table or asked of it, and what it has to say.
#[derive(Clone, Copy)]
enum Step {
    /// The name is added.
    Adds(&'static [u8]),
    /// The name is there already, and is not added.
    Repeats(&'static [u8]),
    /// The table has so many names.
    Has(usize),
    /// The name is at this place.
    At(&'static [u8], usize),
    /// There is no such name.
    Nowhere(&'static [u8]),
}

fn adds(table: &mut NameTable, word: &[u8]) -> bool {
    match Name::new(word) {
        Some(name) => table.add(name).is_ok(),
        None => false,
    }
}

fn repeats(table: &mut NameTable, word: &[u8]) -> bool {
    match Name::new(word) {
        Some(name) => table.add(name.copy()) == Err(TableFault::Repeated(name)),
        None => false,
    }
}

/// Whether the name is at this place, asked by the name, by its bytes and by the place.
fn is_at(table: &NameTable, word: &[u8], place: usize) -> bool {
    let by_name = match Name::new(word) {
        Some(name) => table.position(&name),
        None => None,
    };
    let by_place = match table.get(place) {
        Some(found) => found.bytes() == word,
        None => false,
    };
    by_name == Some(place) && table.position_of(word) == Some(place) && by_place
}

fn stands(table: &mut NameTable, step: &Step) -> bool {
    match *step {
        Step::Adds(word) => adds(table, word),
        Step::Repeats(word) => repeats(table, word),
        Step::Has(count) => table.len() == count && table.is_empty() == (count == 0),
        Step::At(word, place) => is_at(table, word, place),
        Step::Nowhere(word) => table.position_of(word).is_none(),
    }
}

fn assert_steps(rt: &impl Abort, table: &mut NameTable, steps: &[Step]) {
    for (n, step) in steps.iter().enumerate() {
        assert!(rt; stands(table, step), "step {n}");
    }
}

fn assert_steps_of_copy(rt: &impl Abort, table: &NameTable, steps: &[Step]) {
    match table.copy() {
        Ok(mut copy) => {
            assert_steps(rt, &mut copy, steps);
            drop(copy);
        }
        Err(_) => panic!(rt; "no copy"),
    }
}

const OF_TABLE: &[Step] = &[
    Step::Has(0),
    Step::Adds(b"memo"),
    Step::Repeats(b"memo"),
    Step::Adds(b"note"),
    Step::Has(2),
    Step::At(b"memo", 0),
    Step::At(b"note", 1),
    Step::Nowhere(b"Note"),
];

const OF_COPY: &[Step] = &[Step::Adds(b"log"), Step::Has(3), Step::At(b"note", 1)];

const OF_TABLE_AGAIN: &[Step] = &[Step::Has(2), Step::Nowhere(b"log")];

/// Whether no table is made of a name twice.
fn is_no_table(alloc: Global, word: &[u8]) -> bool {
    match Name::new(word) {
        Some(name) => {
            let twice = [name.copy(), name.copy()];
            table_of(alloc, &twice).err() == Some(TableFault::Repeated(name))
        }
        None => false,
    }
}

#[test]
fn names_are_added_once(rt: HostRuntime) {
    assert!(rt; is_no_table(rt.alloc(), b"memo"));
    match NameTable::with_room(rt.alloc(), 1) {
        Ok(mut table) => {
            assert_steps(&rt, &mut table, OF_TABLE);
            assert_steps_of_copy(&rt, &table, OF_COPY);
            assert_steps(&rt, &mut table, OF_TABLE_AGAIN);
            drop(table);
        }
        Err(_) => panic!(rt; "no table"),
    }
}
