//! Where the connections of a thread came from, and whom they speak for, as the log has it.
ghost use Rattle.std.specs.Prelude.{◌≡◌};
ghost use Rattle.bl_entrance.specs.Calling.{calling_of, greeted_by, name_for};

use bl_policy::id::SubjectId;
use bl_work::names::Names;
use std::alloc::{AllocError, Global};
use std::marker::Model;
use std::str;

/// What stands in the log where memory was refused for a text.
const UNKNOWN: &str = "-";

/// A connection: its number, where it came from, and whether its session was opened.
#[derive(Drop)]
struct Caller {
    number: u32,
    from: String,
    greeted: bool,
}

impl Caller {
    /// The session of the connection with this number was opened.
    fn greet(&mut self, number: u32)
        ensures { calling_of self.new ≡ greeted_by number (calling_of self.old) }
    {
        if self.number == number {
            self.greeted = true;
        }
    }
}

/// Connections, in the order in which they came.
#[derive(Drop)]
pub struct Callers {
    callers: Vec<Caller>,
}

impl Model for Callers {
    ghost use Rattle.std.specs.Prelude.{List, map};
    ghost use Rattle.bl_entrance.specs.Calling.{Calling, calling_of};

    ghost Value = { List Calling };

    ghost view = { λ callers. map calling_of callers.callers.items };
}

impl Callers {
    ghost use Rattle.std.specs.Prelude.{◌<◌, ◌++◌, ◌∷◌, [], IfSome, OnErr, OnOk, false, length, string_bytes};
    ghost use Rattle.bl_entrance.specs.Calling.{from_at, greeted_at, greeted_from, place_of, without};

    /// None yet.
    pub fn new(alloc: Global) -> Callers
        ensures { result ≡ [] }
    {
        Callers {
            callers: Vec::new(alloc),
        }
    }

    /// Takes in a connection with this number, which came from there. An error comes where memory was refused, and then
    /// it is not there.
    pub fn add(&mut self, number: u32, from: String) -> Result<(), AllocError>
        ensures ok { OnOk result (self.new ≡ self.old
            ++ record { number = number; from = string_bytes from; greeted = false } ∷ []) }
        ensures err { OnErr result (self.new ≡ self.old) }
    {
        self.callers.push(Caller {
            number,
            from,
            greeted: false,
        })?;
        Ok(())
    }

    /// Where the connection with this number came from, `-` where that is not known.
    pub fn from(&self, number: u32) -> &str
        ensures { result.now ≡ from_at number self.now }
    {
        match self.place(number) {
            Some(i) => self.callers[i].from.as_str(),
            None => UNKNOWN,
        }
    }

    /// The session of the connection with this number was opened.
    pub fn greet(&mut self, number: u32)
        ensures { self.new ≡ greeted_from number self.old }
    {
        for caller in self.callers.iter_mut() {
            caller.greet(number);
        }
    }

    /// Whether the session of the connection with this number was opened.
    pub fn is_greeted(&self, number: u32) -> bool
        ensures { result ≡ greeted_at number self.now }
    {
        match self.place(number) {
            Some(i) => self.callers[i].greeted,
            None => false,
        }
    }

    /// The connection with this number is there no more.
    pub fn remove(&mut self, number: u32)
        ensures { self.new ≡ without number self.old }
    {
        if let Some(i) = self.place(number) {
            let _caller = self.callers.remove(i);
        }
    }

    /// Where the connection with this number stands.
    fn place(&self, number: u32) -> Option<usize>
        ensures place { result ≡ place_of number self.now }
        ensures within { IfSome result (λ i. i < length self.now) }
    {
        self.callers
            .iter()
            .position(|caller| caller.number == number)
    }
}

/// The name of a subject; `-` where these names have no such subject.
pub fn name_of(names: &Names, subject: SubjectId) -> &str
    ensures { result.now ≡ name_for names.now.subjects subject }
{
    if usize::from(subject.position()) >= names.subjects() {
        return UNKNOWN;
    }
    str::from_utf8(names.subject_name(subject).bytes()).unwrap_or(UNKNOWN)
}
