//! How a file of the system stands, for clauses alone: no memory holds it.
ghost use Rattle.std.specs.Prelude.{◌≡◌, ℕ, List, [], ◌∷◌, ◌++◌, map};
ghost use Rattle.std.specs.Borrow.{ftrue};
ghost use Rattle.bl_disk.specs.File.{all_kept, synced};
ghost use Rattle.bl_file.specs.Outlived.{outlives};
ghost use Rattle.bl_file.specs.Stands.{added, cut_to, file_of};

use crate::answered::{Added, Shortened};
use crate::held::Held;
use crate::kept::Kept;
use std::marker::{Model, PhantomData};

/// How a file of the system stands, and stood at each moment before. Each method is called once the call of the system has answered that
/// it names; that the file is then so, no clause can say.
#[derive(Drop)]
pub(crate) struct Stand {
    marker: PhantomData<u8>,
    pub ghost kept: { List ℕ },
    pub ghost loose: { List ℕ },
    pub ghost past: { List (List ℕ × List ℕ) },
}

impl Model for Stand {
    ghost also_owns = { λ _. ftrue };
}

impl Stand {
    /// A file that was found with these bytes, all of them kept.
    pub(crate) fn found(_bytes: &[u8]) -> Stand
        ensures { (file_of (result.kept, result.loose) ≡ all_kept _bytes.now) × (result.past ≡ []) }
    {
        Stand {
            marker: PhantomData,
        }
    }

    /// The system took this at the end.
    pub(crate) fn took(&mut self, addition: &Added<'_>)
        ensures now { file_of (self.new.kept, self.new.loose)
            ≡ added (file_of (self.old.kept, self.old.loose)) addition.now.bytes.now }
        ensures past { map file_of self.new.past
            ≡ map file_of self.old.past ++ file_of (self.old.kept, self.old.loose) ∷ [] }
    {
        self.added(addition.bytes());
    }

    /// The system cut the file so.
    pub(crate) fn was_cut(&mut self, shortened: &Shortened)
        ensures now { file_of (self.new.kept, self.new.loose)
            ≡ cut_to shortened.now.len (file_of (self.old.kept, self.old.loose)) }
        ensures past { map file_of self.new.past
            ≡ map file_of self.old.past ++ file_of (self.old.kept, self.old.loose) ∷ [] }
    {
        self.cut(shortened.len());
    }

    /// These bytes were added.
    fn added(&mut self, _text: &[u8])
        ensures { (file_of (self.new.kept, self.new.loose) ≡ added (file_of (self.old.kept, self.old.loose)) _text.now)
            × (map file_of self.new.past ≡ map file_of self.old.past ++ file_of (self.old.kept, self.old.loose) ∷ []) }
    {}

    /// The file was cut to so many bytes.
    fn cut(&mut self, _len: usize)
        ensures { (file_of (self.new.kept, self.new.loose) ≡ cut_to _len (file_of (self.old.kept, self.old.loose)))
            × (map file_of self.new.past ≡ map file_of self.old.past ++ file_of (self.old.kept, self.old.loose) ∷ []) }
    {}

    /// All that was handed over is kept, and outlives what it is to, as this shows.
    pub(crate) fn kept<F>(&mut self, _kept: &Kept, _held: &Held<F>)
        requires { outlives _kept.now ≡ _held.now.keeping }
        ensures now { file_of (self.new.kept, self.new.loose) ≡ synced (file_of (self.old.kept, self.old.loose)) }
        ensures past { map file_of self.new.past
            ≡ map file_of self.old.past ++ file_of (self.old.kept, self.old.loose) ∷ [] }
    {
        self.synced();
    }

    /// All that was handed over is kept.
    fn synced(&mut self)
        ensures { (file_of (self.new.kept, self.new.loose) ≡ synced (file_of (self.old.kept, self.old.loose)))
            × (map file_of self.new.past ≡ map file_of self.old.past ++ file_of (self.old.kept, self.old.loose) ∷ []) }
    {}
}
