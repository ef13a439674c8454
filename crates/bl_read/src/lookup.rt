//! The documents of the accesses of a `when`, looked up once. A name in its statements is sought among them first.
ghost use Rattle.std.specs.Prelude.{◌≡◌, ◌<◌, ◌∷◌, map, length};
ghost use Rattle.bl_work.specs.Meaning.{document_of as place_of_name, access_of as spelled_access};
ghost use Rattle.bl_syntax.specs.RawBodies.{raw_access};

use bl_policy::access::Access;
use bl_policy::id::DocId;
use bl_syntax::raw::RawAccess;
use bl_work::accesses::{Accesses, MOST_ACCESSES};
use bl_work::names::Names;

/// The accesses of a `when`, as they were read and as they are declared.
#[derive(Drop)]
pub(crate) struct Lookup<'a> {
    pub(crate) names: &'a Names,
    first: RawAccess<'a>,
    more: &'a [RawAccess<'a>],
    accesses: Accesses,
    ghost looked_up: { accesses ≡ map (spelled_access names.now) (raw_access first ∷ map raw_access more.now) },
}

/// The document of this name. Of a name that is no document's nothing is asked.
fn document_of(names: &Names, name: &[u8]) -> DocId
    ensures { result ≡ place_of_name names.now name.now }
{
    names.document(name).unwrap_or(DocId::new(0))
}

/// The access, its document looked up.
fn access_of(names: &Names, access: RawAccess<'_>) -> Access
    ensures { result ≡ spelled_access names.now (raw_access access.entry) }
{
    Access {
        mode: access.mode,
        doc: document_of(names, access.document),
    }
}

/// The accesses of a `when`, in order.
fn accesses_of(names: &Names, first: RawAccess<'_>, more: &[RawAccess<'_>]) -> Accesses
    requires { length more.now < MOST_ACCESSES }
    ensures { result ≡ map (spelled_access names.now) (raw_access first.entry ∷ map raw_access more.now) }
{
    let mut accesses = Accesses::new(access_of(names, first));
    for access in more {
        accesses.push(access_of(names, *access));
    }
    accesses
}

impl<'a> Lookup<'a> {
    /// Looks up the document of each access.
    pub(crate) fn new(
        names: &'a Names,
        first: RawAccess<'a>,
        more: &'a [RawAccess<'a>],
    ) -> Lookup<'a>
        requires { length more.now < MOST_ACCESSES }
        ensures names { result.names.now ≡ names.now }
        ensures accesses { result.accesses ≡ map (spelled_access names.now)
            (raw_access first.entry ∷ map raw_access more.now) }
    {
        Lookup::over(names, first, more, accesses_of(names, first, more))
    }

    /// These accesses, whose documents were looked up before.
    pub(crate) fn over(
        names: &'a Names,
        first: RawAccess<'a>,
        more: &'a [RawAccess<'a>],
        accesses: Accesses,
    ) -> Lookup<'a>
        requires { accesses ≡ map (spelled_access names.now) (raw_access first ∷ map raw_access more.now) }
        ensures names { result.names.now ≡ names.now }
        ensures accesses { result.accesses ≡ accesses }
    {
        Lookup {
            names,
            first,
            more,
            accesses,
        }
    }

    /// The accesses, in order.
    pub(crate) fn into_accesses(self) -> Accesses
        ensures { result ≡ self.entry.accesses }
    {
        self.accesses
    }

    /// The document of a name, which most often is that of an access. Of a name that is no document's nothing is asked.
    pub(crate) fn document(&self, name: &[u8]) -> DocId
        ensures { result ≡ place_of_name self.now.names.now name.now }
    {
        if self.first.document == name {
            return self.accesses.as_slice()[0].doc;
        }
        for (i, access) in self.more.iter().enumerate() {
            if access.document == name {
                return self.accesses.as_slice()[i + 1].doc;
            }
        }
        document_of(self.names, name)
    }
}
