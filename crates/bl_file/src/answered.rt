//! What shows that the system has added to a file, or has cut it: its answer alone makes such a value.
ghost use Rattle.std.specs.Prelude.{◌≡◌, IfOk};
ghost use Rattle.std.specs.Io.KnownBytes.{Appends};
ghost use Rattle.bl_disk.specs.File.{Begins};

use std::fs::OpenFile;
use std::io;
use std::io::Write;

/// What the system took at the end of a file. Only `add` makes one.
#[derive(Clone, Copy, Debug)]
pub(crate) struct Added<'a> {
    bytes: &'a [u8],
}

impl<'a> Added<'a> {
    /// The bytes that it took.
    pub(crate) fn bytes(&self) -> &'a [u8]
        ensures { result.now ≡ self.now.bytes.now }
    {
        self.bytes
    }
}

/// Adds a text at the end of a file: the system takes a first part of it, or all.
pub(crate) fn add<'a, F: Write>(file: &mut F, text: &'a [u8]) -> io::Result<Added<'a>>
    ensures part { IfOk result (λ added. Begins added.bytes.now text.now) }
    ensures took { IfOk result (λ added. Appends (F.contents file.old) (F.contents file.new) added.bytes.now) }
{
    let len = file.write(text)?;
    Ok(Added {
        bytes: &text[..len],
    })
}

/// To how many bytes the system has cut a file. Only `shorten` makes one.
#[derive(Clone, Copy, Debug)]
pub(crate) struct Shortened {
    len: usize,
}

impl Shortened {
    /// So many bytes it has.
    pub(crate) fn len(&self) -> usize
        ensures { result ≡ self.now.len }
    {
        self.len
    }
}

/// Cuts a file to so many bytes.
pub(crate) fn shorten<F: OpenFile>(file: &F, len: usize) -> io::Result<Shortened>
    ensures { IfOk result (λ shortened. shortened.len ≡ len) }
{
    file.set_len(len as u64)?;
    Ok(Shortened { len })
}
