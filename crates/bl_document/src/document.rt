//! Shared bytes of a content. Who looks at a content holds one more owner of the same bytes, and nobody copies them.
ghost use Rattle.std.specs.Prelude.{◌≡◌, ◌+◌, ◌^◌, ◌<◌, ◌≤◌, ◌++◌, take, length, IfOk, OnOk, OnErr, IsTrue};
ghost use Rattle.std.specs.Arc.{arc_value};
ghost use Rattle.std.specs.List.{list_all};
ghost use Rattle.bl_document.specs.Content.{IsContent, is_content_byte, added};

use std::alloc::{AllocError, Global};
use std::marker::Model;
use std::sync::Arc;

/// How many bytes a content has at most.
pub const MOST_BYTES: usize = 65_536;

/// The bytes of a content: at most 65,536, each printable ASCII other than `"` and `\`.
/// Two documents are equal where their bytes are.
#[derive(Drop)]
pub struct Document {
    /// The content is the front of these bytes: what stands after it was cut off, for this owner alone.
    bytes: Arc<Vec<u8>, Global>,
    /// The length of the content.
    len: usize,
}

impl Model for Document {
    ghost use Rattle.std.specs.Prelude.{List, ℕ, take};
    ghost use Rattle.std.specs.Arc.{arc_value};
    ghost use Rattle.bl_document.specs.Content.{HasContent};

    ghost Value = { List ℕ };

    ghost view = { λ d. take d.len (arc_value d.bytes).items };

    ghost invariant = { λ d. HasContent d.len (arc_value d.bytes).items };
}

impl Document {
    /// A document of these bytes, of which it keeps a copy.
    pub fn new(alloc: Global, bytes: &[u8]) -> Result<Document, AllocError>
        requires { IsContent bytes.now }
        ensures { IfOk result (λ d. d ≡ bytes.now) }
    {
        let kept = bytes.to_vec(alloc)?;
        match Arc::new(alloc, kept) {
            Ok(kept) => Ok(Document {
                bytes: kept,
                len: bytes.len(),
            }),
            Err(_) => Err(AllocError),
        }
    }

    /// One more owner of the same bytes.
    pub fn share(&self) -> Result<Document, AllocError>
        ensures { IfOk result (λ d. d ≡ self.now) }
    {
        Ok(Document {
            bytes: Arc::try_clone(&self.bytes)?,
            len: self.len,
        })
    }

    /// Adds the text at the end, cut at 65,536 bytes. The bytes are written in place where this is their only owner, and
    /// otherwise copied first, so that other owners keep what they have. After an error the document is as before.
    pub fn add(&mut self, alloc: Global, text: &[u8]) -> Result<(), AllocError>
        requires { IsTrue (list_all is_content_byte text.now) }
        ensures ok { OnOk result (self.new ≡ added self.old text.now) }
        ensures err { OnErr result (self.new ≡ self.old) }
    {
        let room = MOST_BYTES - self.len;
        let kept = &text[..room.min(text.len())];
        if let Some(bytes) = Arc::get_mut(&mut self.bytes) {
            extend(bytes, self.len, kept)?;
            self.len += kept.len();
            return Ok(());
        }
        self.bytes = joined(alloc, &self.bytes.as_slice()[..self.len], kept)?;
        self.len += kept.len();
        Ok(())
    }

    /// Keeps so many bytes at the front, or all where there are no more. It takes no memory, and other owners keep what they
    /// have.
    pub fn truncate(&mut self, len: usize)
        ensures { self.new ≡ take len self.old }
    {
        self.len = self.len.min(len);
    }

    /// The bytes.
    pub fn bytes(&self) -> &[u8]
        ensures value { result.now ≡ self.now }
        ensures content { IsContent self.now }
    {
        &self.bytes.as_slice()[..self.len]
    }
}

/// Writes the text behind the first bytes, so many. After an error these stand alone.
fn extend(bytes: &mut Vec<u8>, len: usize, text: &[u8]) -> Result<(), AllocError>
    ensures ok { OnOk result (bytes.new.items ≡ take len bytes.old.items ++ text.now) }
    ensures err { OnErr result (bytes.new.items ≡ take len bytes.old.items) }
{
    bytes.truncate(len);
    bytes.extend_from_slice(text)
}

/// New shared bytes: those of the front, and then those of the back.
fn joined(alloc: Global, front: &[u8], back: &[u8]) -> Result<Arc<Vec<u8>, Global>, AllocError>
    requires { length front.now + length back.now < 2 ^ 64 }
    ensures { IfOk result (λ bytes. (arc_value bytes).items ≡ front.now ++ back.now) }
{
    let mut bytes = Vec::with_capacity(alloc, front.len() + back.len())?;
    bytes.extend_from_slice(front)?;
    bytes.extend_from_slice(back)?;
    match Arc::new(alloc, bytes) {
        Ok(bytes) => Ok(bytes),
        Err(_) => Err(AllocError),
    }
}

impl PartialEq for Document {
    ghost use Rattle.std.specs.Cmp.{partial_equiv_from_equiv};
    ghost use Rattle.std.specs.Cmp.Lexicographic.{nat_list_eq_equiv};
    ghost use Rattle.std.specs.Str.{bytes_eq};

    ghost eq = { bytes_eq };

    ghost laws = { partial_equiv_from_equiv nat_list_eq_equiv };

    fn eq(&self, other: &Document) -> bool {
        self.bytes() == other.bytes()
    }
}

impl Eq for Document {
    ghost use Rattle.std.specs.Cmp.Lexicographic.{nat_list_eq_equiv};

    ghost laws = { nat_list_eq_equiv };
}
