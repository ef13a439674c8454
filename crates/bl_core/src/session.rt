//! Sessions of a core.
pub use bl_place::session::SessionNo;
use bl_policy::id::SubjectId;

/// A session: for whom it speaks, and the greatest ordinal that it has given, 0 at first.
#[derive(Drop)]
pub(crate) struct Session {
    pub(crate) subject: SubjectId,
    pub(crate) last: u32,
}
