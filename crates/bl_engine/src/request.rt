//! What a conversation asks of the machine behind it.
use bl_policy::id::SubjectId;
use bl_work::work::Work;

/// What a conversation asks of the machine behind it. Requests are to be met in the order in which they come.
#[derive(Drop)]
pub enum Request {
    /// That the session be opened for this subject. The conversation waits until it is `opened`.
    Opens(SubjectId),
    /// That this work be admitted for the line with this ordinal, from 1 on. The conversation does not wait for it.
    Admits { ordinal: u32, work: Work },
    /// That each line of the block be answered. The conversation waits until it is `answered`.
    Settles,
}
