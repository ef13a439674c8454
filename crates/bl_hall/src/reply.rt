//! What is told to a session.
use bl_work::answer::Answer;
use bl_work::few::Few;
use std::alloc::AllocError;

/// The answer of an entry under its label: the ordinal of its line, and the child numbers from there down to the entry,
/// each from 1.
#[derive(Drop)]
pub struct Reply {
    pub label: Few<u32>,
    pub answer: Answer,
}

/// Why a session is not answered.
#[derive(Clone, Copy, Debug, PartialEq, Eq)]
pub enum AnswersFault {
    /// The session is not open.
    Session,
    /// A growth was refused.
    Memory,
}
