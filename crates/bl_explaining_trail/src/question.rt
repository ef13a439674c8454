//! What is asked over a trail.
use bl_question::question::Question;

/// What is asked where a trail leads.
#[derive(Clone, Copy)]
pub struct TrailQuestion<'a> {
    /// Who asks, carrying which level, and for what.
    pub question: Question<'a>,
    /// How many of the trail's first events have happened there; `None` for all of them.
    pub at: Option<u64>,
}
