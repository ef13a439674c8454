//! What is asked of an event.

/// Of which event the decision is asked.
#[derive(Clone, Copy)]
pub struct EventQuestion<'a> {
    /// The name of the setup file, as the explanation tells it.
    pub path: &'a str,
    /// The number of the event, from 1.
    pub event: u64,
}
