//! What is asked.

/// Who asks, carrying which level, and for what; and over which setup file.
#[derive(Clone, Copy)]
pub struct Question<'a> {
    /// The name of the setup file, as the explanation tells it.
    pub path: &'a str,
    /// The text of the level that is carried; `None` for the lowest one, as of a line.
    pub carried: Option<&'a str>,
    /// The name of the subject.
    pub subject: &'a str,
    /// The words of what it asks for: accesses as a `when` has them, or a rule.
    pub wish: &'a [&'a str],
}
