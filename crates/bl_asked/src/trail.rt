//! Where a trail is kept.

/// Where a trail is kept.
#[derive(Clone, Copy, Debug, PartialEq, Eq)]
pub struct TrailFile<'a> {
    /// The name that the file is to have.
    pub name: &'a str,
    /// Whether a trail that stands under the name may be replaced.
    pub replaces: bool,
    /// Whether the file is made before the first session, so that a trail that cannot be kept is told then.
    pub claims: bool,
}
