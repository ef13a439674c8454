//! Of which runs a file of some kind stands in a folder.
ghost use Rattle.std.specs.Prelude.{◌≡◌, ◌≤◌, ◌+◌, min, max, MatchOption};

/// Of which runs a file of some kind stands in a folder: the lowest and the highest, and how many there are.
#[derive(Clone, Copy, Debug, PartialEq, Eq)]
pub struct RunSpan {
    /// The lowest run.
    pub first: u32,
    /// The highest run.
    pub last: u32,
    /// How many runs.
    pub count: u32,
}

/// With one run more, which was not among them.
pub fn with_run(span: Option<RunSpan>, run: u32) -> RunSpan
    ensures first { MatchOption span (result.first ≡ run) (λ span. result.first ≡ min span.first run) }
    ensures last { MatchOption span (result.last ≡ run) (λ span. result.last ≡ max span.last run) }
    ensures count { MatchOption span (result.count ≡ 1) (λ span. result.count ≡ min (span.count + 1) 4294967295) }
{
    match span {
        None => RunSpan {
            first: run,
            last: run,
            count: 1,
        },
        Some(span) => RunSpan {
            first: span.first.min(run),
            last: span.last.max(run),
            count: span.count.saturating_add(1),
        },
    }
}
