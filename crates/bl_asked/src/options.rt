//! How many threads there are, how many sessions they take, how many at once, how long one may be idle, and how long
//! the trail may become.
ghost use Rattle.std.specs.Prelude.{◌≤◌};
ghost use Rattle.std.specs.Option.{ForSome};

/// How many workers and how many session threads there are, at most 16 of each, how many connections are taken in all,
/// how many are open at once, 1 at least, after how many seconds, 1 to 86,400, a session ends that sends nothing or
/// takes nothing, if it does, and how many bytes the trail may have, 65,536 to 1,073,741,824.
#[derive(Clone, Copy, Debug)]
pub struct Options {
    pub workers: u32,
    pub session_threads: u32,
    pub sessions: u32,
    pub clients: u32,
    pub idle: Option<u32>,
    pub trail_limit: u32,
    pub ghost few: { (workers ≤ 16) × (session_threads ≤ 16) },
    pub ghost some: { 1 ≤ clients },
    pub ghost waits: { ForSome idle (λ seconds. (1 ≤ seconds) × (seconds ≤ 86400)) },
    pub ghost bounded: { (65536 ≤ trail_limit) × (trail_limit ≤ 1073741824) },
}
