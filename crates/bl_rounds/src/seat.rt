//! The seats of a thread's connections: what each is to do next, or waits for.
ghost use Rattle.std.specs.Prelude.{◌≡◌, ◌≢◌, ◌<◌, ◌⊎◌, ◌↔◌, ℕ, IfNone, IfSome, IsTrue, false, true};
ghost use Rattle.std.specs.Prelude.{get_or, length, vec_len};
ghost use Rattle.std.specs.List.{All};
ghost use Rattle.bl_rounds.specs.Seats.{IsSilent, leaves, numbers, waits, who};

/// What a connection is to do next, or waits for.
#[derive(Clone, Copy, Debug, PartialEq, Eq)]
pub enum Stage {
    /// It may go on.
    Goes,
    /// It has asked something of the machine.
    Asks,
    /// It waits for entries to end: those of its session, or some whose end leaves room for its line in the trail.
    Waits,
    /// It waits for its stream.
    Sleeps,
    /// Its session is over, and it is to leave.
    Over,
    /// It has failed, or its line will never fit in the trail, and it is to leave.
    Failed,
}

impl Stage {
    /// Whether who is at it is to leave.
    pub(crate) fn leaves(self) -> bool
        ensures { result ≡ leaves self }
    {
        matches!(self, Stage::Over | Stage::Failed)
    }

    /// Whether who is at it waits, for its stream or for entries to end.
    pub(crate) fn waits(self) -> bool
        ensures { result ≡ waits self }
    {
        matches!(self, Stage::Waits | Stage::Sleeps)
    }
}

/// A connection's number, what it is to do next or waits for, when something was last sent or taken, and whether its
/// session was told of.
#[derive(Clone, Copy, Debug)]
pub struct Seat {
    pub(crate) number: u32,
    pub(crate) stage: Stage,
    pub(crate) moved: Option<u64>,
    pub(crate) greeted: bool,
}

impl Seat {
    /// When the connection has gone on last: now, if it just has, or was never looked after before.
    pub(crate) fn moved_at(self, goes: bool, now: u64) -> Option<u64>
        ensures { goes ≡ true → result ≡ Some now }
    {
        if goes {
            Some(now)
        } else {
            self.moved.or(Some(now))
        }
    }

    /// Whether it waits for its stream, by which nothing was sent or taken for so long.
    fn is_silent(self, now: u64, most: u64) -> bool
        ensures { IsTrue result ↔ IsSilent now most self }
    {
        match (self.stage, self.moved) {
            (Stage::Sleeps, Some(moved)) => now.saturating_sub(moved) >= most,
            _ => false,
        }
    }
}

/// Has a connection go to another stage, and notes when it has gone on last.
pub(crate) fn put_stage(seats: &mut Vec<Seat>, i: usize, stage: Stage, moved: Option<u64>)
    requires { i < vec_len seats.old }
    ensures here { (d : Seat) → get_or seats.new.items i d
        ≡ record (get_or seats.old.items i d) { stage = stage; moved = moved } }
    ensures others { (j : ℕ) (d : Seat) → j ≢ i → get_or seats.new.items j d ≡ get_or seats.old.items j d }
    ensures who { who seats.new.items ≡ who seats.old.items }
    ensures len { vec_len seats.new ≡ vec_len seats.old }
{
    let seat = seats[i];
    seats[i] = Seat {
        stage,
        moved,
        ..seat
    };
}

/// Notes that the session of a connection was told of.
pub(crate) fn put_told(seats: &mut Vec<Seat>, i: usize)
    requires { i < vec_len seats.old }
    ensures here { (d : Seat) → get_or seats.new.items i d ≡ record (get_or seats.old.items i d) { greeted = true } }
    ensures others { (j : ℕ) (d : Seat) → j ≢ i → get_or seats.new.items j d ≡ get_or seats.old.items j d }
    ensures numbers { numbers seats.new.items ≡ numbers seats.old.items }
    ensures len { vec_len seats.new ≡ vec_len seats.old }
{
    let greeted = true;
    let seat = seats[i];
    seats[i] = Seat { greeted, ..seat };
}

/// Has a connection go on, if it waits for its stream.
pub(crate) fn stir_one(seats: &mut Vec<Seat>, i: usize)
    requires { i < vec_len seats.old }
    ensures awake { (d : Seat) → (get_or seats.new.items i d).stage ≢ Stage.Sleeps }
    ensures stage { (d : Seat) → ((get_or seats.new.items i d).stage ≡ (get_or seats.old.items i d).stage)
        ⊎ ((get_or seats.new.items i d).stage ≡ Stage.Goes) }
    ensures others { (j : ℕ) (d : Seat) → j ≢ i → get_or seats.new.items j d ≡ get_or seats.old.items j d }
    ensures who { who seats.new.items ≡ who seats.old.items }
    ensures len { vec_len seats.new ≡ vec_len seats.old }
{
    let seat = seats[i];
    match seat.stage {
        Stage::Sleeps => put_stage(seats, i, Stage::Goes, seat.moved),
        Stage::Goes | Stage::Asks | Stage::Waits | Stage::Over | Stage::Failed => {}
    }
}

/// Has each connection go on that waits for its stream.
pub(crate) fn stir_each(seats: &mut Vec<Seat>)
    ensures awake { All (λ (seat : Seat). seat.stage ≢ Stage.Sleeps) seats.new.items }
    ensures stage { (j : ℕ) (d : Seat) → ((get_or seats.new.items j d).stage ≡ (get_or seats.old.items j d).stage)
        ⊎ ((get_or seats.new.items j d).stage ≡ Stage.Goes) }
    ensures who { who seats.new.items ≡ who seats.old.items }
    ensures len { vec_len seats.new ≡ vec_len seats.old }
{
    for i in 0..seats.len() {
        stir_one(seats, i);
    }
}

/// Whether a connection is in this stage.
pub(crate) fn has(seats: &[Seat], stage: Stage) -> bool
    ensures { result ≡ false → (i : ℕ) (d : Seat) → i < length seats.now → (get_or seats.now i d).stage ≢ stage }
{
    for i in 0..seats.len() {
        if seats[i].stage == stage {
            return true;
        }
    }
    false
}

/// Whether each connection waits.
pub(crate) fn all_wait(seats: &[Seat]) -> bool
    ensures { result ≡ true → All (λ (seat : Seat). waits seat.stage ≡ true) seats.now }
{
    for i in 0..seats.len() {
        if !seats[i].stage.waits() {
            return false;
        }
    }
    true
}

/// The place of a connection that waits for its stream, by which nothing was sent or taken for so long.
pub(crate) fn silent_one(seats: &[Seat], now: u64, most: u64) -> Option<usize>
    ensures some { IfSome result (λ i. (i < length seats.now)
        × ((d : Seat) → IsSilent now most (get_or seats.now i d))) }
    ensures none { IfNone result (All (λ (seat : Seat). ¬ IsSilent now most seat) seats.now) }
{
    for i in 0..seats.len() {
        if seats[i].is_silent(now, most) {
            return Some(i);
        }
    }
    None
}

/// The place of a connection that is to leave.
pub(crate) fn leaver(seats: &[Seat]) -> Option<usize>
    ensures some { IfSome result (λ i. (i < length seats.now)
        × ((d : Seat) → leaves (get_or seats.now i d).stage ≡ true)) }
    ensures none { IfNone result (All (λ (seat : Seat). leaves seat.stage ≡ false) seats.now) }
{
    for i in 0..seats.len() {
        if seats[i].stage.leaves() {
            return Some(i);
        }
    }
    None
}
