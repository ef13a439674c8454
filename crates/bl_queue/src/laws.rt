//! Laws of the definitions. Each function does nothing, and its contract is the law.
ghost use Rattle.std.specs.Prelude.{◌≡◌, ℕ, ◌<◌, IsTrue, List, length};
ghost use Rattle.bl_queue.specs.declared.claim.Claim.{Claim};
ghost use Rattle.bl_queue.specs.Claims.{conflict};
ghost use Rattle.bl_queue.specs.Counts.{CountsTell};
ghost use Rattle.bl_queue.specs.Queued.{IsKept, Roster};
ghost use Rattle.bl_queue.specs.Entries.{Entry, entry_at, is_ended, GoesOn};

/// Where an entry has not ended, some entry may start or runs: entries never all wait for one another.
pub fn something_goes_on()
    ensures { (entries : List Entry) (n : ℕ) → n < length entries → ¬ IsTrue (is_ended (entry_at entries n).stand) → GoesOn entries }
{}

/// Of two entries that conflict, each would wait for the other if that one came first.
pub fn conflicts_go_both_ways()
    ensures { (a b : List Claim) → conflict a b ≡ conflict b a }
{}

/// What the queues keep tells who may start: the count that is stored for an entry which has not ended is the number of its claims
/// that an earlier claim of the same cown, one that is not over, excludes; and the entries that wait and are listed as free are just
/// those that may start.
pub fn counts_tell_who_may_start()
    ensures { (cowns limit : ℕ) (roster : Roster) → IsKept cowns limit roster → CountsTell roster.entries roster.holders roster.front }
{}
