//! What holds of a hall's trail, whoever adds to it.
ghost use Rattle.std.specs.Prelude.{◌≡◌, ℕ, ◌+◌, ◌++◌, length};
ghost use Rattle.bl_order.specs.Headline.{IsReached};
ghost use Rattle.bl_order.specs.Machine.{Event, Needs, State, change};
ghost use Rattle.bl_order.specs.Labels.{replies_to};
ghost use Rattle.bl_hall.specs.Chronicle.{Chronicle, HasTrail, state_now, with_event};
ghost use Rattle.bl_hall.specs.Told.{AreInOrder, replies_above};

/// One event more leads on by its change, and keeps a trail a trail where it may come next; and a trail leads to the
/// state.
pub fn events_lead_on()
    ensures change { (h : Chronicle) (event : Event) → state_now (with_event h event) ≡ change (state_now h) event }
    ensures trail { (h : Chronicle) (event : Event) → HasTrail h → Needs (state_now h) event
        → HasTrail (with_event h event) }
    ensures reached { (h : Chronicle) → HasTrail h → IsReached (state_now h) }
{}

/// The replies above an ordinal are those to the next one, and then those above it: so they go line by line.
pub fn replies_go_by_lines()
    ensures { (x : State) (session after : ℕ) → replies_above x session after (length x.order)
        ≡ replies_to x session (after + 1) (length x.order) ++ replies_above x session (after + 1) (length x.order) }
{}

/// The replies above an ordinal stand in numeric order of their labels, each once, in each state that a trail leads to.
pub fn replies_stand_in_order()
    ensures { (x : State) (session after : ℕ) → IsReached x
        → AreInOrder x session after (replies_above x session after (length x.order)) }
{}
