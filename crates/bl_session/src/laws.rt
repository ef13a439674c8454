//! What holds of a session with one worker, whatever its input.
ghost use Rattle.std.specs.Prelude.{ℕ, ◌<◌, ◌^◌, All, List, length};
ghost use Rattle.std.specs.Io.KnownBytes.{Appends};
ghost use Rattle.bl_session.specs.One.{Fate, one};
ghost use Rattle.bl_session.specs.OneTrail.{IsOneTrail};
ghost use Rattle.bl_session.specs.Outcome.{IsCutShort, IsServed};
ghost use Rattle.bl_session.specs.Transcript.{transcript};
ghost use Rattle.bl_session.specs.Transcripts.{IsTranscript};
ghost use Rattle.bl_setup.specs.Agreement.{Agree};
ghost use Rattle.bl_setup.specs.Setup.{Setup};
ghost use Rattle.bl_wire.specs.Turns.{StandsIn};
ghost use Rattle.bl_wire.specs.Watch.{Use};
ghost use Rattle.bl_wire.specs.declared.fault.SessionFault.{SessionFault};
ghost use Rattle.bl_wire.specs.declared.turn.Turn.{Turn};

use bl_order::laws::{each_state_holds, headline, steps_lead_on, the_order_has_room};

/// The events of one session and one worker are a trail, whatever becomes of its places, so that the headline holds at
/// every moment of what `serve_alone` runs, and at its end every place has ended: of any turns that lines are, of those
/// that were served, and of those that were heard before a fault.
pub fn one_is_a_trail()
    ensures turns { (setup : Setup) (limit : ℕ) (fate : ℕ → Fate) (turns : List Turn) → Agree setup →
        All (StandsIn setup.names) turns → length turns < 2 ^ 32 → IsOneTrail setup limit fate turns }
    ensures served { (setup : Setup) (limit : ℕ) (reader writer : Use) → Agree setup →
        (served : IsServed setup limit reader writer) → IsOneTrail setup limit served.fate served.turns }
    ensures cut { (setup : Setup) (limit : ℕ) (fault : SessionFault) (reader writer : Use) → Agree setup →
        (cut : IsCutShort setup limit fault reader writer) → IsOneTrail setup limit cut.fate cut.heard }
{
    headline();
    each_state_holds();
    steps_lead_on();
    the_order_has_room();
}

/// What one worker writes is a transcript by its trail, in which it is session 0: of any turns, and of those that were
/// served, whose transcript is what was written.
pub fn what_is_written_is_a_transcript()
    ensures turns { (setup : Setup) (limit : ℕ) (fate : ℕ → Fate) (turns : List Turn) →
        IsTranscript setup limit (one setup limit fate turns) 0 turns (transcript setup limit fate turns) }
    ensures served { (setup : Setup) (limit : ℕ) (reader writer : Use) →
        (served : IsServed setup limit reader writer) → (text : List ℕ) × Appends writer.before writer.after text ×
        IsTranscript setup limit (one setup limit served.fate served.turns) 0 served.turns text }
{}
