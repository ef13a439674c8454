//! What is heard of who comes by a door.
ghost use Rattle.std.specs.Prelude.{◌≡◌, ℕ, List, Some, string_bytes};
ghost use Rattle.bl_name.specs.Table.{IsTable, place_of};
ghost use Rattle.bl_work.specs.Names.{KnownNames};
ghost use Rattle.bl_doors.specs.Greetings.{SpeaksFor};
ghost use Rattle.bl_doors.specs.Places.{subject_of_door};
ghost use Rattle.bl_doors.specs.declared.place.Place.{Place};

use bl_name::laws::canonical_reads_again;
use bl_read::line::one_answer;

/// Whatever a client says, the first line that is heard of it opens a session for the subject of the name by which it
/// was greeted: of who comes by a door for the subject of that door.
pub fn a_greeting_speaks_for_its_subject()
    ensures name { (names : KnownNames) (name : List ℕ) (subject : ℕ) → IsTable names.subjects
        → place_of name names.subjects ≡ Some subject → SpeaksFor names name subject }
    ensures door { (names : KnownNames) (place : Place) (subject : ℕ) → IsTable names.subjects
        → subject_of_door names place ≡ Some subject → SpeaksFor names (string_bytes place.name) subject }
{
    canonical_reads_again();
    one_answer();
}
