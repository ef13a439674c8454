//! What holds of each conversation, whoever drives it.
ghost use Rattle.std.specs.Prelude.{ℕ, List};
ghost use Rattle.bl_work.specs.Names.{KnownNames};
ghost use Rattle.bl_wire.specs.declared.turn.Turn.{Turn};
ghost use Rattle.bl_engine.specs.Requests.{Request};
ghost use Rattle.bl_engine.specs.Conversations.{AnswersAllAtTheEnd, Given, IsSoFar, Spoke};
ghost use Rattle.bl_engine.specs.declared.conversation.Conversation.{Conversation};

/// Once a conversation waits for nothing, what was said is the text of the lines that were heard, and what was asked is
/// what they ask.
pub fn at_the_end_all_was_said()
    ensures { AnswersAllAtTheEnd }
{}

/// At each moment what was said begins the text of the lines that were heard, and each block that was told is whole,
/// but perhaps one that the last line closes. So where a driver stops after a fault, no line that was heard is left out
/// of what it owes.
pub fn at_each_moment_it_begins()
    ensures { (names : KnownNames) (given : Given) (left : ℕ → List ℕ) (conv : Conversation) (turns : List Turn)
        (asked : List Request) (heard said : List ℕ) → Spoke names given left conv turns asked heard said
        → IsSoFar given conv turns asked said }
{}
