//! What holds of each connection, whoever owns it.
ghost use Rattle.std.specs.Prelude.{◌≤◌, ℕ, List};
ghost use Rattle.bl_work.specs.Names.{KnownNames};
ghost use Rattle.bl_engine.specs.Driving.{Exchange};
ghost use Rattle.bl_engine.specs.Requests.{SameUpTo};
ghost use Rattle.bl_engine.specs.declared.conversation.Opening.{Opening};
ghost use Rattle.bl_connection.specs.Connections.{Answers, IsConnected};
ghost use Rattle.bl_connection.specs.declared.connection.Connection.{Connection};

use crate::stream::Stream;

/// Where more was answered, all that went through a stream is still the exchange that it was.
pub fn what_was_answered_stands<S: Stream>()
    ensures { (names : KnownNames) (opening : Opening) (before after : ℕ → List ℕ) (upto more : ℕ) (left : ℕ → List ℕ)
        (conn : Connection S) (x : Exchange)
        → upto ≤ more → SameUpTo upto before after
        → IsConnected S.remaining S.contents names (Answers opening before upto) left conn x
        → IsConnected S.remaining S.contents names (Answers opening after more) left conn x }
{}
