//! Who speaks for a session, over all that happened behind a gate; and sessions that share a pass.
ghost use Rattle.std.specs.Prelude.{◌≢◌, ℕ, List, set};
ghost use Rattle.bl_work.specs.Names.{KnownNames};
ghost use Rattle.bl_gate.specs.Gates.{PassView};
ghost use Rattle.bl_serve.specs.Courses.{AdmitsNoLineOf, Course, IsCourse, SpeaksForItsOwn};
ghost use Rattle.bl_serve.specs.Together.{AreOnCourse, GoesOnTo, SpeaksForNoOther, Standing};
ghost use Rattle.bl_serve.specs.Together.{OneGoesOn, OpensSession, StayOnCourse, StaysOnCourse, with_opened};
ghost use Rattle.bl_serve.specs.Speakers.{HasMet, IsShare, IsSharedOut, gained_since};
ghost use Rattle.bl_serve.specs.Speakers.{IsOneOf, LinesStandWithOpenings, SpeaksAloneForOpened};
ghost use Rattle.bl_worker.specs.Turns.{AdmitsNoLine};

/// What a session has gained, and what a turn or a worker has, is a share: each line there is of a session that was
/// opened there. Where a gate is closed by a pass whose positions are the sum of such shares, no other pass spoke for a
/// session than the one that opened it; and that is what `serve` supposes of the others.
pub fn sessions_are_spoken_for_by_their_own()
    ensures sessions { (whole before after : PassView) → HasMet whole after → SpeaksForItsOwn before after
        → IsShare whole (gained_since before after) }
    ensures turns { (whole before after : PassView) → HasMet whole after → AdmitsNoLine before after
        → IsShare whole (gained_since before after) }
    ensures alone { (whole : PassView) (shares : List (List ℕ)) → IsSharedOut whole shares
        → LinesStandWithOpenings whole shares }
    ensures spoken { (whole before after : PassView) (shares : List (List ℕ)) → IsSharedOut whole shares
        → HasMet whole after → IsOneOf shares (gained_since before after) → SpeaksAloneForOpened before after }
{}

/// A session stays on course while its pass admits no line of it; and where a pass speaks for one session, it admits
/// no line of another.
pub fn course_stays()
    ensures one { (course : Course) (before after : PassView) → GoesOnTo before after
        → AdmitsNoLineOf course.session before after → StaysOnCourse course before after }
    ensures apart { (session other : ℕ) (before after : PassView) → other ≢ session
        → SpeaksForNoOther other before after → AdmitsNoLineOf session before after }
{}

/// So do all that share a pass: while it takes turns, while one of them goes on, whose events are no lines of the
/// others, and where another one is opened, whose number is new.
pub fn courses_stay()
    ensures turns { (before after : PassView) (sessions : List Standing) → GoesOnTo before after
        → AdmitsNoLine before after → StayOnCourse before after sessions (λ _. sessions) }
    ensures goes_on { (names : KnownNames) (first before after : PassView) (sessions : List Standing) (i : ℕ)
        (s : Standing) → GoesOnTo before after → OneGoesOn sessions i s before after
        → IsCourse names first after s.course s.told → AreOnCourse names first before sessions
        → AreOnCourse names first after (set sessions i s) }
    ensures opens { (before after : PassView) (sessions : List Standing) (subject session : ℕ) → GoesOnTo before after
        → OpensSession subject session before after
        → StayOnCourse before after sessions (with_opened sessions subject session) }
{}
