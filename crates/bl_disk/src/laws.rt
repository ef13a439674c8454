//! What is there after any number of crashes.
ghost use Rattle.std.specs.Prelude.{ℕ, List};
ghost use Rattle.bl_disk.specs.File.{Begins};
ghost use Rattle.bl_disk.specs.FileLives.{AreFileLives, AreParts, BeginsWithAllKept, EndWithTheProgram, FileLife, there_after};

/// After any number of crashes, what a file began with stands at its front, and so does all that was kept in some life.
pub fn what_was_kept_is_there()
    ensures { (from : List ℕ) (lives : List FileLife) → AreFileLives from lives
        → Begins from (there_after from lives) × BeginsWithAllKept (there_after from lives) lives }
{}

/// Where each crash was the end of the program alone, what is there is what was there at the beginning, and after it a first part of
/// what was to be added in each life, one life after another.
pub fn what_is_there_was_added()
    ensures { (from : List ℕ) (lives : List FileLife) → AreFileLives from lives → EndWithTheProgram from lives
        → AreParts from lives (there_after from lives) }
{}
