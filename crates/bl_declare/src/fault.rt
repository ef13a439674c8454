//! Why the text of a setup file is refused.
ghost use Rattle.std.specs.Prelude.{◌≡◌};
ghost use Rattle.bl_declare.specs.declared.fault.SetupFaultKind.TheVariants.{Memory};

use bl_level::scheme::{LevelFault, SchemeFault};
use bl_level::table::TableFault;
use bl_policy::policy::AddFault;
use bl_work::names::NameFault;
use std::alloc::{AllocError, AllocFailed};

/// What is wrong with a line. Where several hold, the first is answered.
#[derive(Clone, Copy, Debug, PartialEq, Eq)]
pub enum SetupFaultKind {
    /// The line is not spelled as a declaration, another declaration is due, or the file ends before its categories.
    Syntax,
    /// A name that was not declared before.
    Unknown,
    /// A name that was declared before in its kind, or a category that stands twice in a level.
    Repeated,
    /// The greatest level of a subject does not dominate its current one.
    CurrentAboveGreatest,
    /// There are more names than there may be, a content has more than 65,536 bytes, or the text more than its bound.
    TooMany,
    /// A growth was refused.
    Memory,
}

/// A line at fault, and what is wrong with it. Lines count from 1, those that are skipped too; line 0 stands for the file as
/// a whole.
#[derive(Clone, Copy, Debug, PartialEq, Eq)]
pub struct SetupFault {
    pub line: u32,
    pub kind: SetupFaultKind,
}

impl From<AllocError> for SetupFaultKind {
    ghost from_gives = { λ _ k. k ≡ Memory };

    fn from(_: AllocError) -> SetupFaultKind {
        SetupFaultKind::Memory
    }
}

impl<T: Drop> From<AllocFailed<T>> for SetupFaultKind {
    ghost from_gives = { λ _ k. k ≡ Memory };

    fn from(_: AllocFailed<T>) -> SetupFaultKind {
        SetupFaultKind::Memory
    }
}

impl From<AddFault> for SetupFaultKind {
    ghost use Rattle.std.specs.Prelude.{◌≡◌};
    ghost use Rattle.bl_declare.specs.Faults.{kind_of_add};

    ghost from_gives = { λ f k. k ≡ kind_of_add f };

    fn from(fault: AddFault) -> SetupFaultKind {
        match fault {
            AddFault::TooMany => SetupFaultKind::TooMany,
            AddFault::CurrentAboveGreatest => SetupFaultKind::CurrentAboveGreatest,
        }
    }
}

impl From<NameFault> for SetupFaultKind {
    ghost use Rattle.std.specs.Prelude.{◌≡◌};
    ghost use Rattle.bl_declare.specs.Faults.{kind_of_name};

    ghost from_gives = { λ f k. k ≡ kind_of_name f };

    fn from(fault: NameFault) -> SetupFaultKind {
        match fault {
            NameFault::TooMany => SetupFaultKind::TooMany,
            NameFault::Repeated => SetupFaultKind::Repeated,
            NameFault::Memory => SetupFaultKind::Memory,
        }
    }
}

impl From<LevelFault> for SetupFaultKind {
    ghost use Rattle.std.specs.Prelude.{◌≡◌};
    ghost use Rattle.bl_declare.specs.Faults.{kind_of_level};

    ghost from_gives = { λ f k. k ≡ kind_of_level f };

    fn from(fault: LevelFault) -> SetupFaultKind {
        match fault {
            LevelFault::Syntax => SetupFaultKind::Syntax,
            LevelFault::UnknownRank | LevelFault::UnknownCategory => SetupFaultKind::Unknown,
            LevelFault::RepeatedCategory => SetupFaultKind::Repeated,
        }
    }
}

impl From<TableFault> for SetupFaultKind {
    ghost use Rattle.std.specs.Prelude.{◌≡◌};
    ghost use Rattle.bl_declare.specs.Faults.{kind_of_table};

    ghost from_gives = { λ f k. k ≡ kind_of_table f };

    fn from(fault: TableFault) -> SetupFaultKind {
        match fault {
            TableFault::Repeated(_) => SetupFaultKind::Repeated,
            TableFault::Memory => SetupFaultKind::Memory,
        }
    }
}

impl From<SchemeFault> for SetupFaultKind {
    ghost use Rattle.std.specs.Prelude.{◌≡◌};
    ghost use Rattle.bl_declare.specs.Faults.{kind_of_scheme};

    ghost from_gives = { λ f k. k ≡ kind_of_scheme f };

    fn from(fault: SchemeFault) -> SetupFaultKind {
        match fault {
            SchemeFault::Empty => SetupFaultKind::Syntax,
            SchemeFault::TooMany => SetupFaultKind::TooMany,
            SchemeFault::Repeated(_) => SetupFaultKind::Repeated,
            SchemeFault::Memory => SetupFaultKind::Memory,
        }
    }
}
