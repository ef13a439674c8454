//! A hall in memory of its own.
ghost use Rattle.std.specs.Prelude.{◌≡◌, IfOk, IfErr};

use bl_hall::hall::Hall;
use std::alloc::Global;
use std::marker::Model;

/// A hall that is handed on by its address. It goes through two hands in each call of a gate, and to move it whole
/// takes longer than most calls.
#[derive(Drop)]
pub struct BoxedHall {
    pub(crate) inner: Box<Hall>,
}

impl Model for BoxedHall {
    ghost use Rattle.std.specs.Coded.{codes};
    ghost use Rattle.bl_policy.specs.Codes.{matrix_code};
    ghost use Rattle.bl_hall.specs.EventCodes.{coded_event};
    ghost use Rattle.bl_hall.specs.Chronicle.{Chronicle};

    ghost Value = { Chronicle };

    ghost coded = { Prim.hlevel (codes, matrix_code, coded_event) };

    ghost view = { λ boxed. boxed.inner.value };
}

impl BoxedHall {
    /// Takes memory for a hall. Where a growth is refused it hands the hall back.
    pub(crate) fn new(alloc: Global, hall: Hall) -> Result<BoxedHall, Hall>
        ensures ok { IfOk result (λ boxed. boxed ≡ hall) }
        ensures err { IfErr result (λ refused. refused ≡ hall) }
    {
        match Box::new(alloc, hall) {
            Ok(inner) => Ok(BoxedHall { inner }),
            Err(refused) => Err(refused.value),
        }
    }

    /// The hall in its memory.
    pub(crate) fn into_box(self) -> Box<Hall>
        ensures { result.value ≡ self }
    {
        let BoxedHall { inner } = self;
        inner
    }

    /// The hall, and no more memory of its own.
    pub(crate) fn into_hall(self) -> Hall
        ensures { result ≡ self }
    {
        let BoxedHall { inner } = self;
        Box::into_inner(inner)
    }
}
