//! What holds of evaluations, whoever makes them.
ghost use Rattle.std.specs.Prelude.{◌≡◌, ℕ, List, IsTrue};
ghost use Rattle.bl_work.specs.Modes.{declares, observes, KeepsModes};
ghost use Rattle.bl_eval.specs.Loan.{Loan, part_of, input_at, effects_on};

/// A blind append sees nothing: where a behaviour is lent other contents that differ only in documents that it may not look
/// at, its effects are the same, and with them what it shows, spawns and adds.
pub fn blind_append()
    ensures { (l : Loan) (others : List (List ℕ)) → KeepsModes (part_of l).accesses (part_of l).body → ((doc : ℕ) → IsTrue (declares observes (part_of l).accesses doc) → input_at (part_of l).accesses l.inputs doc ≡ input_at (part_of l).accesses others doc) → effects_on l ≡ effects_on (record l { inputs = others }) }
{
    bl_work::laws::blind_append();
}
