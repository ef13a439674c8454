//! What a log has after many notes.
ghost use Rattle.std.specs.Prelude.{List, ℕ};
ghost use Rattle.bl_wire.specs.Watch.{EndState, Puts};
ghost use Rattle.bl_log.specs.Lines.{AreLinesOf};
ghost use Rattle.bl_log.specs.Logs.{HaveBeenNoted};
ghost use Rattle.bl_log.specs.declared.note.Note.{Note as AnyNote};

/// After many notes a log has their lines, in order: all of them, or a first part of them where its writer failed.
pub fn a_log_has_its_lines_in_order()
    ensures { (notes : List AnyNote) (old new : EndState) → HaveBeenNoted notes old new →
        (text : List ℕ) × AreLinesOf notes text × Puts text old new }
{}
