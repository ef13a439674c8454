//! Devices that are the file of a name.
ghost use Rattle.std.specs.Prelude.{◌≡◌, ℕ, List};

/// A device that is the file of a name.
pub trait FileName {
    /// The name under which the file was opened.
    ghost name: { Self → List ℕ };

    /// The name under which the file was opened.
    fn name(&self) -> &str
        ensures { result.now ≡ name self.now };
}
