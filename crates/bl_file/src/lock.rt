//! A file that one program at a time may have.
use std::fs::TryLockError;
use std::{fs, io};

/// A file is this program's alone until it is closed. Only `take_alone` makes one.
#[derive(Debug, Drop)]
pub(crate) struct Locked {
    _taken: (),
}

/// A file that one program at a time may have.
pub trait Lock {
    /// Takes the file for this program, until it is closed: `true` where no other program has it, and `false` where one has.
    fn take(&self) -> io::Result<bool>;
}

impl Lock for fs::File {
    fn take(&self) -> io::Result<bool> {
        match self.try_lock() {
            Ok(()) => Ok(true),
            Err(TryLockError::WouldBlock) => Ok(false),
            Err(TryLockError::Error(error)) => Err(error),
        }
    }
}

/// Takes a file for this program alone; `None` where another program has it.
pub(crate) fn take_alone<F: Lock>(file: &F) -> io::Result<Option<Locked>> {
    if file.take()? {
        Ok(Some(Locked { _taken: () }))
    } else {
        Ok(None)
    }
}
