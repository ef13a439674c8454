//! A file that is opened again.
use crate::torn::Torn;
use bl_disk::device::DeviceError;
use bl_disk::log::{Log, reopen};

/// Opens a file again of which so many bytes are right. One that has fewer is given back as it is.
pub fn opened(torn: Torn, right: usize) -> Result<Log<Torn>, (DeviceError, Torn)> {
    if right <= torn.len() && !torn.failed() {
        reopen(torn, right)
    } else {
        Err((DeviceError::Failed, torn))
    }
}
