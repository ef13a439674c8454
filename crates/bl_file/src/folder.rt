//! The folder of a path.
ghost use Rattle.bl_file.specs.Folders.{IsFolderOf};

/// The folder part of a path, or the folder that the program runs in.
pub(crate) fn folder_of(path: &str) -> &str
    ensures folder { IsFolderOf path.now result.now }
{
    match path.rfind('/') {
        Some(at) => path.split_at(at + 1).0,
        None => ".",
    }
}
