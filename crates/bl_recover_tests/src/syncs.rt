//! A file system of which the file or folder of one name cannot be synced.
use bl_file::lock::Lock;
use std::alloc::Allocator;
use std::fs::{Metadata, OpenFile, OpenOptions};
use std::io;
use std::io::{ErrorKind, Read, Seek, SeekFrom, Write};
use std::rt::Files;

/// The files of a runtime, of which that of this name cannot be synced.
#[derive(Drop)]
pub(crate) struct UnsyncedFiles<'a, R> {
    pub(crate) rt: &'a R,
    pub(crate) name: &'a str,
}

/// A file, and whether it can be synced.
#[derive(Drop)]
pub(crate) struct UnsyncedFile<F> {
    file: F,
    can_sync: bool,
}

impl<F: Read> Read for UnsyncedFile<F> {
    fn read(&mut self, buf: &mut [u8]) -> io::Result<usize> {
        self.file.read(buf)
    }
}

impl<F: Write> Write for UnsyncedFile<F> {
    fn write(&mut self, buf: &[u8]) -> io::Result<usize> {
        self.file.write(buf)
    }

    fn flush(&mut self) -> io::Result<()> {
        self.file.flush()
    }
}

impl<F: Seek> Seek for UnsyncedFile<F> {
    fn seek(&mut self, to: SeekFrom) -> io::Result<u64> {
        self.file.seek(to)
    }
}

impl<F: OpenFile> OpenFile for UnsyncedFile<F> {
    fn metadata(&self) -> io::Result<Metadata> {
        self.file.metadata()
    }

    fn set_len(&self, size: u64) -> io::Result<()> {
        self.file.set_len(size)
    }

    fn sync_all(&self) -> io::Result<()> {
        if self.can_sync {
            self.file.sync_all()
        } else {
            Err(io::Error::from(ErrorKind::Other))
        }
    }

    fn sync_data(&self) -> io::Result<()> {
        if self.can_sync {
            self.file.sync_data()
        } else {
            Err(io::Error::from(ErrorKind::Other))
        }
    }
}

impl<F: Lock> Lock for UnsyncedFile<F> {
    fn take(&self) -> io::Result<bool> {
        self.file.take()
    }
}

impl<R: Files> Files for UnsyncedFiles<'_, R> {
    type File = UnsyncedFile<R::File>;

    type Dir = R::Dir;

    fn open_file(&self, how: &OpenOptions, path: &str) -> io::Result<UnsyncedFile<R::File>> {
        let file = self.rt.open_file(how, path)?;
        Ok(UnsyncedFile {
            file,
            can_sync: path != self.name,
        })
    }

    fn open_dir(&self, path: &str) -> io::Result<R::Dir> {
        self.rt.open_dir(path)
    }

    fn metadata(&self, path: &str) -> io::Result<Metadata> {
        self.rt.metadata(path)
    }

    fn symlink_metadata(&self, path: &str) -> io::Result<Metadata> {
        self.rt.symlink_metadata(path)
    }

    fn copy(&self, from: &str, to: &str) -> io::Result<u64> {
        self.rt.copy(from, to)
    }

    fn rename(&self, from: &str, to: &str) -> io::Result<()> {
        self.rt.rename(from, to)
    }

    fn remove_file(&self, path: &str) -> io::Result<()> {
        self.rt.remove_file(path)
    }

    fn create_dir(&self, path: &str) -> io::Result<()> {
        self.rt.create_dir(path)
    }

    fn remove_dir(&self, path: &str) -> io::Result<()> {
        self.rt.remove_dir(path)
    }

    fn remove_dir_all<B: Allocator>(&self, alloc: B, path: &str) -> io::Result<()> {
        self.rt.remove_dir_all(alloc, path)
    }

    fn hard_link(&self, original: &str, link: &str) -> io::Result<()> {
        self.rt.hard_link(original, link)
    }
}
