//! The system's files, with reads and writes that pass one byte at most.

use std::alloc::Allocator;
use std::fs::{File, Metadata, OpenFile, OpenOptions};
use std::io::{self, Error, ErrorKind, Read, Seek, SeekFrom, Write};
use std::rt::Files;

#[derive(Clone, Copy)]
pub struct NarrowFiles(pub HostRuntime);

#[derive(Drop)]
pub struct NarrowFile(File);

impl Read for NarrowFile {
    fn read(&mut self, buf: &mut [u8]) -> io::Result<usize> {
        let most = buf.len().min(1);
        self.0.read(&mut buf[..most])
    }
}

impl Write for NarrowFile {
    fn write(&mut self, buf: &[u8]) -> io::Result<usize> {
        let most = buf.len().min(1);
        self.0.write(&buf[..most])
    }

    fn flush(&mut self) -> io::Result<()> {
        self.0.flush()
    }
}

impl Seek for NarrowFile {
    fn seek(&mut self, to: SeekFrom) -> io::Result<u64> {
        self.0.seek(to)
    }
}

impl OpenFile for NarrowFile {
    fn metadata(&self) -> io::Result<Metadata> {
        self.0.metadata()
    }

    fn set_len(&self, size: u64) -> io::Result<()> {
        self.0.set_len(size)
    }

    fn sync_all(&self) -> io::Result<()> {
        self.0.sync_all()
    }

    fn sync_data(&self) -> io::Result<()> {
        self.0.sync_data()
    }
}

/// The devices open files, and ask nothing else of a file system.
fn not_asked<T>() -> io::Result<T> {
    Err(Error::from(ErrorKind::Unsupported))
}

impl Files for NarrowFiles {
    type File = NarrowFile;

    type Dir = File;

    fn open_file(&self, how: &OpenOptions, path: &str) -> io::Result<NarrowFile> {
        Ok(NarrowFile(how.open(&self.0, path)?))
    }

    fn open_dir(&self, _path: &str) -> io::Result<File> {
        not_asked()
    }

    fn metadata(&self, _path: &str) -> io::Result<Metadata> {
        not_asked()
    }

    fn symlink_metadata(&self, _path: &str) -> io::Result<Metadata> {
        not_asked()
    }

    fn copy(&self, _from: &str, _to: &str) -> io::Result<u64> {
        not_asked()
    }

    fn rename(&self, _from: &str, _to: &str) -> io::Result<()> {
        not_asked()
    }

    fn remove_file(&self, _path: &str) -> io::Result<()> {
        not_asked()
    }

    fn create_dir(&self, _path: &str) -> io::Result<()> {
        not_asked()
    }

    fn remove_dir(&self, _path: &str) -> io::Result<()> {
        not_asked()
    }

    fn remove_dir_all<B: Allocator>(&self, _alloc: B, _path: &str) -> io::Result<()> {
        not_asked()
    }
}
