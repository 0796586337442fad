//! Devices that are files of one folder.

ghost use Rattle.std.specs.Prelude.{◌≡◌, ◌<◌, ◌≤◌, length, take, None, Some, string_bytes};
ghost use Rattle.std.specs.Prelude.{IfOk, OnErr, IfSome, IfNone, MatchOption};
ghost use Rattle.std.specs.List.{position};
ghost use Rattle.ca_base.specs.Faults.{Counts};
ghost use Rattle.device_io.specs.Files.{name_in, new_files, to_append, to_read};
ghost use Rattle.device_io.specs.Files.{AppendedIn, ReadIn, AppendsPiece, GivesFront, MovesAt, StaysAt};
ghost use Rattle.device_io.specs.KeptFiles.{is_kept_for, OpensFor, AreOpened};

use crate::Devices;
use crate::kept::{KeptFile, keep_open, open_for, place_of};
use ca_base::{EndpointNo, Failed, Faults, NoMemory, read_once, write_once};
use std::alloc::Global;
use std::fs::OpenOptions;
use std::marker::Model;
use std::rt::Files;

/// The files `NAME/endpoint-N.pcm`.
#[derive(Drop)]
struct Folder<R: Files + Drop> {
    rt: R,
    alloc: Global,
    name: String,
}

/// Devices over the files `FOLDER/endpoint-N.pcm`. A write appends to the file of its endpoint, which is made if it is
/// missing. The reads of an endpoint go through its file once, from the front. A file is opened at the first use of its
/// endpoint and then kept open; the folder isn't looked at before.
#[derive(Drop)]
pub struct FileDevices<R: Files + Drop> {
    folder: Folder<R>,
    appended: Vec<KeptFile<R::File>>,
    read: Vec<KeptFile<R::File>>,
    faults: Faults,
}

impl<R: Files + Drop> Model for FileDevices<R> {
    ghost use Rattle.std.specs.Prelude.{string_bytes};
    ghost use Rattle.device_io.specs.Files.{FilesState};
    ghost use Rattle.device_io.specs.KeptFiles.{open_files, Keeping};

    ghost Value = { FilesState };

    ghost view = { λ d. record {
      folder = string_bytes d.folder.name;
      appended = open_files R.File.contents d.appended.items;
      read = open_files R.File.remaining d.read.items;
      faults = d.faults;
    } };

    ghost invariant = { λ d. Keeping (string_bytes d.folder.name) d.appended.items d.read.items };
}

impl<R: Files + Drop> FileDevices<R> {
    /// Devices over the files of this folder, of which none is opened yet.
    pub fn new(rt: R, alloc: Global, folder: &str) -> Result<FileDevices<R>, NoMemory>
        ensures { IfOk result (λ d. d ≡ new_files folder.now) }
    {
        let name = String::from_str(alloc, folder)?;
        Ok(FileDevices {
            folder: Folder { rt, alloc, name },
            appended: Vec::new(alloc),
            read: Vec::new(alloc),
            faults: Faults::new(),
        })
    }

    /// How many calls have failed. The count saturates at 2^64 - 1.
    pub fn faults(&self) -> u64
        ensures { result ≡ self.now.faults }
    {
        self.faults.count()
    }

    /// Appends at least one byte of the piece to the file of an endpoint. `None` if that, the memory or the opening
    /// fails.
    fn append(&mut self, e: EndpointNo, piece: &[u8]) -> Option<usize>
        requires { 0 < length piece.now }
        ensures some { IfSome result (λ n. 0 < n) }
        ensures count { IfSome result (λ n. n ≤ length piece.now) }
        ensures ends { MatchOption result
            (StaysAt R.File.contents (AppendedIn self.old.folder) e.0 self.old.appended self.new.appended)
            (λ n. MovesAt R.File.contents (AppendedIn self.old.folder) (AppendsPiece (take n piece.now)) e.0
            self.old.appended self.new.appended) }
        ensures others { self.new ≡ record self.old { appended = self.new.appended } }
    {
        let place = place_opened(&self.folder, append_options(), &mut self.appended, e)?;
        write_once(&mut self.appended[place].file, piece)
    }

    /// Reads on in the file of an endpoint. `None` if that, the memory or the opening fails.
    fn read_on(&mut self, e: EndpointNo, buf: &mut [u8]) -> Option<usize>
        requires { 0 < length buf.old }
        ensures count { IfSome result (λ n. n ≤ length buf.new) }
        ensures ends { MatchOption result
            (StaysAt R.File.remaining (ReadIn self.old.folder) e.0 self.old.read self.new.read)
            (λ n. MovesAt R.File.remaining (ReadIn self.old.folder) (GivesFront n buf.new) e.0
            self.old.read self.new.read) }
        ensures others { self.new ≡ record self.old { read = self.new.read } }
    {
        let place = place_opened(&self.folder, read_options(), &mut self.read, e)?;
        read_once(&mut self.read[place].file, buf)
    }
}

impl<R: Files + Drop> Devices for FileDevices<R> {
    ghost faults = { λ d. d.faults };

    ghost told = { λ _. None };

    /// Appends to the file of the endpoint.
    fn write(&mut self, e: EndpointNo, piece: &[u8]) -> Result<usize, Failed>
        requires { 0 < length piece.now }
        ensures some { IfOk result (λ n. 0 < n) }
        ensures count { IfOk result (λ n. n ≤ length piece.now) }
        ensures cause { Counts result self.old.faults self.new.faults }
        ensures takes { IfOk result (λ n.
            MovesAt R.File.contents (AppendedIn self.old.folder) (AppendsPiece (take n piece.now)) e.0
            self.old.appended self.new.appended) }
        ensures err { OnErr result
            (StaysAt R.File.contents (AppendedIn self.old.folder) e.0 self.old.appended self.new.appended) }
        ensures others { self.new ≡
            record self.old { appended = self.new.appended; faults = self.new.faults } }
    {
        match self.append(e, piece) {
            Some(count) => Ok(count),
            None => Err(self.faults.raise()),
        }
    }

    /// Reads on in the file of the endpoint, from its front at the first read: 0 bytes are its end.
    fn read(&mut self, e: EndpointNo, buf: &mut [u8]) -> Result<usize, Failed>
        requires { 0 < length buf.old }
        ensures count { IfOk result (λ n. n ≤ length buf.new) }
        ensures cause { Counts result self.old.faults self.new.faults }
        ensures gives { IfOk result (λ n.
            MovesAt R.File.remaining (ReadIn self.old.folder) (GivesFront n buf.new) e.0
            self.old.read self.new.read) }
        ensures err { OnErr result (StaysAt R.File.remaining (ReadIn self.old.folder) e.0 self.old.read self.new.read) }
        ensures others { self.new ≡ record self.old { read = self.new.read; faults = self.new.faults } }
    {
        match self.read_on(e, buf) {
            Some(count) => Ok(count),
            None => Err(self.faults.raise()),
        }
    }
}

/// The place of the file of an endpoint among those that are kept. At the first use of the endpoint the file is opened,
/// with these options. `None`, if memory runs out or the file can't be opened, changes nothing.
#[tactic(auto, using(crate::proofs::OpenFiles::found_new))]
fn place_opened<R: Files + Drop>(
    folder: &Folder<R>,
    options: OpenOptions,
    files: &mut Vec<KeptFile<R::File>>,
    e: EndpointNo,
) -> Option<usize>
    requires { AreOpened (string_bytes folder.now.name) options files.old.items }
    ensures place { IfSome result (λ i. Some i ≡ position (is_kept_for e.0) files.new.items) }
    ensures opens { IfSome result (λ i. OpensFor e.0 files.old.items files.new.items) }
    ensures opened { AreOpened (string_bytes folder.now.name) options files.new.items }
    ensures none { IfNone result (files.new.items ≡ files.old.items) }
{
    match place_of(files, e) {
        Some(place) => Some(place),
        None => {
            let name = file_name(folder.alloc, folder.name.as_str(), e)?;
            let kept = open_for(&folder.rt, e, name, options)?;
            keep_open(files, kept)
        }
    }
}

/// The name of the file of an endpoint. `None` if memory runs out.
fn file_name(alloc: Global, folder: &str, e: EndpointNo) -> Option<String>
    ensures { IfSome result (λ name. string_bytes name ≡ name_in folder.now e.0) }
{
    format!(in alloc; "{folder}/endpoint-{}.pcm", e.0).ok()
}

/// How a file is opened that is appended to: it is made if it is missing.
fn append_options() -> OpenOptions
    ensures { result ≡ to_append }
{
    let mut options = OpenOptions::new();
    options.append(true).create(true);
    options
}

/// How a file is opened that is read.
fn read_options() -> OpenOptions
    ensures { result ≡ to_read }
{
    let mut options = OpenOptions::new();
    options.read(true);
    options
}
