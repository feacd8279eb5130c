// The adapter over the system's files. It tells no content, since what a file holds is outside of
// every contract.
ghost use Rattle.std.specs.Prelude.{◌≡◌, ◌+◌, ◌^◌, ◌<◌, false, None, IfOk, IfSome, IsErrOf, OnOk, OnErr};
ghost use Rattle.std.specs.Str.{bytes_eq};
ghost use Rattle.std.specs.Io.{ReadsAtMost};
ghost use Rattle.stock_edge.specs.HeldFiles.{file_faults_after};

use crate::real::read_uninterrupted;
use crate::{FileFault, Files};
use arrayvec::ArrayString;
use std::fs::File;
use std::io::{ErrorKind, Read, Seek, SeekFrom};
use std::marker::Model;
use std::rt;

/// The longest name of a file that the system opens, in bytes.
const LONGEST_NAME: usize = 4096;

/// A file that is kept open, and the offset of its next byte.
#[derive(Drop)]
struct OpenedFile<F> {
    name: ArrayString<LONGEST_NAME>,
    file: F,
    offset: u64,
}

/// The files of the system, with a count of its faults. They tell no content.
///
/// The file that was read last is kept open, and a read of the same name reads on there: whatever
/// the name stands for by then, the bytes are those of one file. Where a read goes on behind the
/// last one, nothing is sought, so a pipe can be read too.
#[derive(Drop)]
pub struct RealFiles<R> {
    system: R,
    opened: Option<OpenedFile<File>>,
    faults: u64,
}

impl<R> Model for RealFiles<R> {
    ghost use Rattle.std.specs.Prelude.{ℕ};

    ghost Value = { ℕ };

    ghost view = { λ s. s.faults };
}

impl<R: rt::Files<File = File>> RealFiles<R> {
    /// The files of `system`, with no fault so far.
    pub fn new(system: R) -> Self
        ensures { result ≡ 0 }
    {
        RealFiles {
            system,
            opened: None,
            faults: 0,
        }
    }

    // One read of the file of this name, which is opened unless it is the one that is kept.
    fn read_kept(&mut self, name: &str, place: u64, buf: &mut [u8]) -> Result<usize, FileFault>
        ensures bound { ReadsAtMost result buf.new }
        ensures same { self.new ≡ self.old }
    {
        if !keeps(&self.opened, name) {
            self.opened = None;
            self.opened = Some(open(&self.system, name)?);
        }
        match &mut self.opened {
            Some(opened) => opened.read_from(place, buf),
            None => Err(FileFault::Failed),
        }
    }
}

// Whether the file that is kept open has this name.
fn keeps(opened: &Option<OpenedFile<File>>, name: &str) -> bool
    ensures none { opened.now ≡ None → result ≡ false }
    ensures kept { IfSome opened.now (λ file. result ≡ bytes_eq file.name.bytes name.now) }
{
    match opened {
        Some(opened) => opened.name.as_str() == name,
        None => false,
    }
}

impl<R: rt::Files<File = File>> Files for RealFiles<R> {
    ghost use Rattle.std.specs.Prelude.{None};
    ghost use Rattle.stock_edge.specs.HeldFiles.{GivesHeld, IsNotHeld, HasFileCause};

    ghost held = { λ _. None };

    ghost faults = { λ faults. faults };

    fn read_at(&mut self, name: &str, place: u64, buf: &mut [u8]) -> Result<usize, FileFault>
        ensures bound { ReadsAtMost result buf.new }
        ensures bytes { IfOk result (GivesHeld None name.now place buf.new) }
        ensures missing { IsErrOf result FileFault.Missing → IsNotHeld None name.now }
        ensures cause { HasFileCause self.old self.new result }
        ensures counted { self.new ≡ file_faults_after self.old result }
    {
        let result = self.read_kept(name, place, buf);
        if result == Err(FileFault::Failed) {
            self.faults = self.faults.saturating_add(1);
        }
        result
    }
}

// Opens the file of this name. A name that is too long to be kept is longer than the system takes.
fn open<R: rt::Files<File = File>>(system: &R, name: &str) -> Result<OpenedFile<File>, FileFault>
    ensures named { IfOk result (λ file. file.name.bytes ≡ name.now) }
    ensures unread { IfOk result (λ file. file.offset ≡ 0) }
{
    let mut kept_name = ArrayString::new();
    if kept_name.try_push_str(name).is_err() {
        return Err(FileFault::Failed);
    }
    match File::open(system, name) {
        Ok(file) => Ok(OpenedFile {
            name: kept_name,
            file,
            offset: 0,
        }),
        Err(error) if error.kind() == ErrorKind::NotFound => Err(FileFault::Missing),
        Err(_) => Err(FileFault::Failed),
    }
}

impl<F: Read + Seek> OpenedFile<F> {
    // One read from `place` on, which is sought only where it isn't the next byte's.
    fn read_from(&mut self, place: u64, buf: &mut [u8]) -> Result<usize, FileFault>
        ensures bound { ReadsAtMost result buf.new }
        ensures name { self.new.name ≡ self.old.name }
        ensures next { IfOk result (λ count. place + count < 2 ^ 64 → self.new.offset ≡ place + count) }
    {
        if place != self.offset {
            self.seek(place)?;
        }
        match read_uninterrupted(&mut self.file, buf) {
            Ok(count) => {
                self.offset = place.saturating_add(count as u64);
                Ok(count)
            }
            Err(_) => Err(FileFault::Failed),
        }
    }

    // Goes to the byte at `place`.
    fn seek(&mut self, place: u64) -> Result<(), FileFault>
        ensures there { OnOk result (self.new.offset ≡ place) }
        ensures failed { OnErr result (self.new.offset ≡ self.old.offset) }
        ensures name { self.new.name ≡ self.old.name }
    {
        match self.file.seek(SeekFrom::Start(place)) {
            Ok(_) => {
                self.offset = place;
                Ok(())
            }
            Err(_) => Err(FileFault::Failed),
        }
    }
}
