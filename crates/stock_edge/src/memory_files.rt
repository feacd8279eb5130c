// Files in memory.
ghost use Rattle.std.specs.Prelude.{◌≡◌, [], length, IfOk, OnOk, OnErr, IsErrOf};
ghost use Rattle.std.specs.Io.{ReadsAtMost};
ghost use Rattle.stock_edge.specs.HeldFiles.{GivesPiece, piece_count, held_in, held_with};

use crate::{FileFault, Files};
use fraction128::Memory;
use std::alloc::Global;
use std::collections::HashMap;
use std::marker::Model;

// The bytes of each name.
#[derive(Drop)]
struct FileStore {
    alloc: Global,
    files: HashMap<String, Vec<u8>>,
}

impl Model for FileStore {
    ghost use Rattle.stock_edge.specs.HeldFiles.{NamedFiles};

    ghost Value = { NamedFiles };

    ghost use Rattle.stock_edge.specs.StoreFields.{files_of};

    ghost view = { files_of };
}

impl FileStore {
    ghost use Rattle.std.specs.Prelude.{Some};
    ghost use Rattle.stock_edge.specs.HeldFiles.{GivesHeld, read_answer};

    fn new(alloc: Global) -> FileStore
        ensures { result ≡ [] }
    {
        FileStore {
            alloc,
            files: HashMap::new(alloc),
        }
    }

    fn add(&mut self, name: &str, bytes: &[u8]) -> Result<(), Memory>
        ensures ok { OnOk result (held_in self.new ≡ held_with (held_in self.old) name.now bytes.now) }
        ensures err { OnErr result (self.new ≡ self.old) }
    {
        let name = String::from_str(self.alloc, name)?;
        let bytes = bytes.to_vec(self.alloc)?;
        self.files.insert(name, bytes)?;
        Ok(())
    }

    fn read_at(&self, name: &str, place: u64, buf: &mut [u8]) -> Result<usize, FileFault>
        ensures bound { ReadsAtMost result buf.new }
        ensures bytes { IfOk result (GivesHeld (Some (held_in self.now)) name.now place buf.new) }
        ensures exact { result ≡ read_answer (held_in self.now) name.now place (length buf.old) }
    {
        match self.files.get(name) {
            None => Err(FileFault::Missing),
            Some(file) => Ok(give_from(file, place, buf)),
        }
    }
}

/// Files of given bytes whose listed reads fail.
#[derive(Drop)]
pub struct MemFiles {
    store: FileStore,
    fails: Vec<u64>,
    calls: u64,
    faults: u64,
}

impl Model for MemFiles {
    ghost use Rattle.stock_edge.specs.MemoryFiles.{FilesState};

    ghost Value = { FilesState };

    ghost view = { λ s. record {
      files = s.store;
      fails = s.fails.items;
      calls = s.calls;
      faults = s.faults;
    } };
}

impl MemFiles {
    ghost use Rattle.stock_edge.specs.MemoryFiles.{AddsFile};

    /// No files so far. The reads whose numbers, from 1, stand in `fails` fail.
    pub fn new(alloc: Global, fails: &[u64]) -> Result<MemFiles, Memory>
        ensures { IfOk result (λ files. files ≡ record {
          files = [];
          fails = fails.now;
          calls = 0;
          faults = 0;
        }) }
    {
        let fails = fails.to_vec(alloc)?;
        Ok(MemFiles {
            store: FileStore::new(alloc),
            fails,
            calls: 0,
            faults: 0,
        })
    }

    /// Holds `bytes` under `name`, in place of any before. After `Memory` the files are as before.
    pub fn add(&mut self, name: &str, bytes: &[u8]) -> Result<(), Memory>
        ensures ok { OnOk result (AddsFile self.old self.new name.now bytes.now) }
        ensures err { OnErr result (self.new ≡ self.old) }
    {
        self.store.add(name, bytes)
    }
}

impl Files for MemFiles {
    ghost use Rattle.std.specs.Prelude.{Some};
    ghost use Rattle.stock_edge.specs.HeldFiles.{GivesHeld, IsNotHeld, HasFileCause};
    ghost use Rattle.stock_edge.specs.MemoryFiles.{FileReadStep};

    ghost held = { λ s. Some (held_in s.files) };

    ghost faults = { λ s. s.faults };

    fn read_at(&mut self, name: &str, place: u64, buf: &mut [u8]) -> Result<usize, FileFault>
        ensures bound { ReadsAtMost result buf.new }
        ensures bytes { IfOk result (GivesHeld (Some (held_in self.old.files)) name.now place buf.new) }
        ensures missing { IsErrOf result FileFault.Missing → IsNotHeld (Some (held_in self.old.files)) name.now }
        ensures same { Some (held_in self.new.files) ≡ Some (held_in self.old.files) }
        ensures cause { HasFileCause self.old.faults self.new.faults result }
        ensures exact { FileReadStep self.old self.new result name.now place (length buf.old) }
    {
        self.calls = self.calls.saturating_add(1);
        if self.fails.contains(&self.calls) {
            self.faults = self.faults.saturating_add(1);
            return Err(FileFault::Failed);
        }
        self.store.read_at(name, place, buf)
    }
}

/// Files of given bytes that never fail.
#[derive(Drop)]
pub struct QuietFiles {
    store: FileStore,
}

impl Model for QuietFiles {
    ghost use Rattle.stock_edge.specs.HeldFiles.{NamedFiles};

    ghost Value = { NamedFiles };

    ghost view = { λ s. s.store };
}

impl QuietFiles {
    /// No files so far.
    pub fn new(alloc: Global) -> Result<QuietFiles, Memory>
        ensures { IfOk result (λ files. files ≡ []) }
    {
        Ok(QuietFiles {
            store: FileStore::new(alloc),
        })
    }

    /// Holds `bytes` under `name`, in place of any before. After `Memory` the files are as before.
    pub fn add(&mut self, name: &str, bytes: &[u8]) -> Result<(), Memory>
        ensures ok { OnOk result (held_in self.new ≡ held_with (held_in self.old) name.now bytes.now) }
        ensures err { OnErr result (self.new ≡ self.old) }
    {
        self.store.add(name, bytes)
    }
}

impl Files for QuietFiles {
    ghost use Rattle.std.specs.Prelude.{Some};
    ghost use Rattle.stock_edge.specs.HeldFiles.{GivesHeld, IsNotHeld, HasFileCause, read_answer};

    ghost held = { λ files. Some (held_in files) };

    ghost faults = { λ _. 0 };

    fn read_at(&mut self, name: &str, place: u64, buf: &mut [u8]) -> Result<usize, FileFault>
        ensures bound { ReadsAtMost result buf.new }
        ensures bytes { IfOk result (GivesHeld (Some (held_in self.old)) name.now place buf.new) }
        ensures missing { IsErrOf result FileFault.Missing → IsNotHeld (Some (held_in self.old)) name.now }
        ensures same { Some (held_in self.new) ≡ Some (held_in self.old) }
        ensures cause { HasFileCause 0 0 result }
        ensures exact { result ≡ read_answer (held_in self.old) name.now place (length buf.old) }
    {
        self.store.read_at(name, place, buf)
    }
}

// Copies the bytes of `file` from `place` on into `buf`, as many as both allow.
fn give_from(file: &[u8], place: u64, buf: &mut [u8]) -> usize
    ensures count { result ≡ piece_count file.now place (length buf.old) }
    ensures given { GivesPiece file.now place buf.new result }
{
    let start = (place as usize).min(file.len());
    let rest = &file[start..];
    let count = rest.len().min(buf.len());
    buf[..count].copy_from_slice(&rest[..count]);
    count
}
