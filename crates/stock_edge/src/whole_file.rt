// All of a file.
ghost use Rattle.std.specs.Prelude.{◌≡◌, ◌≤◌, length, IfOk, IfErr, IsErrOf};
ghost use Rattle.stock_edge.specs.Causes.{Rose};
ghost use Rattle.stock_edge.specs.WholeFile.{IsWholeFile, RefusesFile};

use crate::{FileFault, Files};
use std::alloc::Global;
use thiserror::Error;

const PIECE: usize = 4096;

/// Why not all of a file was read.
#[derive(Clone, Copy, Debug, PartialEq, Eq, Error)]
pub enum FileErr {
    /// There is no file of that name.
    #[error("no such file")]
    Missing,
    /// The files failed.
    #[error("the files failed")]
    Failed,
    /// The file has more bytes than the limit.
    #[error("too many bytes")]
    TooLong,
    /// There was no memory for the bytes.
    #[error("out of memory")]
    Memory,
}

/// All bytes of the file of this name, of which there are at most `limit`. Nothing past `limit + 1`
/// bytes is asked for, and memory grows with what was read.
pub fn read_file<F: Files>(
    alloc: Global,
    files: &mut F,
    name: &str,
    limit: usize,
) -> Result<Vec<u8>, FileErr>
    ensures whole { IfOk result (λ all. IsWholeFile (F.held files.old) name.now all.items) }
    ensures fits { IfOk result (λ all. length all.items ≤ limit) }
    ensures refused { IfErr result (RefusesFile (F.held files.old) name.now limit) }
    ensures same { F.held files.new ≡ F.held files.old }
    ensures later { F.faults files.old ≤ F.faults files.new }
    ensures failed { IsErrOf result FileErr.Failed → Rose (F.faults files.old) (F.faults files.new) }
{
    let mut all = Vec::new(alloc);
    let mut buf = [0u8; PIECE];
    while all.len() <= limit {
        // One byte past the limit shows that there are too many.
        let wanted = (limit - all.len()).min(PIECE - 1) + 1;
        let count = match files.read_at(name, all.len() as u64, &mut buf[..wanted]) {
            Ok(0) => return Ok(all),
            Ok(count) => count,
            Err(FileFault::Missing) => return Err(FileErr::Missing),
            Err(FileFault::Failed) => return Err(FileErr::Failed),
        };
        if all.extend_from_slice(&buf[..count]).is_err() {
            return Err(FileErr::Memory);
        }
    }
    Err(FileErr::TooLong)
}
