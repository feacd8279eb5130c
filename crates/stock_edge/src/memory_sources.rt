// Sources in memory.
ghost use Rattle.std.specs.Prelude.{◌≡◌, ◌<◌, ◌++◌, length, take, Some, Ok, IfOk};
ghost use Rattle.stock_edge.specs.MemorySources.{given_count};

use crate::{Failed, Source};
use fraction128::Memory;
use std::alloc::Global;
use std::marker::Model;

/// A source of given bytes whose listed calls fail.
#[derive(Drop)]
pub struct MemSource {
    rest: Vec<u8>,
    most: usize,
    fails: Vec<u64>,
    calls: u64,
    faults: u64,
}

impl Model for MemSource {
    ghost use Rattle.std.specs.Prelude.{◌<◌};
    ghost use Rattle.stock_edge.specs.MemorySources.{SourceState};

    ghost Value = { SourceState };

    ghost view = { λ s. record {
      left = s.rest.items;
      most = s.most;
      fails = s.fails.items;
      calls = s.calls;
      faults = s.faults;
    } };

    ghost invariant = { λ s. 0 < s.most };
}

impl MemSource {
    /// A source of `bytes` that gives at most `most` bytes a read. The reads whose numbers, from 1,
    /// stand in `fails` fail.
    pub fn new(alloc: Global, bytes: &[u8], most: usize, fails: &[u64]) -> Result<MemSource, Memory>
        requires { 0 < most }
        ensures { IfOk result (λ source. source ≡ record {
          left = bytes.now;
          most = most;
          fails = fails.now;
          calls = 0;
          faults = 0;
        }) }
    {
        let rest = bytes.to_vec(alloc)?;
        let fails = fails.to_vec(alloc)?;
        Ok(MemSource {
            rest,
            most,
            fails,
            calls: 0,
            faults: 0,
        })
    }
}

impl Source for MemSource {
    ghost use Rattle.std.specs.Io.{ReadsAtMost};
    ghost use Rattle.std.specs.Io.KnownBytes.{ReadConsumes};
    ghost use Rattle.stock_edge.specs.Causes.{HasCause};
    ghost use Rattle.stock_edge.specs.MemorySources.{ReadStep};

    ghost left = { λ source. Some source.left };

    ghost faults = { λ source. source.faults };

    fn read(&mut self, buf: &mut [u8]) -> Result<usize, Failed>
        ensures bound { ReadsAtMost result buf.new }
        ensures bytes { ReadConsumes (Some self.old.left) (Some self.new.left) result buf.new }
        ensures cause { HasCause self.old.faults self.new.faults result }
        ensures exact { ReadStep self.old self.new result (length buf.old) }
    {
        self.calls = self.calls.saturating_add(1);
        if self.fails.contains(&self.calls) {
            self.faults = self.faults.saturating_add(1);
            return Err(Failed);
        }
        Ok(give(&mut self.rest, self.most, buf))
    }
}

/// A source of given bytes that never fails.
#[derive(Drop)]
pub struct QuietSource {
    rest: Vec<u8>,
    most: usize,
}

impl Model for QuietSource {
    ghost use Rattle.std.specs.Prelude.{◌<◌};
    ghost use Rattle.stock_edge.specs.MemorySources.{QuietState};

    ghost Value = { QuietState };

    ghost view = { λ s. record { left = s.rest.items; most = s.most } };

    ghost invariant = { λ s. 0 < s.most };
}

impl QuietSource {
    /// A source of `bytes` that gives at most `most` bytes a read.
    pub fn new(alloc: Global, bytes: &[u8], most: usize) -> Result<QuietSource, Memory>
        requires { 0 < most }
        ensures { IfOk result (λ source. source ≡ record { left = bytes.now; most = most }) }
    {
        let rest = bytes.to_vec(alloc)?;
        Ok(QuietSource { rest, most })
    }
}

impl Source for QuietSource {
    ghost use Rattle.std.specs.Io.{ReadsAtMost};
    ghost use Rattle.std.specs.Io.KnownBytes.{ReadConsumes};
    ghost use Rattle.stock_edge.specs.Causes.{HasCause};

    ghost left = { λ source. Some source.left };

    ghost faults = { λ _. 0 };

    fn read(&mut self, buf: &mut [u8]) -> Result<usize, Failed>
        ensures bound { ReadsAtMost result buf.new }
        ensures bytes { ReadConsumes (Some self.old.left) (Some self.new.left) result buf.new }
        ensures cause { HasCause 0 0 result }
        ensures exact { result ≡ Ok (given_count self.old.left self.old.most (length buf.old)) }
        ensures most { self.new.most ≡ self.old.most }
    {
        Ok(give(&mut self.rest, self.most, buf))
    }
}

// Moves bytes from the front of `rest` into `buf`, as many as `most` and both allow.
fn give(rest: &mut Vec<u8>, most: usize, buf: &mut [u8]) -> usize
    ensures count { result ≡ given_count rest.old.items most (length buf.old) }
    ensures given { rest.old.items ≡ take result buf.new ++ rest.new.items }
{
    let count = rest.len().min(most).min(buf.len());
    buf[..count].copy_from_slice(&rest[..count]);
    rest.drain(..count);
    count
}
