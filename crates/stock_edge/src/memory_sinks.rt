// A sink in memory.
ghost use Rattle.std.specs.Prelude.{◌≡◌, ◌<◌, [], length, Some, IfOk};
ghost use Rattle.stock_edge.specs.MemorySinks.{QuietWithRoom};

use crate::{Failed, Sink};
use fraction128::Memory;
use std::alloc::Global;
use std::marker::Model;

/// A sink of stated room whose listed calls fail.
#[derive(Drop)]
pub struct MemSink {
    held: Vec<u8>,
    most: usize,
    fails: Vec<u64>,
    room: usize,
    calls: u64,
    faults: u64,
}

impl Model for MemSink {
    ghost use Rattle.stock_edge.specs.MemorySinks.{SinkState};

    ghost Value = { SinkState };

    ghost use Rattle.stock_edge.specs.SinkFields.{state_of, IsSound};

    ghost view = { state_of };

    ghost invariant = { IsSound };
}

impl MemSink {
    /// An empty sink with room for `room` bytes that takes at most `most` bytes a write. The writes
    /// whose numbers, from 1, stand in `fails` fail. All its memory is taken here.
    pub fn new(alloc: Global, most: usize, fails: &[u64], room: usize) -> Result<MemSink, Memory>
        requires { 0 < most }
        ensures { IfOk result (λ sink. sink ≡ record {
          held = [];
          most = most;
          fails = fails.now;
          room = room;
          calls = 0;
          faults = 0;
        }) }
    {
        let held = Vec::with_capacity(alloc, room)?;
        let fails = fails.to_vec(alloc)?;
        Ok(MemSink {
            held,
            most,
            fails,
            room,
            calls: 0,
            faults: 0,
        })
    }

    /// The bytes that were written.
    pub fn bytes(&self) -> &[u8]
        ensures held { result.now ≡ self.now.held }
        ensures quiet { QuietWithRoom self.now }
    {
        &self.held
    }
}

impl Sink for MemSink {
    ghost use Rattle.std.specs.Io.{WritesAtMost};
    ghost use Rattle.std.specs.Io.KnownBytes.{WriteAppends};
    ghost use Rattle.stock_edge.specs.Causes.{HasCause};
    ghost use Rattle.stock_edge.specs.MemorySinks.{WriteStep};

    ghost written = { λ sink. Some sink.held };

    ghost faults = { λ sink. sink.faults };

    fn write(&mut self, piece: &[u8]) -> Result<usize, Failed>
        ensures bound { WritesAtMost result piece.now }
        ensures some { IfOk result (λ count. 0 < length piece.now → 0 < count) }
        ensures bytes { WriteAppends (Some self.old.held) (Some self.new.held) result piece.now }
        ensures cause { HasCause self.old.faults self.new.faults result }
        ensures exact { WriteStep self.old self.new result (length piece.now) }
        ensures quiet { QuietWithRoom self.new }
    {
        self.calls = self.calls.saturating_add(1);
        let left = self.room - self.held.len();
        let is_full = left == 0 && !piece.is_empty();
        if is_full || self.fails.contains(&self.calls) {
            self.faults = self.faults.saturating_add(1);
            return Err(Failed);
        }
        let count = left.min(self.most).min(piece.len());
        let Ok(()) = self.held.extend_from_slice(&piece[..count]) else {
            unreachable!();
        };
        Ok(count)
    }
}
