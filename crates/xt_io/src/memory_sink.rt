ghost use Rattle.std.specs.Prelude.{◌≡◌, ◌≤◌, [], IfOk};

use crate::calls::Calls;
use crate::failed::Failed;
use crate::sink::Sink;
use std::alloc::Global;
use std::marker::Model;
use xt_model::NoMemory;

/// A sink in memory, whose writes fail by their numbers. A write takes no memory.
#[derive(Drop)]
pub struct MemorySink {
    written: Vec<u8>,
    calls: Calls,
    faults: u64,
    most: usize,
    room: usize,
}

impl Model for MemorySink {
    ghost use Rattle.std.specs.Prelude.{◌<◌, ◌≤◌, vec_len, vec_capacity};
    ghost use Rattle.xt_io.specs.Memory.{SinkState};

    ghost Value = { SinkState };

    ghost view = { λ s. record {
      written = s.written.items;
      fail = s.calls.fail.items;
      calls = s.calls.next;
      faults = s.faults;
      most = s.most;
      room = s.room;
    } };

    ghost invariant = { λ s. (0 < s.most) × (vec_len s.written ≤ s.room) × (s.room ≤ vec_capacity s.written) };
}

impl MemorySink {
    /// A sink with room for `room` bytes, that takes `most` bytes at most in a write. The writes are numbered from 0;
    /// those fail that `fail` lists, and those that find no room.
    pub fn new(
        alloc: Global,
        fail: Vec<u64>,
        most: usize,
        room: usize,
    ) -> Result<MemorySink, NoMemory>
        requires { 1 ≤ most }
        ensures { IfOk result (λ s. s ≡ record {
          written = [];
          fail = fail.items;
          calls = 0;
          faults = 0;
          most = most;
          room = room;
        }) }
    {
        let Ok(written) = Vec::with_capacity(alloc, room) else {
            return Err(NoMemory);
        };
        Ok(MemorySink {
            written,
            calls: Calls { fail, next: 0 },
            faults: 0,
            most,
            room,
        })
    }

    /// What was written.
    pub fn bytes(&self) -> &[u8]
        ensures { result.now ≡ self.now.written }
    {
        self.written.as_slice()
    }
}

impl Sink for MemorySink {
    ghost use Rattle.std.specs.Prelude.{◌≡◌, ◌↔◌, ◌-◌, ◌<◌, ◌≤◌, ◌++◌, length, take, min, Some, IsErr, IfOk, OnOk};
    ghost use Rattle.std.specs.Prelude.{OnErr};
    ghost use Rattle.xt_io.specs.Outside.{Rose};
    ghost use Rattle.xt_io.specs.Memory.{WriteFails, one_more};

    ghost written = { λ s. Some s.written };

    ghost faults = { λ s. s.faults };

    fn write(&mut self, piece: &[u8]) -> Result<usize, Failed>
        requires { 0 < length piece.now }
        ensures counts { self.old.faults ≤ self.new.faults }
        ensures count { IfOk result (λ n. (0 < n) × (n ≤ length piece.now)) }
        ensures kept { OnOk result (self.new.faults ≡ self.old.faults) }
        ensures failed { OnErr result (Rose self.old.faults self.new.faults) }

        // Which writes fail, and what each does.
        ensures fails { IsErr result ↔ WriteFails self.old }
        ensures took { IfOk result (λ n. n ≡ min (min (length piece.now) self.old.most)
            (self.old.room - length self.old.written)) }
        ensures ok { IfOk result (λ n. self.new ≡ record self.old {
          written = self.old.written ++ take n piece.now;
          calls = one_more self.old.calls;
        }) }
        ensures err { OnErr result (self.new ≡ record self.old {
          calls = one_more self.old.calls;
          faults = one_more self.old.faults;
        }) }
    {
        let listed = self.calls.count();
        let left = self.room - self.written.len();
        if listed || left == 0 {
            self.faults = self.faults.saturating_add(1);
            return Err(Failed);
        }
        let count = piece.len().min(self.most).min(left);
        self.written.extend_from_slice(&piece[..count]).unwrap();
        Ok(count)
    }
}
