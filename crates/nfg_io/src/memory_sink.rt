//! Output in memory.
ghost use Rattle.std.specs.Prelude.{◌≡◌, ◌≤◌, ◌<◌, [], length, take, min, Some, IfOk, OnOk, OnErr};
ghost use Rattle.std.specs.Prelude.{is_ok, is_err};
ghost use Rattle.std.specs.FinSet.{insert};
ghost use Rattle.nfg_io.specs.Causes.{HasCause};
ghost use Rattle.nfg_io.specs.Sink.{Grew};
ghost use Rattle.nfg_io.specs.Calls.{no_calls, after_call};
ghost use Rattle.nfg_io.specs.Memory.{room_left, writes};

use crate::calls::Calls;
use crate::{Failed, Sink};
use std::alloc::{AllocError, Global};
use std::marker::Model;

/// Output in memory. It takes at most `room` bytes in all, and at most `step` in one write.
#[derive(Drop)]
pub struct MemorySink {
    taken: Vec<u8>,
    step: usize,
    room: usize,
    calls: Calls,
}

impl Model for MemorySink {
    ghost use Rattle.std.specs.Prelude.{◌≤◌, vec_len, vec_capacity};
    ghost use Rattle.nfg_io.specs.Codes.{sink_code};
    ghost use Rattle.nfg_io.specs.Memory.{SinkInMemory};
    ghost use Rattle.nfg_io.specs.Room.{HasRoom};

    ghost Value = { SinkInMemory };

    ghost coded = { sink_code };

    ghost view = { λ m. record {
      taken = m.taken.items;
      step = m.step;
      room = m.room;
      calls = m.calls;
    } };

    ghost invariant = { λ m. HasRoom m.step (vec_len m.taken) m.room (vec_capacity m.taken) };
}

impl MemorySink {
    /// Reserves `room` bytes, so that no write needs memory.
    pub fn new(alloc: Global, step: usize, room: usize) -> Result<MemorySink, AllocError>
        requires { 1 ≤ step }
        ensures { IfOk result (λ sink. sink ≡ record {
          taken = [];
          step = step;
          room = room;
          calls = no_calls;
        }) }
    {
        Ok(MemorySink {
            taken: Vec::with_capacity(alloc, room)?,
            step,
            room,
            calls: Calls::new(alloc),
        })
    }

    /// Makes the write with this number fail. Writes are counted from 0.
    pub fn fail_at(&mut self, call: u64) -> Result<(), AllocError>
        ensures ok { OnOk result (self.new ≡ record self.old {
          calls = record self.old.calls { failing = insert self.old.calls.failing call };
        }) }
        ensures err { OnErr result (self.new ≡ self.old) }
    {
        self.calls.fail_at(call)
    }

    /// The bytes taken so far.
    pub fn taken(&self) -> &[u8]
        ensures { result.now ≡ self.now.taken }
    {
        &self.taken
    }
}

impl Sink for MemorySink {
    ghost state = { λ m. record { faults = m.calls.faults; taken = Some m.taken } };

    fn write(&mut self, piece: &[u8]) -> Result<usize, Failed>
        requires { 0 < length piece.now }
        ensures some { IfOk result (λ count. 0 < count) }
        ensures bound { IfOk result (λ count. count ≤ length piece.now) }
        ensures taken { IfOk result (λ count.
            Grew (Some self.old.taken) (Some self.new.taken) (take count piece.now)) }
        ensures unchanged { OnErr result (Some self.new.taken ≡ Some self.old.taken) }
        ensures never_falls { self.old.calls.faults ≤ self.new.calls.faults }
        ensures cause { HasCause self.old.calls.faults self.new.calls.faults result }

        // It fails exactly at a number given to `fail_at` and where no room is left.
        ensures exact { is_ok result ≡ writes self.old }
        ensures count { IfOk result (λ count.
            count ≡ min (min self.old.step (length piece.now)) (room_left self.old)) }
        ensures after { self.new ≡ record self.old {
          taken = self.new.taken;
          calls = after_call (is_err result) self.old.calls;
        } }
    {
        let count = self.step.min(piece.len()).min(self.room - self.taken.len());
        if self.calls.fails_next() || count == 0 {
            self.calls.count(true);
            return Err(Failed);
        }
        self.calls.count(false);
        match self.taken.extend_from_slice(&piece[..count]) {
            Ok(()) => Ok(count),
            Err(_) => unreachable!(),
        }
    }
}
