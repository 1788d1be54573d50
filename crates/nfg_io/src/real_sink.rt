//! Standard output.
ghost use Rattle.std.specs.Prelude.{◌≡◌, ◌≤◌, None, IfSome, length};

use crate::{Failed, Sink};
use std::io::ErrorKind;
use std::marker::Model;

/// Standard output. It doesn't tell the bytes, and each write goes through at once.
#[derive(Drop)]
pub struct RealSink<'a, R: Print> {
    rt: &'a R,
    faults: u64,
}

impl<'a, R: Print> Model for RealSink<'a, R> {
    ghost use Rattle.std.specs.Prelude.{ℕ};

    ghost Value = { ℕ };

    ghost view = { λ s. s.faults };
}

impl<'a, R: Print> RealSink<'a, R> {
    pub fn new(rt: &'a R) -> RealSink<'a, R>
        ensures { result ≡ 0 }
    {
        RealSink { rt, faults: 0 }
    }
}

impl<'a, R: Print> Sink for RealSink<'a, R> {
    ghost state = { λ faults. record { faults = faults; taken = None } };

    fn write(&mut self, piece: &[u8]) -> Result<usize, Failed> {
        match write_some(self.rt, piece) {
            // a caller that goes on until all is taken would go on for ever
            Some(count) if count != 0 => Ok(count),
            _ => {
                self.faults = self.faults.saturating_add(1);
                Err(Failed)
            }
        }
    }
}

// Writes, and again where a signal came between.
fn write_some<R: Print>(rt: &R, piece: &[u8]) -> Option<usize>
    ensures bound { IfSome result (λ count. count ≤ length piece.now) }
{
    for _ in 0..u64::MAX {
        match rt.write_some(piece) {
            Ok(count) => return Some(count),
            Err(error) => {
                if error.kind() != ErrorKind::Interrupted {
                    return None;
                }
            }
        }
    }
    None
}
