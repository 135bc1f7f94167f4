//! A source and a sink over memory: they expose all their bytes, move them in small pieces, and
//! fail when they are told to.
ghost use Rattle.std.specs.Prelude.{◌≡◌, ◌<◌, ◌≤◌, ◌-◌, ◌↔◌, [], ◌++◌, Some, None};
ghost use Rattle.std.specs.Prelude.{length, take, min, IsTrue, IfOk, OnOk, OnErr, IsErr};
ghost use Rattle.pylock_run.specs.Stream.{one_more};
ghost use Rattle.pylock_run.specs.Stream.Memory.{FailsNext, after_call};

use crate::stream::{IoFault, Sink, Source};
use std::alloc::{AllocError, Global};
use std::marker::Model;

/// Counts a call. It answers whether that call is the one that fails.
fn count_call(fails_in: &mut Option<u64>) -> bool
    ensures fails { IsTrue result ↔ FailsNext fails_in.old }
    ensures after { fails_in.new ≡ after_call fails_in.old }
{
    let Some(calls) = *fails_in else {
        return false;
    };
    *fails_in = if calls > 1 { Some(calls - 1) } else { None };
    calls == 1
}

/// A source over bytes in memory.
#[derive(Drop)]
pub struct Pieces<'a> {
    rest: &'a [u8],
    piece: usize,
    fails_in: Option<u64>,
    failures: u64,
}

impl<'a> Model for Pieces<'a> {
    ghost use Rattle.std.specs.Prelude.{◌≤◌};
    ghost use Rattle.pylock_run.specs.Stream.Memory.{PiecesValue};

    ghost Value = { PiecesValue };

    ghost view = { λ p. record {
      rest = p.rest.now;
      piece = p.piece;
      fails_in = p.fails_in;
      failures = p.failures;
    } };

    ghost invariant = { λ p. 1 ≤ p.piece };
}

impl<'a> Pieces<'a> {
    /// Gives `bytes`, at most `piece` of them at each call. The call with the number `fail_at`,
    /// counted from 1, fails.
    pub fn new(bytes: &'a [u8], piece: usize, fail_at: Option<u64>) -> Pieces<'a>
        requires { 1 ≤ piece }
        ensures { result ≡ record {
          rest = bytes.entry.now;
          piece = piece;
          fails_in = fail_at;
          failures = 0;
        } }
    {
        Pieces {
            rest: bytes,
            piece,
            fails_in: fail_at,
            failures: 0,
        }
    }
}

impl<'a> Source for Pieces<'a> {
    ghost value = { λ p. record { rest = Some p.rest; failures = p.failures } };

    fn read(&mut self, buf: &mut [u8]) -> Result<usize, IoFault>
        ensures fails { IsErr result ↔ FailsNext self.old.fails_in }
        ensures count { IfOk result (λ n. n
            ≡ min (min (length self.old.rest) (length buf.new)) self.old.piece) }
        ensures given { IfOk result (λ n. self.old.rest ≡ take n buf.new ++ self.new.rest) }
        ensures end { IfOk result (λ n. n ≡ 0 → 0 < length buf.new → self.new.rest ≡ []) }
        ensures ok { OnOk result (self.new ≡ record self.old {
          rest = self.new.rest;
          fails_in = after_call self.old.fails_in;
        }) }
        ensures err { OnErr result (self.new ≡ record self.old {
          fails_in = None;
          failures = one_more self.old.failures;
        }) }
    {
        if count_call(&mut self.fails_in) {
            self.failures = self.failures.saturating_add(1);
            return Err(IoFault);
        }
        let count = self.rest.len().min(buf.len()).min(self.piece);
        let (given, rest) = self.rest.split_at(count);
        buf[..count].copy_from_slice(given);
        self.rest = rest;
        Ok(count)
    }
}

/// A sink over memory that it took when it was made.
pub struct Room {
    bytes: Vec<u8>,
    capacity: usize,
    piece: usize,
    fails_in: Option<u64>,
    failures: u64,
}

impl Model for Room {
    ghost use Rattle.std.specs.Prelude.{◌≤◌, vec_len, vec_capacity};
    ghost use Rattle.pylock_run.specs.Stream.Memory.{RoomValue};

    ghost Value = { RoomValue };

    ghost view = { λ r. record {
      held = r.bytes.items;
      capacity = r.capacity;
      piece = r.piece;
      fails_in = r.fails_in;
      failures = r.failures;
    } };

    ghost invariant = { λ r. (vec_len r.bytes ≤ r.capacity) × (r.capacity ≤ vec_capacity r.bytes) };
}

impl Drop for Room {
    fn drop(self) {
        let Room {
            bytes: _,
            capacity: _,
            piece: _,
            fails_in: _,
            failures: _,
        } = self;
    }
}

impl Room {
    /// Holds `room` bytes at most, and takes at most `piece` of them at each call. The call with
    /// the number `fail_at`, counted from 1, fails. All the memory is taken here.
    pub fn new(
        alloc: Global,
        capacity: usize,
        piece: usize,
        fail_at: Option<u64>,
    ) -> Result<Room, AllocError>
        ensures { IfOk result (λ r. r ≡ record {
          held = [];
          capacity = capacity;
          piece = piece;
          fails_in = fail_at;
          failures = 0;
        }) }
    {
        Ok(Room {
            bytes: Vec::with_capacity(alloc, capacity)?,
            capacity,
            piece,
            fails_in: fail_at,
            failures: 0,
        })
    }

    /// The bytes taken so far.
    pub fn bytes(&self) -> &[u8]
        ensures { result.now ≡ self.now.held }
    {
        &self.bytes
    }
}

impl Sink for Room {
    ghost value = { λ r. record { held = Some r.held; failures = r.failures } };

    fn write(&mut self, piece: &[u8]) -> Result<usize, IoFault>
        ensures fails { IsErr result ↔ FailsNext self.old.fails_in }
        ensures count { IfOk result (λ n. n ≡ min (min (length piece.now) self.old.piece)
            (self.old.capacity - length self.old.held)) }
        ensures ok { IfOk result (λ n. self.new ≡ record self.old {
          held = self.old.held ++ take n piece.now;
          fails_in = after_call self.old.fails_in;
          failures = self.new.failures;
        }) }
        ensures counted { IfOk result (λ n. (n ≡ 0 → length piece.now ≡ 0)
            → self.new.failures ≡ self.old.failures) }
        ensures stuck { IfOk result (λ n. n ≡ 0 → 0 < length piece.now
            → self.new.failures ≡ one_more self.old.failures) }
        ensures err { OnErr result (self.new ≡ record self.old {
          fails_in = None;
          failures = one_more self.old.failures;
        }) }
    {
        if count_call(&mut self.fails_in) {
            self.failures = self.failures.saturating_add(1);
            return Err(IoFault);
        }
        let space = self.capacity - self.bytes.len();
        let count = piece.len().min(self.piece).min(space);
        let Ok(()) = self.bytes.extend_from_slice(&piece[..count]) else {
            unreachable!()
        };
        if count == 0 && !piece.is_empty() {
            self.failures = self.failures.saturating_add(1);
        }
        Ok(count)
    }
}
