// A source and a sink in memory, which move pieces of a chosen size and fail at chosen calls.
ghost use Rattle.std.specs.Prelude.{◌≡◌, ◌≤◌, [], false, IfOk, length};
ghost use Rattle.std.specs.Io.{ReadsAtMost};
ghost use Rattle.plan_io.specs.Streams.{TakesSome, after_read, after_write};
ghost use Rattle.plan_io.specs.MemoryStreams.{Feed, Store, IsRead, IsWrite, feed_past, store_past};

use crate::streams::is_end;
use crate::{Failed, Memory, Sink, Source};
use std::alloc::Global;
use std::marker::Model;

/// A source over bytes in memory. Clauses see the bytes that are left, too.
#[derive(Drop)]
pub struct MemSource {
    bytes: Vec<u8>,
    at: usize,
    most: usize,
    fails_at: Vec<u64>,
    count: u64,
    ended: bool,
    failures: u64,
}

impl Model for MemSource {
    ghost use Rattle.std.specs.Prelude.{◌≤◌, length, take, drop};
    ghost use Rattle.plan_io.specs.MemoryStreams.{Feed};

    ghost Value = { Feed };

    ghost view = { λ s. record { given = take s.at s.bytes.items; left = drop s.at s.bytes.items; piece = s.most; failing = s.fails_at.items; calls = s.count; ended = s.ended; faults = s.failures } };

    ghost invariant = { λ s. (s.at ≤ length s.bytes.items) × (1 ≤ s.most) };
}

impl MemSource {
    /// A source of these bytes that gives at most `piece` bytes a call, and fails at the calls of these numbers, from
    /// 1.
    pub fn new(bytes: Vec<u8>, piece: usize, failing: Vec<u64>) -> MemSource
        requires { 1 ≤ piece }
        ensures { result ≡ record { given = []; left = bytes.items; piece = piece; failing = failing.items; calls = 0; ended = false; faults = 0 } }
    {
        MemSource {
            bytes,
            at: 0,
            most: piece,
            fails_at: failing,
            count: 0,
            ended: false,
            failures: 0,
        }
    }
}

impl Source for MemSource {
    ghost past = { λ s. feed_past s };

    /// Gives as many bytes as the piece, the place and what is left allow. Fails exactly at the calls that it was told.
    fn read(&mut self, into: &mut [u8]) -> Result<usize, Failed>
        ensures bound { ReadsAtMost result into.new }
        ensures past { feed_past self.new ≡ after_read (feed_past self.old) into.new result }
        ensures exact { IsRead self.old (length into.old) self.new result }
    {
        self.count = self.count.saturating_add(1);
        if self.fails_at.contains(&self.count) {
            self.ended = false;
            self.failures = self.failures.saturating_add(1);
            return Err(Failed);
        }
        let count = self.most.min(into.len()).min(self.bytes.len() - self.at);
        into[..count].copy_from_slice(&self.bytes[self.at..self.at + count]);
        self.at += count;
        self.ended = is_end(count, into);
        Ok(count)
    }
}

/// A sink that keeps what it takes in memory.
#[derive(Drop)]
pub struct MemSink {
    bytes: Vec<u8>,
    space: usize,
    most: usize,
    fails_at: Vec<u64>,
    count: u64,
    failures: u64,
}

impl Model for MemSink {
    ghost use Rattle.std.specs.Prelude.{◌≤◌, vec_len, vec_capacity};
    ghost use Rattle.plan_io.specs.MemoryStreams.{Store};

    ghost Value = { Store };

    ghost view = { λ s. record { taken = s.bytes.items; room = s.space; piece = s.most; failing = s.fails_at.items; calls = s.count; faults = s.failures } };

    ghost invariant = { λ s. (vec_len s.bytes ≤ s.space) × (s.space ≤ vec_capacity s.bytes) × (1 ≤ s.most) };
}

impl MemSink {
    /// A sink with room for `room` bytes, which it claims at once. It takes at most `piece` bytes a call, and fails at
    /// the calls of these numbers, from 1, and where no room is left.
    pub fn new(
        alloc: Global,
        room: usize,
        piece: usize,
        failing: Vec<u64>,
    ) -> Result<MemSink, Memory>
        requires { 1 ≤ piece }
        ensures { IfOk result (λ s. s ≡ record { taken = []; room = room; piece = piece; failing = failing.items; calls = 0; faults = 0 }) }
    {
        Ok(MemSink {
            bytes: Vec::with_capacity(alloc, room)?,
            space: room,
            most: piece,
            fails_at: failing,
            count: 0,
            failures: 0,
        })
    }

    /// The bytes that were written.
    pub fn written(&self) -> &[u8]
        ensures { result.now ≡ self.now.taken }
    {
        &self.bytes
    }
}

impl Sink for MemSink {
    ghost past = { λ s. store_past s };

    /// Takes as many bytes as its piece, these bytes and the room that is left allow. Fails exactly at the calls that it
    /// was told, and where there are bytes to write and no room is left.
    fn write(&mut self, piece: &[u8]) -> Result<usize, Failed>
        ensures bound { TakesSome result piece.now }
        ensures past { store_past self.new ≡ after_write (store_past self.old) piece.now result }
        ensures exact { IsWrite self.old piece.now self.new result }
    {
        self.count = self.count.saturating_add(1);
        let left = self.space - self.bytes.len();
        if self.fails_at.contains(&self.count) || (left == 0 && !piece.is_empty()) {
            self.failures = self.failures.saturating_add(1);
            return Err(Failed);
        }
        let count = self.most.min(piece.len()).min(left);
        if self.bytes.extend_from_slice(&piece[..count]).is_err() {
            unreachable!();
        }
        Ok(count)
    }
}
