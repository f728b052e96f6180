// A source and a sink over memory, whose listed calls fail.
ghost use Rattle.std.specs.Prelude.{◌≡◌, ◌<◌, ◌≤◌, ◌↔◌, ◌⊎◌, ◌-◌, IsErr, IfOk, OnErr, Contains, length, Some, min, []};
ghost use Rattle.std.specs.Io.{ReadsAtMost, WritesAtMost};
ghost use Rattle.std.specs.Io.KnownBytes.{ReadConsumes, WriteAppends};
ghost use Rattle.ct_io.specs.Faults.{IsCounted, next_count};

use crate::NoMemory;
use crate::sink::Sink;
use crate::source::{Failed, Source};
use std::alloc::Global;
use std::marker::Model;

/// A source over memory: each read gives at most `step` bytes, and the calls whose numbers are listed fail.
#[derive(Drop)]
pub struct MemSource {
    bytes: Vec<u8>,
    at: usize,
    step: usize,
    fails: Vec<u64>,
    calls: u64,
    faults: u64,
}

impl Model for MemSource {
    ghost use Rattle.std.specs.Prelude.{◌<◌, ◌≤◌, drop, length};
    ghost use Rattle.ct_io.specs.Memory.{Stock};

    ghost Value = { Stock };

    ghost view = { λ s. record { left = drop s.at s.bytes.items; step = s.step; fails = s.fails.items; calls = s.calls; faults = s.faults } };

    ghost invariant = { λ s. (s.at ≤ length s.bytes.items) × (0 < s.step) };
}

impl MemSource {
    pub fn new(bytes: Vec<u8>, step: usize, fails: Vec<u64>) -> MemSource
        requires { 0 < step }
        ensures { result ≡ record { left = bytes.items; step = step; fails = fails.items; calls = 0; faults = 0 } }
    {
        MemSource {
            bytes,
            at: 0,
            step,
            fails,
            calls: 0,
            faults: 0,
        }
    }

    /// The bytes not yet read.
    pub fn unread(&self) -> &[u8]
        ensures { result.now ≡ self.now.left }
    {
        &self.bytes[self.at..]
    }
}

impl Source for MemSource {
    ghost left = { λ s. Some s.left };

    ghost faults = { λ s. s.faults };

    fn read(&mut self, piece: &mut [u8]) -> Result<usize, Failed>
        ensures bound { ReadsAtMost result piece.new }
        ensures left { ReadConsumes (Some self.old.left) (Some self.new.left) result piece.new }
        ensures faults { IsCounted self.old.faults self.new.faults result }
        ensures fails { IsErr result ↔ Contains self.old.fails self.old.calls }
        ensures value { IfOk result (λ n. n ≡ min (min (length self.old.left) (length piece.old)) self.old.step) }
        ensures unchanged { (self.new.step ≡ self.old.step) × (self.new.fails ≡ self.old.fails) }
        ensures calls { self.new.calls ≡ next_count self.old.calls }
        ensures counts { OnErr result (self.new.faults ≡ next_count self.old.faults) }
    {
        let call = self.calls;
        self.calls = call.saturating_add(1);
        if self.fails.contains(&call) {
            self.faults = self.faults.saturating_add(1);
            return Err(Failed);
        }
        let rest = self.bytes.split_at(self.at).1;
        let count = rest.len().min(piece.len()).min(self.step);
        piece[..count].copy_from_slice(&rest[..count]);
        self.at += count;
        Ok(count)
    }
}

/// A sink over memory: each write takes at most `step` bytes and at most what is left of the space, and the
/// calls whose numbers are listed fail.
#[derive(Drop)]
pub struct MemSink {
    taken: Vec<u8>,
    space: usize,
    step: usize,
    fails: Vec<u64>,
    calls: u64,
    faults: u64,
}

impl Model for MemSink {
    ghost use Rattle.std.specs.Prelude.{◌<◌, ◌≤◌, vec_len, vec_capacity};
    ghost use Rattle.ct_io.specs.Memory.{Store};

    ghost Value = { Store };

    ghost view = { λ s. record { taken = s.taken.items; space = s.space; step = s.step; fails = s.fails.items; calls = s.calls; faults = s.faults } };

    ghost invariant = { λ s. (0 < s.step) × (s.space ≤ vec_capacity s.taken) × (vec_len s.taken ≤ s.space) };
}

impl MemSink {
    pub fn new(
        alloc: Global,
        space: usize,
        step: usize,
        fails: Vec<u64>,
    ) -> Result<MemSink, NoMemory>
        requires { 0 < step }
        ensures { IfOk result (λ sink. sink ≡ record { taken = []; space = space; step = step; fails = fails.items; calls = 0; faults = 0 }) }
    {
        let taken = Vec::with_capacity(alloc, space)?;
        Ok(MemSink {
            taken,
            space,
            step,
            fails,
            calls: 0,
            faults: 0,
        })
    }

    /// The bytes taken so far.
    pub fn written(&self) -> &[u8]
        ensures { result.now ≡ self.now.taken }
    {
        self.taken.as_slice()
    }
}

impl Sink for MemSink {
    ghost taken = { λ s. Some s.taken };

    ghost faults = { λ s. s.faults };

    fn write(&mut self, piece: &[u8]) -> Result<usize, Failed>
        ensures bound { WritesAtMost result piece.now }
        ensures some { IfOk result (λ n. 0 < length piece.now → 0 < n) }
        ensures taken { WriteAppends (Some self.old.taken) (Some self.new.taken) result piece.now }
        ensures faults { IsCounted self.old.faults self.new.faults result }
        ensures fails { IsErr result ↔ (Contains self.old.fails self.old.calls ⊎ ((0 < length piece.now) × (self.old.space ≡ length self.old.taken))) }
        ensures value { IfOk result (λ n. n ≡ min (min (length piece.now) (self.old.space - length self.old.taken)) self.old.step) }
        ensures unchanged { (self.new.step ≡ self.old.step) × (self.new.fails ≡ self.old.fails) × (self.new.space ≡ self.old.space) }
        ensures calls { self.new.calls ≡ next_count self.old.calls }
        ensures counts { OnErr result (self.new.faults ≡ next_count self.old.faults) }
    {
        let call = self.calls;
        self.calls = call.saturating_add(1);
        let room = self.space - self.taken.len();
        if self.fails.contains(&call) || (room == 0 && !piece.is_empty()) {
            self.faults = self.faults.saturating_add(1);
            return Err(Failed);
        }
        let count = piece.len().min(room).min(self.step);
        let _ = self.taken.extend_from_slice(&piece[..count]);
        Ok(count)
    }
}
