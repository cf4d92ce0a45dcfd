ghost use Rattle.std.specs.Prelude.{◌≡◌, ◌≤◌, [], Some, IfOk, max, min, vec_len, vec_capacity};
ghost use Rattle.hood_io.specs.Causes.{HasCause};
ghost use Rattle.hood_io.specs.Sinks.{Appends, Takes, taken_of};

use crate::memory::NoMemory;
use crate::sink::{Failed, Sink};
use std::alloc::Global;

/// A sink in memory, with room for a number of bytes that stays, and a greatest number of bytes that one write takes.
#[derive(Drop)]
pub struct MemSink {
    bytes: Vec<u8>,
    room: usize,
    most: usize,
    faults: u64,
    ghost fits: { vec_len bytes ≤ room },
    ghost reserved: { room ≤ vec_capacity bytes },
    ghost some: { 1 ≤ most },
}

impl MemSink {
    ghost use Rattle.hood_io.specs.MemSink.{bytes_of, room_of, most_of, faults_of};

    /// An empty sink with room for `room` bytes, and no faults. All of its memory is taken here. A write takes as much as there is room
    /// left.
    pub fn new(alloc: Global, room: usize) -> Result<MemSink, NoMemory>
        ensures bytes { IfOk result (λ s. bytes_of s ≡ []) }
        ensures room { IfOk result (λ s. room_of s ≡ room) }
        ensures most { IfOk result (λ s. most_of s ≡ max room 1) }
        ensures faults { IfOk result (λ s. faults_of s ≡ 0) }
    {
        MemSink::piecewise(alloc, room, room.max(1))
    }

    /// The same, but a write takes at most `most` bytes, which is at least 1.
    pub fn piecewise(alloc: Global, room: usize, most: usize) -> Result<MemSink, NoMemory>
        requires { 1 ≤ most }
        ensures bytes { IfOk result (λ s. bytes_of s ≡ []) }
        ensures room { IfOk result (λ s. room_of s ≡ room) }
        ensures most { IfOk result (λ s. most_of s ≡ most) }
        ensures faults { IfOk result (λ s. faults_of s ≡ 0) }
    {
        let bytes = Vec::with_capacity(alloc, room)?;
        Ok(MemSink {
            bytes,
            room,
            most,
            faults: 0,
        })
    }

    /// The bytes written so far.
    pub fn bytes(&self) -> &[u8]
        ensures { result.now ≡ bytes_of self.now }
    {
        self.bytes.as_slice()
    }
}

impl Sink for MemSink {
    ghost use Rattle.hood_io.specs.MemSink.{bytes_of, room_of, most_of, room_left, faults_of, TakesAll, counted};

    ghost written = { λ s. Some (bytes_of s) };

    ghost faults = { faults_of };

    /// Takes as much of the piece as there is room left, and as one write takes at most. It fails exactly where no room is left and
    /// the piece isn't empty; the count of faults then rises by one, and else stays.
    fn write(&mut self, bytes: &[u8]) -> Result<usize, Failed>
        ensures cause { HasCause (faults_of self.old) (faults_of self.new) result }
        ensures takes { Takes bytes.now result }
        ensures appends { Appends (Some (bytes_of self.old)) (Some (bytes_of self.new)) (taken_of bytes.now result) }

        // What a sink in memory says beyond the others.
        ensures all { TakesAll bytes.now (min (room_left self.old) (most_of self.old)) result }
        ensures room { room_of self.new ≡ room_of self.old }
        ensures most { most_of self.new ≡ most_of self.old }
        ensures counted { faults_of self.new ≡ counted result (faults_of self.old) }
    {
        let left = self.room - self.bytes.len();
        let count = bytes.len().min(left.min(self.most));
        if count == 0 && !bytes.is_empty() {
            self.faults = self.faults.saturating_add(1);
            return Err(Failed);
        }
        let (front, _) = bytes.split_at(count);
        match self.bytes.extend_from_slice(front) {
            Ok(()) => Ok(count),
            // The room was reserved when the sink was made.
            Err(_) => unreachable!(),
        }
    }
}
