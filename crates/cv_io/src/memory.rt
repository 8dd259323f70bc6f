//! Sources and sinks in memory.
ghost use Rattle.std.specs.Prelude.{◌≡◌, ◌≢◌, ◌+◌, ◌≤◌, ◌<◌, ◌↔◌, List, ℕ, [], ◌++◌, min, length, take, drop, Some, IsOk, IsErr, IfOk, OnOk, OnErr};
ghost use Rattle.cv_io.specs.Counts.{Rose, last_count, capped, none-counted, capped-counted};
ghost use Rattle.cv_io.specs.Memory.{Numbers, Stream, IsDue, advanced};
ghost use Rattle.cv_io.specs.Streams.{Takes, IsAtEnd, Appends, AppendsPrefix};

use crate::calls::Calls;
use crate::devices::{Failed, Sink, SinkError, Source};
use std::alloc::Global;
use std::marker::Model;

/// Copies as many bytes as fit from the front of one slice to the front of another, and answers how many.
fn copy_front(from: &[u8], into: &mut [u8]) -> usize
    ensures count { result ≡ min (length from.now) (length into.old) }
    ensures front { take result into.new ≡ take result from.now }
{
    let count = from.len().min(into.len());
    into[..count].copy_from_slice(&from[..count]);
    count
}

/// A source over bytes in memory that never fails. Contracts see it as the bytes that are left.
#[derive(Debug, Drop)]
pub struct SteadySource {
    content: Vec<u8>,
    taken: usize,
}

impl Model for SteadySource {
    ghost Value = { List ℕ };

    ghost view = { λ source. drop source.taken source.content.items };

    ghost invariant = { λ source. source.taken ≤ length source.content.items };
}

impl SteadySource {
    /// A source with all these bytes left; it takes no memory.
    pub fn new(content: Vec<u8>) -> SteadySource
        ensures { result ≡ content.items }
    {
        SteadySource { content, taken: 0 }
    }

    /// The bytes that are left; it takes no memory.
    pub fn bytes(&self) -> &[u8]
        ensures { result.now ≡ self.now }
    {
        &self.content[self.taken..]
    }

    /// Reads as many bytes as there are and fit, and answers how many.
    #[tactic(auto, using(crate::proofs::Pieces::drop_pieces))]
    fn take(&mut self, into: &mut [u8]) -> usize
        ensures count { result ≡ min (length self.old) (length into.old) }
        ensures taken { self.old ≡ take result into.new ++ self.new }
    {
        let count = copy_front(&self.content[self.taken..], into);
        self.taken += count;
        count
    }
}

impl Source for SteadySource {
    ghost content = { Some };

    ghost faults = { λ _. 0 };

    ghost counted = { λ _. none-counted };

    fn read(&mut self, into: &mut [u8]) -> Result<usize, Failed>
        ensures never_fails { IsOk result }
        ensures within { IfOk result (λ n. n ≤ length into.old) }
        ensures taken { IfOk result (λ n. Takes (Some self.old) (take n into.new) (Some self.new)) }
        ensures end { result ≡ Ok 0 → 0 < length into.old → self.old ≡ [] }
    {
        Ok(self.take(into))
    }
}

/// A source over bytes in memory, of whose calls those with certain numbers fail. Contracts see it as the bytes
/// that are left, the numbers of its calls and how many failed.
#[derive(Debug, Drop)]
pub struct MemSource {
    left: SteadySource,
    calls: Calls,
    faults: u64,
}

impl Model for MemSource {
    ghost Value = { Stream };

    ghost view = { λ source. record { content = source.left; calls = source.calls; faults = source.faults } };
}

impl MemSource {
    /// A source with all of `content` left, whose calls with the numbers `fails`, counted from 0, fail; it takes no
    /// memory.
    pub fn new(content: Vec<u8>, fails: Vec<u64>) -> MemSource
        ensures { result ≡ record { content = content.items; calls = record { next = 0; fails = fails.items }; faults = 0 } }
    {
        MemSource {
            left: SteadySource::new(content),
            calls: Calls::new(fails),
            faults: 0,
        }
    }
}

impl Source for MemSource {
    ghost content = { λ source. Some source.content };

    ghost faults = { λ source. capped source.faults };

    ghost counted = { λ source. capped-counted source.faults };

    fn read(&mut self, into: &mut [u8]) -> Result<usize, Failed>
        ensures due { IsErr result ↔ IsDue self.old.calls }
        ensures next { self.new.calls ≡ advanced self.old.calls }
        ensures within { IfOk result (λ n. n ≤ length into.old) }
        ensures taken { IfOk result (λ n. Takes (Some self.old.content) (take n into.new) (Some self.new.content)) }
        ensures end { result ≡ Ok 0 → 0 < length into.old → self.old.content ≡ [] }
        ensures kept { OnErr result (self.new.content ≡ self.old.content) }
        ensures failed { OnErr result (self.new.faults ≡ capped (self.old.faults + 1)) }
        ensures quiet { OnOk result (self.new.faults ≡ self.old.faults) }
    {
        if self.calls.begin() {
            self.faults = self.faults.saturating_add(1);
            return Err(Failed);
        }
        Ok(self.left.take(into))
    }
}

/// A sink into memory that never fails but for want of memory. Contracts see it as the bytes that were written.
#[derive(Debug, Drop)]
pub struct SteadySink {
    written: Vec<u8>,
}

impl Model for SteadySink {
    ghost Value = { List ℕ };

    ghost view = { λ sink. sink.written.items };
}

impl SteadySink {
    /// A sink to which nothing was written; it takes no memory and keeps the allocator.
    pub fn new(alloc: Global) -> SteadySink
        ensures { result ≡ [] }
    {
        SteadySink {
            written: Vec::new(alloc),
        }
    }

    /// The bytes that were written; it takes no memory.
    pub fn bytes(&self) -> &[u8]
        ensures { result.now ≡ self.now }
    {
        &self.written
    }
}

impl Sink for SteadySink {
    ghost content = { Some };

    ghost faults = { λ _. 0 };

    ghost counted = { λ _. none-counted };

    fn write(&mut self, bytes: &[u8]) -> Result<(), SinkError>
        ensures ok { OnOk result (self.new ≡ self.old ++ bytes.now) }
        ensures err { OnErr result (self.new ≡ self.old) }
        ensures never_fails { result ≢ Err SinkError.Failed }
    {
        self.written.extend_from_slice(bytes)?;
        Ok(())
    }
}

/// A sink into memory, of whose calls those with certain numbers fail. Contracts see it as the bytes that were
/// written, the numbers of its calls and how many failed.
#[derive(Debug, Drop)]
pub struct MemSink {
    written: SteadySink,
    calls: Calls,
    faults: u64,
}

impl Model for MemSink {
    ghost Value = { Stream };

    ghost view = { λ sink. record { content = sink.written; calls = sink.calls; faults = sink.faults } };
}

impl MemSink {
    /// A sink to which nothing was written, whose calls with the numbers `fails`, counted from 0, fail; it takes no
    /// memory and keeps the allocator.
    pub fn new(alloc: Global, fails: Vec<u64>) -> MemSink
        ensures { result ≡ record { content = []; calls = record { next = 0; fails = fails.items }; faults = 0 } }
    {
        MemSink {
            written: SteadySink::new(alloc),
            calls: Calls::new(fails),
            faults: 0,
        }
    }

    /// The bytes that were written; it takes no memory.
    pub fn bytes(&self) -> &[u8]
        ensures { result.now ≡ self.now.content }
    {
        self.written.bytes()
    }
}

impl Sink for MemSink {
    ghost content = { λ sink. Some sink.content };

    ghost faults = { λ sink. capped sink.faults };

    ghost counted = { λ sink. capped-counted sink.faults };

    fn write(&mut self, bytes: &[u8]) -> Result<(), SinkError>
        ensures due { (result ≡ Err SinkError.Failed) ↔ IsDue self.old.calls }
        ensures next { self.new.calls ≡ advanced self.old.calls }
        ensures ok { OnOk result (self.new.content ≡ self.old.content ++ bytes.now) }
        ensures err { OnErr result (self.new.content ≡ self.old.content) }
        ensures failed { result ≡ Err SinkError.Failed → self.new.faults ≡ capped (self.old.faults + 1) }
        ensures quiet { result ≢ Err SinkError.Failed → self.new.faults ≡ self.old.faults }
    {
        if self.calls.begin() {
            self.faults = self.faults.saturating_add(1);
            return Err(SinkError::Failed);
        }
        self.written.write(bytes)
    }
}
