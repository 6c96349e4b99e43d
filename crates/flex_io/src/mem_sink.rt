// A sink in memory, for tests, which fails at the calls that are named alone.

ghost use Rattle.std.specs.Prelude.{◌≡◌, ◌≢◌, ◌≤◌, [], ◌++◌, take, Option, None, Some, Err};
ghost use Rattle.std.specs.Prelude.{IsSomeAnd, IsErrOf, OnOk, OnErr};
ghost use Rattle.std.specs.FinMap as map;
ghost use Rattle.std.specs.Ordering.{nat_cmp};
ghost use Rattle.flex_io.specs.Outside.{HasFailed, Gains, IsBeginning, next_count};
ghost use Rattle.flex_io.specs.Answers.{faults_after_put};

use crate::error::PutError;
use crate::sink::Sink;
use flex_model::NoMemory;
use std::alloc::Global;
use std::collections::VecDeque;
use std::marker::Model;

/// A sink in memory, which tells what was put.
#[derive(Drop)]
pub struct MemSink {
    bytes: Vec<u8>,
    // The newest first: which call fails, and how much of its piece it keeps.
    failing: VecDeque<(u64, u64)>,
    calls: u64,
    faults: u64,
}

impl Model for MemSink {
    ghost use Rattle.std.specs.FinMap as map;
    ghost use Rattle.flex_io.specs.Memory.{MemorySink, memory_sink_code};

    ghost Value = { MemorySink };

    ghost coded = { memory_sink_code };

    ghost view = { λ s. record {
      bytes = s.bytes.items;
      failing = map.from_entries s.failing.items;
      calls = s.calls;
      faults = s.faults;
    } };
}

impl MemSink {
    /// Nothing was put, and no put will fail.
    pub fn new(alloc: Global) -> MemSink
        ensures { result ≡ record { bytes = []; failing = map.empty; calls = 0; faults = 0 } }
    {
        MemSink {
            bytes: Vec::new(alloc),
            failing: VecDeque::new(alloc),
            calls: 0,
            faults: 0,
        }
    }

    /// Lets the put with this number fail, counted from 1 over all puts since `new`, after it has
    /// appended the first `keep` bytes of its piece, or all of a shorter one.
    pub fn fail_at(&mut self, call: u64, keep: u64) -> Result<(), NoMemory>
        ensures ok { OnOk result (self.new ≡ record self.old {
          failing = map.insert self.old.failing call keep;
        }) }
        ensures err { OnErr result (self.new ≡ self.old) }
    {
        self.failing.push_front((call, keep))?;
        Ok(())
    }

    fn kept_at(&self, call: u64) -> Option<u64>
        ensures { result ≡ map.get self.now.failing call }
    {
        for &(number, keep) in &self.failing {
            if number == call {
                return Some(keep);
            }
        }
        None
    }

    /// What was put.
    pub fn bytes(&self) -> &[u8]
        ensures { result.now ≡ self.now.bytes }
    {
        self.bytes.as_slice()
    }
}

impl Sink for MemSink {
    ghost contents = { λ s. Some s.bytes };

    ghost faults = { λ s. s.faults };

    fn put(&mut self, piece: &[u8]) -> Result<(), PutError>
        ensures whole { OnOk result (self.new.bytes ≡ self.old.bytes ++ piece.now) }
        ensures nothing { IsErrOf result PutError.NoMemory → self.new.bytes ≡ self.old.bytes }

        // Unless memory runs out, it fails exactly at the calls that were named, and keeps as much
        // of its piece as they say.
        ensures succeeds { OnOk result
            (map.get self.old.failing (next_count self.old.calls) ≡ None) }
        ensures failed { IsErrOf result PutError.Failed
            → IsSomeAnd (map.get self.old.failing (next_count self.old.calls))
            (λ keep. self.new.bytes ≡ self.old.bytes ++ take keep piece.now) }

        // Each call counts, whatever its answer.
        ensures called { self.new ≡ record self.old {
          bytes = self.new.bytes;
          calls = next_count self.old.calls;
          faults = faults_after_put result self.old.faults;
        } }

        ensures part { IsErrOf result PutError.Failed
            → Gains (Some self.old.bytes) (Some self.new.bytes) (IsBeginning piece.now) }
        ensures counted { self.old.faults ≤ self.new.faults }
        ensures cause { IsErrOf result PutError.Failed → HasFailed self.old.faults self.new.faults }
        ensures answered { result ≢ Err PutError.Failed → self.new.faults ≡ self.old.faults }
    {
        self.calls = self.calls.saturating_add(1);
        let Some(keep) = self.kept_at(self.calls) else {
            self.bytes.extend_from_slice(piece)?;
            return Ok(());
        };
        self.bytes.extend_from_slice(beginning_of(piece, keep))?;
        self.faults = self.faults.saturating_add(1);
        Err(PutError::Failed)
    }
}

// The first `keep` bytes of a piece, or all of a shorter one.
fn beginning_of(piece: &[u8], keep: u64) -> &[u8]
    ensures kept { result.now ≡ take keep piece.now }
    ensures beginning { IsBeginning piece.now result.now }
{
    if keep < piece.len() as u64 {
        &piece[..keep as usize]
    } else {
        piece
    }
}
