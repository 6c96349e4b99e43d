// Files in memory, for tests and generated input, which fail at the calls that are named alone.

ghost use Rattle.std.specs.Prelude.{◌≡◌, ◌≢◌, ◌≤◌, ◌<◌, ◌↔◌, length, Option, None, Some, Ok, Err};
ghost use Rattle.std.specs.Prelude.{IsSomeAnd, IsErrOf, OnOk, OnErr, IsTrue};
ghost use Rattle.std.specs.FinMap as map;
ghost use Rattle.std.specs.FinSet as set;
ghost use Rattle.std.specs.Ordering.{nat_cmp};
ghost use Rattle.std.specs.Cmp.Lexicographic.{slice_cmp};
ghost use Rattle.std.specs.Option.{option_copied};
ghost use Rattle.flex_io.specs.Outside.{bytes_at, next_count};
ghost use Rattle.flex_io.specs.Outside.{AppendsFile, HasFailed, HasFileWithin};
ghost use Rattle.flex_io.specs.Answers.{faults_after_fetch};

use crate::error::FetchError;
use crate::files::{Files, Got};
use flex_model::{Listed, NoMemory, Text};
use std::alloc::Global;
use std::collections::VecDeque;
use std::marker::Model;

#[derive(Drop)]
struct StoredFile {
    path: Text,
    bytes: Listed<u8>,
}

impl Model for StoredFile {
    ghost use Rattle.std.specs.Prelude.{ℕ, List};

    ghost Value = { List ℕ × List ℕ };

    ghost view = { λ f. (f.path, f.bytes) };
}

/// Files in memory, which tell their bytes.
#[derive(Drop)]
pub struct MemFiles {
    alloc: Global,
    // The newest first. A path that is added again hides its older bytes.
    files: VecDeque<StoredFile>,
    failing: Vec<u64>,
    calls: u64,
    faults: u64,
}

impl Model for MemFiles {
    ghost use Rattle.std.specs.FinMap as map;
    ghost use Rattle.std.specs.FinSet as set;
    ghost use Rattle.flex_io.specs.Memory.{MemoryFiles, memory_files_code};

    ghost Value = { MemoryFiles };

    ghost coded = { memory_files_code };

    ghost view = { λ m. record {
      files = map.from_entries m.files.items;
      failing = set.from_list m.failing.items;
      calls = m.calls;
      faults = m.faults;
    } };
}

impl MemFiles {
    /// No file, none of whose fetches will fail.
    pub fn new(alloc: Global) -> MemFiles
        ensures { result ≡ record {
          files = map.empty;
          failing = set.empty;
          calls = 0;
          faults = 0;
        } }
    {
        MemFiles {
            alloc,
            files: VecDeque::new(alloc),
            failing: Vec::new(alloc),
            calls: 0,
            faults: 0,
        }
    }

    /// Sets the bytes of a path.
    pub fn add(&mut self, path: &str, bytes: &[u8]) -> Result<(), NoMemory>
        ensures ok { OnOk result (self.new ≡ record self.old {
          files = map.insert self.old.files path.now bytes.now;
        }) }
        ensures err { OnErr result (self.new ≡ self.old) }
    {
        let mut stored = Text::new(self.alloc);
        stored.append(path)?;
        let bytes = Listed::from_vec(bytes.to_vec(self.alloc)?);
        self.files.push_front(StoredFile {
            path: stored,
            bytes,
        })?;
        Ok(())
    }

    /// Lets the fetch with this number fail, counted from 1 over all fetches since `new`.
    pub fn fail_at(&mut self, call: u64) -> Result<(), NoMemory>
        ensures ok { OnOk result (self.new ≡ record self.old {
          failing = set.insert self.old.failing call;
        }) }
        ensures err { OnErr result (self.new ≡ self.old) }
    {
        self.failing.push(call)?;
        Ok(())
    }

    fn bytes_of(&self, path: &str) -> Option<&[u8]>
        ensures { option_copied result ≡ bytes_at self.now.files path.now }
    {
        for file in &self.files {
            if path == file.path.as_str() {
                return Some(file.bytes.as_slice());
            }
        }
        None
    }

    fn fails_at(&self, call: u64) -> bool
        ensures { result ≡ set.contains self.now.failing call }
    {
        self.failing.contains(&call)
    }
}

impl Files for MemFiles {
    ghost told = { λ m. Some m.files };

    ghost faults = { λ m. m.faults };

    ghost is_steady = { λ m. m.failing ≡ set.empty };

    fn fetch(
        &mut self,
        _alloc: Global,
        path: &str,
        limit: u64,
        into: &mut Vec<u8>,
    ) -> Result<Got, FetchError>
        ensures whole { result ≡ Ok Got.Whole
            → AppendsFile (Some self.old.files) path.now limit into.old.items into.new.items }
        ensures unchanged { result ≢ Ok Got.Whole → into.new.items ≡ into.old.items }
        ensures absent { OnOk result
            ((result ≡ Ok Got.Absent) ↔ (bytes_at self.old.files path.now ≡ None)) }
        ensures too_large { OnOk result ((result ≡ Ok Got.TooLarge)
            ↔ IsSomeAnd (bytes_at self.old.files path.now) (λ bytes. limit < length bytes)) }

        ensures memory { IsErrOf result FetchError.NoMemory
            → HasFileWithin path.now limit self.old.files }

        // It fails exactly at the calls that were named. Each call counts, whatever its answer.
        ensures failed { IsErrOf result FetchError.Failed
            ↔ IsTrue (set.contains self.old.failing (next_count self.old.calls)) }
        ensures called { self.new ≡ record self.old {
          calls = next_count self.old.calls;
          faults = faults_after_fetch result self.old.faults;
        } }

        ensures told { self.new.files ≡ self.old.files }
        ensures counted { self.old.faults ≤ self.new.faults }
        ensures cause { IsErrOf result FetchError.Failed
            → HasFailed self.old.faults self.new.faults }
        ensures answered { result ≢ Err FetchError.Failed → self.new.faults ≡ self.old.faults }
        ensures steady { self.old.failing ≡ set.empty
            → (self.new.failing ≡ set.empty) × (self.new.faults ≡ self.old.faults)
            × (result ≢ Err FetchError.Failed) }
    {
        self.calls = self.calls.saturating_add(1);
        if self.fails_at(self.calls) {
            self.faults = self.faults.saturating_add(1);
            return Err(FetchError::Failed);
        }
        let Some(bytes) = self.bytes_of(path) else {
            return Ok(Got::Absent);
        };
        if bytes.len() as u64 > limit {
            return Ok(Got::TooLarge);
        }
        into.extend_from_slice(bytes)?;
        Ok(Got::Whole)
    }
}
