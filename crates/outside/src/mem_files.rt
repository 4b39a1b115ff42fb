//! Files in memory, which keep what was asked of them and fail on demand.
ghost use Rattle.std.specs.Prelude.{Some, ◌≡◌, ◌⊎◌, ◌<◌, ◌≤◌, ◌+◌, ◌^◌, ◌↔◌, [], take, Contains, IsTrue, OnOk, OnErr};
ghost use Rattle.std.specs.Prelude.{IfOk, IsSomeAnd, IsNone, IsErrOf, map};
ghost use Rattle.std.specs.FinMap as finite;
ghost use Rattle.std.specs.Option.{option_copied};
ghost use Rattle.outside.specs.Fault.{Counts, Rose};
ghost use Rattle.outside.specs.Files.{Append, Replace, Wrote};
ghost use Rattle.outside.specs.MemCalls.{with_call, with_file, with_read, with_failed_read, with_write};
ghost use Rattle.outside.specs.MemCalls.{with_failed_write, with_keep};
ghost use Rattle.outside.specs.Begun.{begun_write, read_of, write_kind};
ghost use Rattle.outside.specs.Bytes.{content_under};

use crate::begun::{BegunKind, BegunRead, BegunWrite};
use crate::contents::{add_part, content, front, set_content, torn, written};
use crate::failing::is_to_fail;
use crate::{FileFault, Files, NoMemory};
use std::alloc::Global;
use std::collections::BTreeMap;
use std::marker::Model;

/// Files in memory, of which chosen calls fail. They stand in for real files in tests.
#[derive(Drop)]
pub struct MemFiles {
    alloc: Global,
    files: BTreeMap<String, Vec<u8>>,
    calls: u64,
    fails: Vec<u64>,
    keep: u64,
    reads: Vec<BegunRead>,
    writes: Vec<BegunWrite>,
    read_faults: u64,
    write_faults: u64,
}

impl Model for MemFiles {
    ghost use Rattle.std.specs.Prelude.{map};
    ghost use Rattle.outside.specs.MemFiles.{MemFilesState, state_code};

    ghost Value = { MemFilesState };

    ghost coded = { state_code };

    ghost use Rattle.outside.specs.Begun.{contents_of, read_of, begun_write};

    ghost view = { λ s. record {
      files = contents_of s.files;
      calls = s.calls;
      fails = s.fails.items;
      keep = s.keep;
      reads = map read_of s.reads.items;
      writes = map begun_write s.writes.items;
      read_faults = s.read_faults;
      write_faults = s.write_faults;
    } };
}

impl MemFiles {
    /// No files. Calls of `read`, `append` and `replace` are counted together from 0, and those whose numbers are in
    /// `fails` fail. A failing append leaves no byte of its piece, and a failing replace the old content.
    pub fn new(alloc: Global, fails: Vec<u64>) -> MemFiles
        ensures { result ≡ record {
          files = finite.empty;
          calls = 0;
          fails = fails.items;
          keep = 0;
          reads = [];
          writes = [];
          read_faults = 0;
          write_faults = 0;
        } }
    {
        MemFiles {
            alloc,
            files: BTreeMap::new(alloc),
            calls: 0,
            fails,
            keep: 0,
            reads: Vec::new(alloc),
            writes: Vec::new(alloc),
            read_faults: 0,
            write_faults: 0,
        }
    }

    /// Sets the content of a file. This is no counted call.
    pub fn put(&mut self, name: &str, bytes: &[u8]) -> Result<(), NoMemory>
        ensures ok { OnOk result (self.new ≡ with_file name.now bytes.now self.old) }
        ensures err { OnErr result (self.new ≡ self.old) }
    {
        let bytes = bytes.to_vec(self.alloc)?;
        set_content(self.alloc, &mut self.files, name, bytes)
    }

    /// The content of a file, or `None` where the name is missing.
    pub fn get(&self, name: &str) -> Option<&[u8]>
        ensures { option_copied result ≡ finite.get self.now.files name.now }
    {
        content(&self.files, name)
    }

    /// From now on a failing append of any name leaves the first `keep` bytes of its piece after the old content, or
    /// all of a shorter piece. One that leaves no byte makes no file. This is no counted call.
    pub fn tear(&mut self, keep: u64)
        ensures { self.new ≡ with_keep keep self.old }
    {
        self.keep = keep;
    }

    /// The reads begun, the oldest first, those that failed among them.
    pub fn reads(&self) -> &[BegunRead]
        ensures { map read_of result.now ≡ self.now.reads }
    {
        &self.reads
    }

    /// The appends and replaces begun, the oldest first, each with whether it was answered Ok.
    pub fn writes(&self) -> &[BegunWrite]
        ensures { map begun_write result.now ≡ self.now.writes }
    {
        &self.writes
    }

    /// How many calls of `read`, `append` and `replace` were made together, those that failed among them.
    pub fn calls(&self) -> u64
        ensures { result ≡ self.now.calls }
    {
        self.calls
    }

    // Counts a call, and says whether it is to fail.
    fn begin_call(&mut self) -> bool
        ensures fails { IsTrue result ↔ Contains self.old.fails self.old.calls }
        ensures state { self.new ≡ with_call self.old }
    {
        let call = self.calls;
        self.calls = call.saturating_add(1);
        is_to_fail(&self.fails, call)
    }

    // Keeps a read that fails, and counts the fault.
    fn fail_read(&mut self, name: &str, most: u64) -> Result<(), NoMemory>
        ensures ok { OnOk result (self.new ≡ with_failed_read name.now most self.old) }
        ensures err { OnErr result (self.new ≡ self.old) }
        ensures rises { OnOk result
            ((self.old.read_faults ≤ self.new.read_faults) × Rose self.old.read_faults self.new.read_faults) }
    {
        self.reads.push(BegunRead::new(self.alloc, name, most)?)?;
        self.read_faults = self.read_faults.saturating_add(1);
        Ok(())
    }

    // Keeps a write that fails, leaves what it leaves of its bytes, and counts the fault.
    fn fail_write(&mut self, kind: BegunKind, name: &str, bytes: &[u8]) -> Result<(), NoMemory>
        ensures ok { OnOk result (self.new ≡ with_failed_write (write_kind kind) name.now bytes.now self.old) }
        ensures err { OnErr result (self.new ≡ self.old) }
        ensures rises { OnOk result
            ((self.old.write_faults ≤ self.new.write_faults) × Rose self.old.write_faults self.new.write_faults) }
    {
        let begun = BegunWrite::new(self.alloc, kind, name, bytes, false)?;
        self.writes.push(begun)?;
        let part = torn(kind, self.keep, bytes);
        let left = add_part(self.alloc, &mut self.files, name, part);
        if left.is_err() {
            self.writes.pop();
            return left;
        }
        self.write_faults = self.write_faults.saturating_add(1);
        Ok(())
    }

    // Does a write, and keeps it.
    fn do_write(&mut self, kind: BegunKind, name: &str, bytes: &[u8]) -> Result<(), NoMemory>
        ensures ok { OnOk result (self.new ≡ with_write (write_kind kind) name.now bytes.now self.old) }
        ensures err { OnErr result (self.new ≡ self.old) }
    {
        let next = written(self.alloc, kind, self.get(name), bytes)?;
        let begun = BegunWrite::new(self.alloc, kind, name, bytes, true)?;
        self.writes.push(begun)?;
        let stored = set_content(self.alloc, &mut self.files, name, next);
        if stored.is_err() {
            self.writes.pop();
        }
        stored
    }

    // A counted write of either kind.
    fn write(&mut self, kind: BegunKind, name: &str, bytes: &[u8]) -> Result<(), FileFault>
        ensures planned { IsErrOf result FileFault.Failed → Contains self.old.fails self.old.calls }
        ensures unplanned { OnOk result (¬ Contains self.old.fails self.old.calls) }
        ensures ok { OnOk result (self.new ≡ with_write (write_kind kind) name.now bytes.now (with_call self.old)) }
        ensures failed { IsErrOf result FileFault.Failed
            → self.new ≡ with_failed_write (write_kind kind) name.now bytes.now (with_call self.old) }
        ensures memory { IsErrOf result FileFault.NoMemory → self.new ≡ with_call self.old }
        ensures contents { Wrote (write_kind kind) name.now bytes.now result (Some (content_under self.old.files))
            (Some (content_under self.new.files)) }
        ensures count { Counts self.old.write_faults self.new.write_faults result }
    {
        if self.begin_call() {
            self.fail_write(kind, name, bytes)?;
            return Err(FileFault::Failed);
        }
        self.do_write(kind, name, bytes)?;
        Ok(())
    }

    // A read that is not to fail of itself.
    fn do_read(&mut self, alloc: Global, name: &str, most: u64) -> Result<Vec<u8>, FileFault>
        requires { most < 2 ^ 63 }
        ensures missing { IsErrOf result FileFault.Failed → IsNone (finite.get self.old.files name.now) }
        ensures bytes { IfOk result
            (λ v. IsSomeAnd (content_under self.old.files name.now) (λ whole. v.items ≡ take (most + 1) whole)) }
        ensures ok { OnOk result (self.new ≡ with_read name.now most self.old) }
        ensures failed { IsErrOf result FileFault.Failed → self.new ≡ with_failed_read name.now most self.old }
        ensures memory { IsErrOf result FileFault.NoMemory → self.new ≡ self.old }
        ensures count { Counts self.old.read_faults self.new.read_faults result }
    {
        match self.get(name) {
            Some(whole) => {
                let bytes = front(alloc, whole, most)?;
                self.reads.push(BegunRead::new(self.alloc, name, most)?)?;
                Ok(bytes)
            }
            None => {
                self.fail_read(name, most)?;
                Err(FileFault::Failed)
            }
        }
    }
}

impl Files for MemFiles {
    ghost use Rattle.std.specs.Prelude.{Some};
    ghost use Rattle.std.specs.FinMap as finite;
    ghost use Rattle.outside.specs.Bytes.{content_under, content_under-bytes};

    ghost contents = { λ s. Some (content_under s.files) };

    ghost reads = { λ s. Some s.reads };

    ghost writes = { λ s. Some s.writes };

    ghost read_faults = { λ s. s.read_faults };

    ghost write_faults = { λ s. s.write_faults };

    ghost contents_are_bytes = { λ s of name told. content_under-bytes s.files of name told };

    fn read(&mut self, alloc: Global, name: &str, most: u64) -> Result<Vec<u8>, FileFault>
        requires { most < 2 ^ 63 }
        ensures planned { IsErrOf result FileFault.Failed
            → Contains self.old.fails self.old.calls ⊎ IsNone (finite.get self.old.files name.now) }
        ensures unplanned { OnOk result (¬ Contains self.old.fails self.old.calls) }
        ensures bytes { IfOk result
            (λ v. IsSomeAnd (content_under self.old.files name.now) (λ whole. v.items ≡ take (most + 1) whole)) }
        ensures ok { OnOk result (self.new ≡ with_read name.now most (with_call self.old)) }
        ensures failed { IsErrOf result FileFault.Failed
            → self.new ≡ with_failed_read name.now most (with_call self.old) }
        ensures memory { IsErrOf result FileFault.NoMemory → self.new ≡ with_call self.old }
        ensures count { Counts self.old.read_faults self.new.read_faults result }
    {
        if self.begin_call() {
            self.fail_read(name, most)?;
            return Err(FileFault::Failed);
        }
        self.do_read(alloc, name, most)
    }

    fn append(&mut self, name: &str, bytes: &[u8]) -> Result<(), FileFault>
        ensures planned { IsErrOf result FileFault.Failed → Contains self.old.fails self.old.calls }
        ensures unplanned { OnOk result (¬ Contains self.old.fails self.old.calls) }
        ensures ok { OnOk result (self.new ≡ with_write Append name.now bytes.now (with_call self.old)) }
        ensures failed { IsErrOf result FileFault.Failed
            → self.new ≡ with_failed_write Append name.now bytes.now (with_call self.old) }
        ensures memory { IsErrOf result FileFault.NoMemory → self.new ≡ with_call self.old }
        ensures contents { Wrote Append name.now bytes.now result (Some (content_under self.old.files))
            (Some (content_under self.new.files)) }
        ensures count { Counts self.old.write_faults self.new.write_faults result }
    {
        self.write(BegunKind::Appended, name, bytes)
    }

    fn replace(&mut self, name: &str, bytes: &[u8]) -> Result<(), FileFault>
        ensures planned { IsErrOf result FileFault.Failed → Contains self.old.fails self.old.calls }
        ensures unplanned { OnOk result (¬ Contains self.old.fails self.old.calls) }
        ensures ok { OnOk result (self.new ≡ with_write Replace name.now bytes.now (with_call self.old)) }
        ensures failed { IsErrOf result FileFault.Failed
            → self.new ≡ with_failed_write Replace name.now bytes.now (with_call self.old) }
        ensures memory { IsErrOf result FileFault.NoMemory → self.new ≡ with_call self.old }
        ensures contents { Wrote Replace name.now bytes.now result (Some (content_under self.old.files))
            (Some (content_under self.new.files)) }
        ensures count { Counts self.old.write_faults self.new.write_faults result }
    {
        self.write(BegunKind::Replaced, name, bytes)
    }
}
