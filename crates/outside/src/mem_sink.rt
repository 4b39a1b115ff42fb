//! A sink in memory, which keeps what was printed and fails on demand.
ghost use Rattle.std.specs.Prelude.{◌≡◌, ◌<◌, ◌↔◌, ◌++◌, [], length, Contains, OnOk, OnErr, IsErrOf};
ghost use Rattle.outside.specs.Count.{counted};
ghost use Rattle.outside.specs.Fault.{Counts};

use crate::failing::is_to_fail;
use crate::{FileFault, Sink};
use std::alloc::Global;
use std::marker::Model;

/// A sink in memory, of which chosen calls fail. It stands in for the standard output in tests.
#[derive(Drop)]
pub struct MemSink {
    content: Vec<u8>,
    calls: u64,
    fails: Vec<u64>,
    faults: u64,
}

impl Model for MemSink {
    ghost use Rattle.outside.specs.MemSink.{MemSinkState};

    ghost Value = { MemSinkState };

    ghost view = { λ s. record {
      content = s.content.items;
      calls = s.calls;
      fails = s.fails.items;
      faults = s.faults;
    } };
}

impl MemSink {
    /// An empty sink. Calls of `write` are counted from 0, and those whose numbers are in `fails` fail.
    pub fn new(alloc: Global, fails: Vec<u64>) -> MemSink
        ensures { result ≡ record { content = []; calls = 0; fails = fails.items; faults = 0 } }
    {
        MemSink {
            content: Vec::new(alloc),
            calls: 0,
            fails,
            faults: 0,
        }
    }

    /// What was written.
    pub fn bytes(&self) -> &[u8]
        ensures { result.now ≡ self.now.content }
    {
        &self.content
    }

    /// How many calls of `write` were made, those that failed among them.
    pub fn calls(&self) -> u64
        ensures { result ≡ self.now.calls }
    {
        self.calls
    }
}

impl Sink for MemSink {
    ghost use Rattle.std.specs.Prelude.{Some};

    ghost output = { λ s. Some s.content };

    ghost faults = { λ s. s.faults };

    fn write(&mut self, bytes: &[u8]) -> Result<(), FileFault>
        requires { 0 < length bytes.now }
        ensures fails { IsErrOf result FileFault.Failed ↔ Contains self.old.fails self.old.calls }
        ensures ok { OnOk result (self.new.content ≡ self.old.content ++ bytes.now) }
        ensures kept { OnErr result (self.new.content ≡ self.old.content) }
        ensures calls { self.new.calls ≡ counted self.old.calls }
        ensures plan { self.new.fails ≡ self.old.fails }
        ensures count { Counts self.old.faults self.new.faults result }
        ensures raised { IsErrOf result FileFault.Failed → self.new.faults ≡ counted self.old.faults }
    {
        let call = self.calls;
        self.calls = call.saturating_add(1);
        if is_to_fail(&self.fails, call) {
            self.faults = self.faults.saturating_add(1);
            return Err(FileFault::Failed);
        }
        self.content.extend_from_slice(bytes)?;
        Ok(())
    }
}
