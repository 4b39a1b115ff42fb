//! The standard output.
ghost use Rattle.std.specs.Prelude.{◌≡◌};

use crate::tally::count_fault;
use crate::whole::write_whole;
use crate::{FileFault, Sink};
use std::io;

/// A sink that writes to what a runtime prints to, which for a program is the standard output. It says nothing of
/// what it holds.
#[derive(Drop)]
pub struct StdSink<'a, R> {
    rt: &'a R,
    faults: u64,
}

impl<'a, R: Print> StdSink<'a, R> {
    /// A sink over the runtime, with no fault.
    pub fn new(rt: &'a R) -> StdSink<'a, R>
        ensures { ⟦<StdSink<'a, R> as Sink>⟧.faults result ≡ 0 }
    {
        StdSink { rt, faults: 0 }
    }
}

impl<R: Print> Sink for StdSink<'_, R> {
    ghost use Rattle.std.specs.Prelude.{None};

    ghost output = { λ _. None };

    ghost faults = { λ s. s.faults };

    /// Each error of the runtime is `Failed`, and so is a write that takes nothing.
    fn write(&mut self, bytes: &[u8]) -> Result<(), FileFault> {
        let mut out = io::writer(self.rt);
        let answer = write_whole(&mut out, bytes);
        count_fault(&mut self.faults, answer)
    }
}
