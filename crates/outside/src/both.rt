//! Files and a sink as one outside world.
use crate::{FileFault, Files, Outside, Sink};
use std::alloc::Global;

/// Files and a sink side by side, each still its owner's: a call that takes an `Outside` can be given them, and what
/// it says of `io` is said of the two.
#[derive(Drop)]
pub struct Both<'a, F, S> {
    pub files: &'a mut F,
    pub out: &'a mut S,
}

impl<F: Files, S: Sink> Outside for Both<'_, F, S> {
    ghost use Rattle.outside.specs.World.{world_at};

    ghost io = { λ both. record {
      world = world_at
          S.output S.faults F.contents F.reads F.writes F.read_faults F.write_faults both.out.now both.files.now;
      refs = (both.files.ghost_name, both.out.ghost_name);
    } };

    fn read(&mut self, alloc: Global, name: &str, most: u64) -> Result<Vec<u8>, FileFault> {
        self.files.read(alloc, name, most)
    }

    fn append(&mut self, name: &str, bytes: &[u8]) -> Result<(), FileFault> {
        self.files.append(name, bytes)
    }

    fn replace(&mut self, name: &str, bytes: &[u8]) -> Result<(), FileFault> {
        self.files.replace(name, bytes)
    }

    fn print(&mut self, bytes: &[u8]) -> Result<(), FileFault> {
        if bytes.is_empty() {
            return Ok(());
        }
        self.out.write(bytes)
    }

    ghost contents_are_bytes = { λ both of name. F.contents_are_bytes both.files.now of name };
}
