//! What files in memory keep of the calls begun.
ghost use Rattle.std.specs.Prelude.{◌≡◌, IfOk};
ghost use Rattle.outside.specs.Files.{write_of};
ghost use Rattle.outside.specs.Begun.{read_of, begun_write, write_kind};

use crate::NoMemory;
use std::alloc::Global;

/// A read that was begun: the file's name, and the most bytes that it was to have. One more was asked for.
#[derive(Drop)]
pub struct BegunRead {
    pub name: String,
    pub most: u64,
}

/// Which of the two writes was begun: bytes added at the end of a file, or its whole content set.
#[derive(Clone, Copy, Debug, PartialEq, Eq)]
pub enum BegunKind {
    Appended,
    Replaced,
}

/// An append or a replace that was begun: the file's name, the bytes, and whether it was answered Ok.
#[derive(Drop)]
pub struct BegunWrite {
    pub kind: BegunKind,
    pub name: String,
    pub bytes: Vec<u8>,
    pub done: bool,
}

impl BegunRead {
    pub(crate) fn new(alloc: Global, name: &str, most: u64) -> Result<BegunRead, NoMemory>
        ensures { IfOk result (λ r. read_of r ≡ record { name = name.now; most = most }) }
    {
        let name = String::from_str(alloc, name)?;
        Ok(BegunRead { name, most })
    }
}

impl BegunWrite {
    pub(crate) fn new(
        alloc: Global,
        kind: BegunKind,
        name: &str,
        bytes: &[u8],
        done: bool,
    ) -> Result<BegunWrite, NoMemory>
        ensures { IfOk result (λ w. begun_write w ≡ write_of (write_kind kind) name.now bytes.now done) }
    {
        let name = String::from_str(alloc, name)?;
        let bytes = bytes.to_vec(alloc)?;
        Ok(BegunWrite {
            kind,
            name,
            bytes,
            done,
        })
    }
}
