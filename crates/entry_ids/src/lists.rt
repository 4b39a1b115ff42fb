//! Lists of what is formed for the inputs and for the outputs of a transaction. Their room is taken once, for all.
ghost use Rattle.std.specs.Prelude.{◌≡◌, ◌++◌, [], ◌∷◌, IfOk, OnOk};

use crate::Names;
use crate::input::InputIds;
use crate::output::ResultIds;
use data_model::Ids;
use std::alloc::Global;
use wire::NoMemory;

// What is formed for the inputs, in order.
#[derive(Drop)]
pub(crate) struct InputLists {
    pub(crate) entries: Ids,
    pub(crate) named: Names,
    pub(crate) data_hashes: Ids,
}

impl InputLists {
    // Nothing, and room for so many inputs.
    pub(crate) fn with_room(alloc: Global, count: usize) -> Result<InputLists, NoMemory>
        ensures entries { IfOk result (λ lists. lists.entries ≡ []) }
        ensures named { IfOk result (λ lists. lists.named ≡ []) }
        ensures data_hashes { IfOk result (λ lists. lists.data_hashes ≡ []) }
    {
        let mut lists = InputLists {
            entries: Ids::new(alloc),
            named: Names::new(alloc),
            data_hashes: Ids::new(alloc),
        };
        lists.entries.reserve(count)?;
        lists.named.reserve(count)?;
        lists.data_hashes.reserve(count)?;
        Ok(lists)
    }

    // Adds what is formed for one input more.
    pub(crate) fn push(&mut self, ids: InputIds) -> Result<(), NoMemory>
        ensures entries { OnOk result (self.new.entries ≡ self.old.entries ++ ids.entry ∷ []) }
        ensures named { OnOk result (self.new.named ≡ self.old.named ++ ids.named ∷ []) }
        ensures data_hashes { OnOk result (self.new.data_hashes ≡ self.old.data_hashes ++ ids.data_hash ∷ []) }
    {
        self.entries.push(ids.entry)?;
        self.named.push(ids.named)?;
        self.data_hashes.push(ids.data_hash)
    }
}

// What is formed for the outputs and retirements, in order.
#[derive(Drop)]
pub(crate) struct ResultLists {
    pub(crate) entries: Ids,
    pub(crate) data_hashes: Ids,
}

impl ResultLists {
    // Nothing, and room for so many outputs.
    pub(crate) fn with_room(alloc: Global, count: usize) -> Result<ResultLists, NoMemory>
        ensures entries { IfOk result (λ lists. lists.entries ≡ []) }
        ensures data_hashes { IfOk result (λ lists. lists.data_hashes ≡ []) }
    {
        let mut lists = ResultLists {
            entries: Ids::new(alloc),
            data_hashes: Ids::new(alloc),
        };
        lists.entries.reserve(count)?;
        lists.data_hashes.reserve(count)?;
        Ok(lists)
    }

    // Adds what is formed for one output more.
    pub(crate) fn push(&mut self, ids: ResultIds) -> Result<(), NoMemory>
        ensures entries { OnOk result (self.new.entries ≡ self.old.entries ++ ids.entry ∷ []) }
        ensures data_hashes { OnOk result (self.new.data_hashes ≡ self.old.data_hashes ++ ids.data_hash ∷ []) }
    {
        self.entries.push(ids.entry)?;
        self.data_hashes.push(ids.data_hash)
    }
}
