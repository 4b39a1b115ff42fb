//! A check by a table of the signatures that are good, for tests.
ghost use Rattle.std.specs.Prelude.{◌≡◌, [], ◌∷◌, ◌++◌, OnOk, OnErr};
ghost use Rattle.keyed.specs.Table.{is_row, is_signed};

use crate::{NoMemory, SigCheck};
use std::alloc::Global;
use std::marker::Model;

/// A signature of a message, for a key.
#[derive(Drop)]
pub struct Signed {
    key: Vec<u8>,
    message: Vec<u8>,
    signature: Vec<u8>,
}

impl Model for Signed {
    ghost use Rattle.keyed.specs.Table.{Signed};

    ghost Value = { Signed };

    ghost view = { λ row. record {
      key = row.key.items;
      message = row.message.items;
      signature = row.signature.items;
    } };
}

impl Signed {
    /// Whether it is this signature of this message, for this key.
    pub fn is_row(&self, key: &[u8], message: &[u8], signature: &[u8]) -> bool
        ensures { result ≡ is_row self.now key.now message.now signature.now }
    {
        self.key.as_slice() == key
            && self.message.as_slice() == message
            && self.signature.as_slice() == signature
    }
}

/// The check under which those signatures are good that were added to it, each for its key and its message alone. It
/// stands for a check of real signatures in tests.
#[derive(Drop)]
pub struct TableCheck {
    rows: Vec<Signed>,
    alloc: Global,
}

impl Model for TableCheck {
    ghost use Rattle.std.specs.Prelude.{List};
    ghost use Rattle.keyed.specs.Table.{Signed};

    ghost Value = { List Signed };

    ghost view = { λ table. table.rows.items };
}

impl TableCheck {
    /// The check under which no signature is good. Nothing is allocated.
    pub fn new(alloc: Global) -> TableCheck
        ensures { result ≡ [] }
    {
        TableCheck {
            rows: Vec::new(alloc),
            alloc,
        }
    }

    /// Makes a signature of a message good for a key.
    pub fn add(&mut self, key: &[u8], msg: &[u8], sig: &[u8]) -> Result<(), NoMemory>
        ensures ok { OnOk result (self.new ≡ self.old ++ (record {
          key = key.now;
          message = msg.now;
          signature = sig.now;
        } ∷ [])) }
        ensures err { OnErr result (self.new ≡ self.old) }
    {
        let row = Signed {
            key: Vec::from_slice(self.alloc, key)?,
            message: Vec::from_slice(self.alloc, msg)?,
            signature: Vec::from_slice(self.alloc, sig)?,
        };
        self.rows.push(row)?;
        Ok(())
    }
}

impl SigCheck for TableCheck {
    ghost good_of = { λ table key msg sig. is_signed table key msg sig };

    fn good(&self, key: &[u8], msg: &[u8], sig: &[u8]) -> bool {
        for row in &self.rows {
            if row.is_row(key, msg, sig) {
                return true;
            }
        }
        false
    }
}
