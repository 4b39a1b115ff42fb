//! Values in order, as one list that contracts see; bytes and arguments are such lists.
ghost use Rattle.std.specs.Prelude.{◌≡◌, ◌↔◌, ◌≤◌, ◌+◌, [], ◌∷◌, ◌++◌, take, drop, length, IsTrue, OnOk, OnErr, IfOk};

use crate::NoMemory;
use std::alloc::Global;
use std::marker::Model;

/// A value of which an equal one can be made.
pub trait Twin: Drop + Sized {
    /// An equal value.
    fn copy(&self, alloc: Global) -> Result<Self, NoMemory>
        ensures { IfOk result (λ twin. twin ≡ self.now) };

    /// Equal values, in order.
    fn copy_all(alloc: Global, items: &[Self]) -> Result<Vec<Self>, NoMemory>
        ensures { IfOk result (λ twins. twins.items ≡ items.now) }
    {
        let mut twins = Vec::with_capacity(alloc, items.len())?;
        for item in items {
            twins.push(item.copy(alloc)?)?;
        }
        Ok(twins)
    }
}

/// Values in order.
#[derive(Debug, Drop)]
pub struct Listed<T> {
    items: Vec<T>,
}

impl<T> Model for Listed<T> {
    ghost use Rattle.std.specs.Prelude.{List};

    ghost Value = { List T };

    ghost view = { λ list. list.items.items };
}

/// A string of bytes.
pub type Bytes = Listed<u8>;

/// The arguments of a program, each a string of bytes.
pub type Args = Listed<Bytes>;

impl<T: Drop> Listed<T> {
    /// No values.
    pub fn new(alloc: Global) -> Listed<T>
        ensures { result ≡ [] }
    {
        Listed {
            items: Vec::new(alloc),
        }
    }

    /// The values of a vector.
    pub fn from_vec(items: Vec<T>) -> Listed<T>
        ensures { result ≡ items.items }
    {
        Listed { items }
    }

    /// The values as a vector: nothing is copied.
    pub fn into_vec(self) -> Vec<T>
        ensures { result.items ≡ self }
    {
        self.items
    }

    /// How many values there are.
    pub fn len(&self) -> usize
        ensures { result ≡ length self.now }
    {
        self.items.len()
    }

    /// There is no value.
    pub fn is_empty(&self) -> bool
        ensures { IsTrue result ↔ (self.now ≡ []) }
    {
        self.as_slice().is_empty()
    }

    /// Makes room for so many values more: after an `Ok` as many pushes want no memory. The values stay as they are.
    pub fn reserve(&mut self, more: usize) -> Result<(), NoMemory>
        ensures { self.new ≡ self.old }
    {
        self.items.reserve(more)?;
        Ok(())
    }

    /// Adds a value at the end, and drops it where memory runs out.
    pub fn push(&mut self, item: T) -> Result<(), NoMemory>
        ensures ok { OnOk result (self.new ≡ self.old ++ item ∷ []) }
        ensures err { OnErr result (self.new ≡ self.old) }
    {
        self.items.push(item)?;
        Ok(())
    }

    /// Keeps at most so many values, the first ones.
    pub fn truncate(&mut self, len: usize)
        ensures { self.new ≡ take len self.old }
    {
        self.items.truncate(len);
    }

    /// The values, in order.
    pub fn as_slice(&self) -> &[T]
        ensures { result.now ≡ self.now }
    {
        self.items.as_slice()
    }
}

impl<T: Twin> Listed<T> {
    /// Copies of these values.
    pub fn from_slice(alloc: Global, items: &[T]) -> Result<Listed<T>, NoMemory>
        ensures { IfOk result (λ list. list ≡ items.now) }
    {
        Ok(Listed {
            items: T::copy_all(alloc, items)?,
        })
    }

    /// An equal list.
    pub fn copy(&self, alloc: Global) -> Result<Listed<T>, NoMemory>
        ensures { IfOk result (λ list. list ≡ self.now) }
    {
        Listed::from_slice(alloc, self.as_slice())
    }
}

impl Listed<u8> {
    /// Adds these bytes at the end, all or none of them.
    pub fn extend_from_slice(&mut self, items: &[u8]) -> Result<(), NoMemory>
        ensures ok { OnOk result (self.new ≡ self.old ++ items.now) }
        ensures err { OnErr result (self.new ≡ self.old) }
    {
        self.items.extend_from_slice(items)?;
        Ok(())
    }

    // Brings all that stands after so many bytes, those from this place on, in front of them.
    pub(crate) fn turn(&mut self, from: usize, len: usize)
        requires { from + len ≤ length self.old }
        ensures { self.new
            ≡ take from self.old ++ (drop len (drop from self.old) ++ take len (drop from self.old)) }
    {
        self.items[from..].rotate_left(len);
    }
}

impl<T: Twin> Twin for Listed<T> {
    fn copy(&self, alloc: Global) -> Result<Listed<T>, NoMemory> {
        Listed::from_slice(alloc, self.as_slice())
    }
}

impl Twin for u8 {
    fn copy(&self, _alloc: Global) -> Result<u8, NoMemory> {
        Ok(*self)
    }

    fn copy_all(alloc: Global, items: &[u8]) -> Result<Vec<u8>, NoMemory> {
        Ok(Vec::from_slice(alloc, items)?)
    }
}
