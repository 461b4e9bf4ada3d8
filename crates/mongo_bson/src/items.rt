ghost use Rattle.std.specs.Prelude.{◌≡◌, ◌++◌, ◌==◌, [], ◌∷◌, length, slice_get, option_copied, IfOk, IfErr, OnOk, OnErr};

use crate::{BsonFault, TryClone};
use std::alloc::Global;
use std::marker::Model;

/// A list that owns its items. Contracts see the list of them.
#[derive(Debug, Drop)]
pub struct Items<T> {
    held: Vec<T>,
}

impl<T> Model for Items<T> {
    ghost use Rattle.std.specs.Prelude.{List};

    ghost Value = { List T };

    ghost view = { λ i. i.held.items };
}

impl<T> Items<T> {
    /// No items. It takes no memory.
    pub fn new(alloc: Global) -> Items<T>
        ensures { result ≡ [] }
    {
        Items {
            held: Vec::new(alloc),
        }
    }

    /// How many items there are.
    pub fn len(&self) -> usize
        ensures { result ≡ length self.now }
    {
        self.held.len()
    }

    /// Whether there is no item.
    pub fn is_empty(&self) -> bool
        ensures { result ≡ (length self.now == 0) }
    {
        self.held.is_empty()
    }

    /// The item at a place, counted from 0, or None from the list's end on.
    pub fn get(&self, index: usize) -> Option<&T>
        ensures { option_copied result ≡ slice_get self.now index }
    {
        self.held.as_slice().get(index)
    }

    /// The items in their order.
    pub fn as_slice(&self) -> &[T]
        ensures { result.now ≡ self.now }
    {
        self.held.as_slice()
    }

    /// The vector that holds the items.
    pub fn into_vec(self) -> Vec<T>
        ensures { result.items ≡ self }
    {
        self.held
    }
}

impl<T: Drop> Items<T> {
    /// Adds an item at the end. A refusal leaves the list as it was.
    pub fn push(&mut self, item: T) -> Result<(), BsonFault>
        ensures added { OnOk result (self.new ≡ self.old ++ item ∷ []) }
        ensures unchanged { OnErr result (self.new ≡ self.old) }
        ensures refused { IfErr result (λ fault. fault ≡ BsonFault.OutOfMemory) }
    {
        self.held.push(item)?;
        Ok(())
    }
}

impl<T: TryClone + Drop> Items<T> {
    /// A copy of the list.
    pub fn try_clone(&self, alloc: Global) -> Result<Items<T>, BsonFault>
        ensures copied { IfOk result (λ copy. copy ≡ self.now) }
        ensures refused { IfErr result (λ fault. fault ≡ BsonFault.OutOfMemory) }
    {
        let mut copies = Vec::with_capacity(alloc, self.held.len())?;
        for item in self.held.as_slice() {
            copies.push_reserved(item.try_clone(alloc)?);
        }
        Ok(Items { held: copies })
    }
}

impl<T: TryClone + Drop> TryClone for Items<T> {
    fn try_clone(&self, alloc: Global) -> Result<Items<T>, BsonFault> {
        Items::try_clone(self, alloc)
    }
}

impl<T: PartialEq> PartialEq for Items<T> {
    ghost use Rattle.std.specs.Cmp.Lexicographic.{pointwise};
    ghost use Rattle.std.specs.Cmp.Rules.{comparing};
    ghost use Rattle.std.proofs.Common.{rules};

    ghost eq = { pointwise T.eq };

    ghost laws = { Prim.search (comparing, rules) };

    fn eq(&self, other: &Items<T>) -> bool {
        self.held.as_slice() == other.held.as_slice()
    }
}
