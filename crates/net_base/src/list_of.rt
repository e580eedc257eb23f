//! Lists of one kind of thing.
ghost use Rattle.std.specs.Prelude.{◌≡◌, ◌++◌, ◌∷◌, [], IfOk, OnOk, OnErr};

use crate::Memory;
use std::alloc::Global;
use std::marker::Model;

/// A list of things of one kind, in order, which grows at its end.
#[derive(Drop)]
pub struct ListOf<T: Drop> {
    items: Vec<T>,
}

impl<T: Drop> Model for ListOf<T> {
    ghost use Rattle.std.specs.Prelude.{List};

    ghost Value = { List T };

    ghost view = { λ l. l.items.items };
}

impl<T: Drop> ListOf<T> {
    /// An empty list.
    pub fn make(alloc: Global) -> Result<ListOf<T>, Memory>
        ensures { IfOk result (λ list. list ≡ []) }
    {
        Ok(ListOf {
            items: Vec::new(alloc),
        })
    }

    /// The list of these items.
    pub fn of(items: Vec<T>) -> ListOf<T>
        ensures { result ≡ items.items }
    {
        ListOf { items }
    }

    /// One more item. After a refusal the list is as before.
    pub fn add(&mut self, item: T) -> Result<(), Memory>
        ensures ok { OnOk result (self.new ≡ self.old ++ item ∷ []) }
        ensures err { OnErr result (self.new ≡ self.old) }
    {
        self.items.push(item)?;
        Ok(())
    }

    /// The items, in order.
    pub fn list(&self) -> &[T]
        ensures { result.now ≡ self.now }
    {
        &self.items
    }
}
