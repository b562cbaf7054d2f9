//! HAVING, as a predicate over the values of the items that it names.
ghost use Rattle.std.specs.Prelude.{◌≡◌, IfOk};
ghost use Rattle.query.specs.Having.{count_before, having_of, with_leaf};
ghost use Rattle.query.specs.Values.{no_having};

use crate::item::Item;
use crate::predicate::Predicate;
use crate::resolving::{Resolver, resolved};
use cells::Text;
use std::alloc::{AllocError, Global};
use std::marker::Model;

/// HAVING of a query: the items that its predicate names stand apart, in the order of the text, and the predicate is over
/// their indexes.
#[derive(Drop)]
pub(crate) struct Having {
    /// The items that the predicate names.
    pub items: Vec<Item<Text>>,
    /// The predicate over their indexes, where there is a HAVING.
    pub predicate: Option<Predicate<usize>>,
}

impl Model for Having {
    ghost use Rattle.query.specs.Values.{HavingTree};

    ghost Value = { HavingTree };

    ghost use Rattle.query.specs.Codes.{coded_predicate};
    ghost use Rattle.std.specs.Coded.{codes};

    ghost coded = { Prim.hlevel (codes, coded_predicate) };

    ghost view = { λ h. record { items = h.items.items; predicate = h.predicate } };
}

impl Having {
    /// What a query without HAVING has.
    pub fn none(alloc: Global) -> Having
        ensures { result ≡ no_having }
    {
        Having {
            items: Vec::new(alloc),
            predicate: None,
        }
    }

    /// HAVING of a predicate over items, which are taken out of it.
    pub fn of(alloc: Global, predicate: Predicate<Item<Text>>) -> Result<Having, AllocError>
        ensures { IfOk result (λ having. having ≡ having_of predicate) }
    {
        let mut taken = Taken {
            items: Vec::new(alloc),
        };
        let predicate = resolved(alloc, &mut taken, predicate)?;
        Ok(Having {
            items: taken.items,
            predicate: Some(predicate),
        })
    }
}

/// The items that were taken out of a predicate, in the order of the text. The index of an item is that in this list.
#[derive(Drop)]
struct Taken {
    items: Vec<Item<Text>>,
}

impl Model for Taken {
    ghost use Rattle.std.specs.Prelude.{ℕ, List};
    ghost use Rattle.query.specs.declared.item.Item.{Item};

    ghost Value = { List (Item (List ℕ)) };

    ghost view = { λ t. t.items.items };
}

impl Resolver<Item<Text>> for Taken {
    ghost index = { count_before };

    ghost after = { with_leaf };

    fn resolve(&mut self, leaf: Item<Text>) -> Result<usize, AllocError> {
        let index = self.items.len();
        self.items.push(leaf)?;
        Ok(index)
    }
}
