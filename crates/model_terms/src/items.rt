// Lists inside instances, which contracts see as lists.
ghost use Rattle.std.specs.Prelude.{◌≡◌, IfOk};

use demand_law::Law;
use fraction128::Memory;
use std::alloc::Global;
use std::marker::Model;

/// A list of one entry a period or an echelon.
#[derive(Drop)]
pub struct Items<T> {
    items: Vec<T>,
}

/// Whole numbers of at least 0, as demands or cost rates.
pub type Amounts = Items<u64>;

/// Positions, one an echelon.
pub type Positions = Items<i64>;

/// Laws of demand, one a period, or one that serves every period.
pub type Laws = Items<Law>;

impl<T> Model for Items<T> {
    ghost use Rattle.std.specs.Prelude.{List};

    ghost Value = { List T };

    ghost view = { λ l. l.items.items };
}

impl<T> Items<T> {
    pub fn new(items: Vec<T>) -> Items<T>
        ensures { result ≡ items.items }
    {
        Items { items }
    }

    pub fn as_slice(&self) -> &[T]
        ensures { result.now ≡ self.now }
    {
        &self.items
    }
}

impl Items<u32> {
    /// The same list once more.
    pub fn copy(&self, alloc: Global) -> Result<Items<u32>, Memory>
        ensures { IfOk result (λ items. items ≡ self.now) }
    {
        Ok(Items::new(self.items.to_vec(alloc)?))
    }
}

impl Items<Law> {
    ghost use Rattle.std.specs.Prelude.{◌<◌, length};
    ghost use Rattle.demand_law.specs.Sequences.{greatest_in};
    ghost use Rattle.model_terms.specs.DemandLaws.{common_total};

    /// The greatest demand of all the laws.
    pub fn greatest(&self) -> u32
        ensures { result ≡ greatest_in self.now }
    {
        let mut greatest = 0;
        for law in &self.items {
            greatest = greatest.max(law.greatest());
        }
        greatest
    }

    /// The sum of the weights of the first law.
    pub fn total(&self) -> u128
        requires { 0 < length self.now }
        ensures { result ≡ common_total self.now }
    {
        self.items[0].total()
    }
}
