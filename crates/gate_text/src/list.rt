ghost use Rattle.std.specs.Prelude.{◌≡◌, ◌++◌, ◌∷◌, [], IfOk, OnOk, OnErr};
ghost use Rattle.std.specs.Fn.{CalledAt};
ghost use Rattle.std.specs.List.{fold};
ghost use Rattle.std.specs.List.Retain.{IsFiltered};
ghost use Rattle.gate_text.specs.Arguments.{with_item};

use std::alloc::{AllocError, Global};
use std::marker::Model;

/// What can be copied if there is memory for it.
pub trait TryCopy: Sized {
    /// A copy, or `AllocError` if there is no memory for it.
    fn try_copy(&self, alloc: Global) -> Result<Self, AllocError>
        ensures value { IfOk result (λ copy. copy ≡ self.now) };
}

/// A list of values in an order. A contract sees it as the list of the values.
#[derive(Debug, Drop)]
pub struct List<T> {
    items: Vec<T>,
}

impl<T> Model for List<T> {
    ghost use Rattle.std.specs.Prelude.{List};

    ghost Value = { List T };

    ghost view = { λ list. list.items.items };
}

impl<T> List<T> {
    /// The values, in their order.
    pub fn as_slice(&self) -> &[T]
        ensures value { result.now ≡ self.now }
    {
        self.items.as_slice()
    }

    /// The values as a `Vec`. It takes no memory.
    pub fn into_vec(self) -> Vec<T>
        ensures value { result.items ≡ self }
    {
        let List { items } = self;
        items
    }

    /// Adds a value behind the others. If there is no memory for it, the list stays as it was.
    pub fn push(&mut self, item: T) -> Result<(), AllocError>
    where
        T: Drop,
        ensures ok { OnOk result (self.new ≡ self.old ++ item ∷ []) }
        ensures err { OnErr result (self.new ≡ self.old) }
    {
        self.items.push(item)?;
        Ok(())
    }

    /// Drops the values for which the test gives `false`. It takes no memory.
    pub fn retain<F: FnMut(&T) -> bool>(&mut self, test: F)
    where
        T: Drop,
        requires { F.IsAlwaysCallable test }
        ensures filtered { IsFiltered (CalledAt F.FnMut) test self.old self.new }
    {
        self.items.retain(test);
    }
}

impl<T: TryCopy + Drop> List<T> {
    /// A copy, or `AllocError` if there is no memory for it.
    pub fn copy(&self, alloc: Global) -> Result<List<T>, AllocError>
        ensures value { IfOk result (λ copy. copy ≡ self.now) }
    {
        let mut items = Vec::new(alloc);
        for item in &self.items {
            items.push(item.try_copy(alloc)?)?;
        }
        Ok(List { items })
    }
}

impl<T: PartialEq + Drop> List<T> {
    /// The values without later repeats, or `AllocError` if there is no memory for them. Each is compared with all that are
    /// kept, so it is for a few.
    pub(crate) fn without_repeats(self, alloc: Global) -> Result<List<T>, AllocError>
        ensures value { IfOk result (λ list. list ≡ fold (with_item T.eq) [] self) }
    {
        let mut items = Vec::new(alloc);
        for item in self.into_vec() {
            if !items.contains(&item) {
                items.push(item)?;
            }
        }
        Ok(List { items })
    }
}

impl<T> From<Vec<T>> for List<T> {
    ghost use Rattle.std.specs.Prelude.{◌≡◌};

    ghost from_gives = { λ items list. list ≡ items.items };

    fn from(items: Vec<T>) -> List<T> {
        List { items }
    }
}

impl<T: PartialEq> PartialEq for List<T> {
    ghost use Rattle.std.specs.Cmp.Lexicographic.{pointwise, lists_per};

    ghost eq = { pointwise T.eq };

    ghost laws = { lists_per T.laws };

    fn eq(&self, other: &List<T>) -> bool {
        self.as_slice() == other.as_slice()
    }
}

impl<T: Eq> Eq for List<T> {
    ghost use Rattle.std.specs.Cmp.Lexicographic.{lists_equiv};

    ghost laws = { lists_equiv T.Eq.laws };
}
