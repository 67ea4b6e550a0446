ghost use Rattle.std.specs.Prelude.{◌≡◌, ℕ, ◌==◌, List, false, IfOk, ◌&&◌, ◌||◌, not, OnOk, OnErr};
ghost use Rattle.std.specs.Cmp.Lexicographic.{slice_cmp};
ghost use Rattle.std.specs.BTreeMap as tree;
ghost use Rattle.std.specs.Option.{option_copied};
ghost use Rattle.std.specs.Ordering.{nat_cmp};
ghost use Rattle.gate_rules.specs.Heads.{has, is_head, is_place};

use gate_text::{ChangeNo, Commit};
use std::alloc::{AllocError, Global};
use std::collections::{BTreeMap, BTreeSet};

/// The numbers of some changes by their heads, so that those of a head are found without a walk over all changes.
#[derive(Drop)]
pub(crate) struct Heads {
    numbers: BTreeMap<Commit, BTreeSet<ChangeNo>>,
}

impl Heads {
    /// No numbers. It takes no memory.
    pub(crate) fn new(alloc: Global) -> Heads
        ensures { (head : List ℕ) (number : ℕ) → has result head number ≡ false }
    {
        Heads {
            numbers: BTreeMap::new(alloc),
        }
    }

    /// A copy, or `AllocError` if there is no memory for it.
    pub(crate) fn copy(&self) -> Result<Heads, AllocError>
        ensures { IfOk result (λ copy. (other : List ℕ) (n : ℕ) → has copy other n ≡ has self.now other n) }
    {
        Ok(Heads {
            numbers: self.numbers.clone()?,
        })
    }

    /// The numbers that stand under a head, if there are any.
    pub(crate) fn at(&self, head: Commit) -> Option<&BTreeSet<ChangeNo>>
        ensures { option_copied result ≡ tree.get (slice_cmp nat_cmp) self.now.numbers head }
    {
        self.numbers.get(&head)
    }

    /// Adds a number under a head, if there is one. If there is no memory for it, all stays as it was.
    pub(crate) fn enter(
        &mut self,
        alloc: Global,
        head: Option<Commit>,
        number: ChangeNo,
    ) -> Result<(), AllocError>
        ensures ok { OnOk result ((other : List ℕ) (n : ℕ)
            → has self.new other n ≡ ((is_head head other && (n == number)) || has self.old other n)) }
        ensures err { OnErr result ((other : List ℕ) (n : ℕ) → has self.new other n ≡ has self.old other n) }
    {
        match head {
            Some(head) => self.add(alloc, head, number),
            None => Ok(()),
        }
    }

    /// Takes a number away under a head, if there is one. It takes no memory.
    pub(crate) fn leave(&mut self, head: Option<Commit>, number: ChangeNo)
        ensures { (other : List ℕ) (n : ℕ) → has self.new other n ≡ (not (is_head head other && (n == number)) && has self.old other n) }
    {
        if let Some(head) = head {
            self.remove(head, number);
        }
    }

    // Adds a number under a head.
    fn add(&mut self, alloc: Global, head: Commit, number: ChangeNo) -> Result<(), AllocError>
        ensures ok { OnOk result ((other : List ℕ) (n : ℕ)
            → has self.new other n ≡ (is_place head number other n || has self.old other n)) }
        ensures err { OnErr result ((other : List ℕ) (n : ℕ) → has self.new other n ≡ has self.old other n) }
    {
        if let Some(numbers) = self.numbers.get_mut(&head) {
            numbers.insert(number)?;
            return Ok(());
        }
        let mut numbers = BTreeSet::new(alloc);
        numbers.insert(number)?;
        self.numbers.insert(head, numbers)?;
        Ok(())
    }

    // Takes a number away under a head, if it is there.
    fn remove(&mut self, head: Commit, number: ChangeNo)
        ensures { (other : List ℕ) (n : ℕ) → has self.new other n ≡ (not (is_place head number other n) && has self.old other n) }
    {
        let Some(numbers) = self.numbers.get_mut(&head) else {
            return;
        };
        numbers.remove(&number);
        let is_empty = numbers.is_empty();
        if is_empty {
            self.numbers.remove(&head);
        }
    }
}
