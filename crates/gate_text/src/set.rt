ghost use Rattle.std.specs.Prelude.{◌≡◌, IfOk, OnOk, OnErr};
ghost use Rattle.std.specs.FinSet as set;

use crate::text::{Text, Word};
use std::alloc::{AllocError, Global};
use std::collections::BTreeSet;
use std::marker::{Model, PhantomData};

/// A set of words, as names or labels. A contract sees it as the finite set of their bytes.
#[derive(Debug, Drop)]
pub struct Set<T> {
    texts: BTreeSet<Text>,
    of: PhantomData<T>,
}

impl<T> Model for Set<T> {
    ghost use Rattle.std.specs.Coded.{coded_ℕ, coded_list};
    ghost use Rattle.std.specs.Cmp.Lexicographic.{slice_cmp};
    ghost use Rattle.std.specs.FinSet as set;
    ghost use Rattle.std.specs.Ordering.{nat_cmp};

    ghost Value = { set.FinSet (slice_cmp nat_cmp) };

    ghost coded = { set.code (coded_list coded_ℕ) };

    ghost view = { λ s. set.from_list s.texts.keys };
}

impl<T> Set<T> {
    /// The empty set. It takes no memory; the set keeps the allocator.
    pub fn new(alloc: Global) -> Set<T>
        ensures value { result ≡ set.empty }
    {
        Set {
            texts: BTreeSet::new(alloc),
            of: PhantomData,
        }
    }

    /// How many words the set has.
    pub fn len(&self) -> usize
        ensures value { result ≡ set.len self.now }
    {
        self.texts.len()
    }

    /// The words' texts, in the order of their bytes.
    pub fn texts(&self) -> &BTreeSet<Text>
        ensures value { set.from_list result.now.keys ≡ self.now }
    {
        &self.texts
    }

    /// Whether the other set has each word of this one.
    pub fn is_subset(&self, other: &Set<T>) -> bool
        ensures value { result ≡ set.is_subset self.now other.now }
    {
        self.texts.is_subset(&other.texts)
    }

    // Adds a text.
    fn insert_text(&mut self, text: Text) -> Result<(), AllocError>
        ensures ok { OnOk result (self.new ≡ set.insert self.old text) }
        ensures err { OnErr result (self.new ≡ self.old) }
    {
        self.texts.insert(text)?;
        Ok(())
    }

    /// A copy, or `AllocError` if there is no memory for it.
    pub fn copy(&self, alloc: Global) -> Result<Set<T>, AllocError>
        ensures value { IfOk result (λ copy. copy ≡ self.now) }
    {
        let mut copy = Set::new(alloc);
        for text in &self.texts {
            copy.insert_text(text.copy(alloc)?)?;
        }
        Ok(copy)
    }
}

impl<T: Word> Set<T> {
    /// Whether the set has the word.
    pub fn contains(&self, word: &T) -> bool
        ensures value { result ≡ set.contains self.now (T.bytes word.now) }
    {
        self.texts.contains(word.as_text())
    }

    /// Adds the word. If there is no memory for it, the set stays as it was.
    pub fn insert(&mut self, word: T) -> Result<(), AllocError>
        ensures ok { OnOk result (self.new ≡ set.insert self.old (T.bytes word)) }
        ensures err { OnErr result (self.new ≡ self.old) }
    {
        self.insert_text(word.into_text())
    }

    /// Takes the word away, if it is there. It takes no memory.
    pub fn remove(&mut self, word: &T)
        ensures value { self.new ≡ set.remove self.old (T.bytes word.now) }
    {
        self.texts.remove(word.as_text());
    }
}

impl<T> PartialEq for Set<T> {
    ghost use Rattle.std.specs.Cmp.{partial_equiv_from_equiv};
    ghost use Rattle.gate_text.specs.Finite.{is_same, is_same_words-equiv};

    ghost eq = { is_same };

    ghost laws = { partial_equiv_from_equiv is_same_words-equiv };

    fn eq(&self, other: &Set<T>) -> bool {
        self.is_subset(other) && other.is_subset(self)
    }
}

impl<T> Eq for Set<T> {
    ghost use Rattle.gate_text.specs.Finite.{is_same_words-equiv};

    ghost laws = { is_same_words-equiv };
}
