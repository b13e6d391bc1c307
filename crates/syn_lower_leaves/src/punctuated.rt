//! Values with puncts between.

ghost use Rattle.std.specs.Iterator.{YieldsFirstRef, YieldsFirstBy, item_count};
ghost use Rattle.std.specs.Option.{option_copied};
ghost use Rattle.std.specs.Prelude.{◌-◌, drop, take, ◌≡◌, ◌++◌, [], ◌∷◌, length, true, false, OnOk, OnErr, IfErr, IsTrue, ◌↔◌, MatchOption, MatchResult, slice_get};

use std::alloc::Global;
use syn_tokens::error::{ErrorKind, Result};

/// A value of a list with puncts, and the punct that follows it.
#[derive(Debug, Drop, PartialEq, Eq, Hash)]
pub enum Pair<T, P> {
    /// A value that a punct follows.
    Punctuated(T, P),
    /// A value that none follows.
    End(T),
}

impl<T, P> Pair<T, P> {
    ghost use Rattle.syn_lower_leaves.specs.Punct.{pair_value, pair_punct};

    /// The value, and the punct where there is one.
    pub fn into_tuple(self) -> (T, Option<P>)
        ensures { result ≡ (pair_value self, pair_punct self) }
    {
        match self {
            Pair::Punctuated(value, punct) => (value, Some(punct)),
            Pair::End(value) => (value, None),
        }
    }
}

impl<T, P: Drop> Pair<T, P> {
    ghost use Rattle.syn_lower_leaves.specs.Punct.{pair_value};

    /// The value.
    pub fn into_value(self) -> T
        ensures { result ≡ pair_value self }
    {
        match self {
            Pair::Punctuated(value, _punct) => value,
            Pair::End(value) => value,
        }
    }
}

/// Values with puncts between, and perhaps one at the end.
#[derive(Debug, PartialEq, Eq, Hash)]
pub struct Punctuated<T, P> {
    /// The values that puncts follow, each with its own.
    pub inner: Vec<(T, P)>,
    /// The value that none follows.
    pub last: Option<Box<T>>,
}

// Written out and not derived: a crate that lets a list go calls this, and doesn't prove it again for each type of values.
impl<T: Drop, P: Drop> Drop for Punctuated<T, P> {
    fn drop(self) {
        let Punctuated { inner: _, last: _ } = self;
    }
}

impl<T: Drop, P: Drop> Punctuated<T, P> {
    ghost use Rattle.syn_lower_leaves.specs.View.{values, trails};
    ghost use Rattle.std.specs.Prelude.{IfSome, is_some};
    ghost use Rattle.syn_lower_leaves.specs.Punct.{puncts, takes_value, is_one, IsSameList, pair_value, pair_punct, popped_puncts};

    /// An empty list.
    #[tactic(auto, unfolding(crate::specs::View::values, crate::specs::View::trails, crate::specs::Punct::puncts, crate::specs::Punct::takes_value))]
    pub fn new(alloc: Global) -> Punctuated<T, P>
        ensures values { values result ≡ [] }
        ensures puncts { puncts result ≡ [] }
        ensures trails { trails result ≡ false }
        ensures open { takes_value result ≡ true }
    {
        Punctuated {
            inner: Vec::new(alloc),
            last: None,
        }
    }

    /// The allocator that it grows by.
    pub fn alloc(&self) -> Global {
        *self.inner.allocator()
    }

    /// Whether a value may follow: nothing is here yet, or a punct is last.
    #[tactic(auto, unfolding(crate::specs::Punct::takes_value))]
    pub fn empty_or_trailing(&self) -> bool
        ensures { result ≡ takes_value self.now }
    {
        self.last.is_none()
    }

    /// Puts a value at the end, where the list is empty or a punct is last. Where memory runs out the list stays as it
    /// was, and the value is given up.
    #[tactic(auto, unfolding(crate::specs::View::values, crate::specs::View::trails, crate::specs::Punct::puncts, crate::specs::Punct::takes_value))]
    pub fn push_value(&mut self, value: T) -> Result<()>
        requires { takes_value self.old ≡ true }
        ensures values { OnOk result (values self.new ≡ values self.old ++ value ∷ []) }
        ensures puncts { OnOk result (puncts self.new ≡ puncts self.old) }
        ensures trails { OnOk result (trails self.new ≡ false) }
        ensures open { OnOk result (takes_value self.new ≡ false) }
        ensures err { OnErr result (self.new ≡ self.old) }
        ensures memory { IfErr result (λ e. e.kind ≡ ErrorKind.OutOfMemory) }
    {
        self.last = Some(Box::new(self.alloc(), value)?);
        Ok(())
    }

    /// Puts a value at the end that is in a box already, where the list is empty or a punct is last. It takes no memory.
    #[tactic(auto, unfolding(crate::specs::View::values, crate::specs::View::trails, crate::specs::Punct::puncts, crate::specs::Punct::takes_value))]
    pub fn push_boxed(&mut self, value: Box<T>)
        requires { takes_value self.old ≡ true }
        ensures values { values self.new ≡ values self.old ++ value.value ∷ [] }
        ensures puncts { puncts self.new ≡ puncts self.old }
        ensures trails { trails self.new ≡ false }
        ensures open { takes_value self.new ≡ false }
    {
        self.last = Some(value);
    }

    /// Puts a punct at the end, after a value. Where memory runs out the list stays as it was, and the punct is
    /// given up.
    #[tactic(auto, unfolding(crate::specs::View::values, crate::specs::View::trails, crate::specs::Punct::puncts, crate::specs::Punct::takes_value))]
    pub fn push_punct(&mut self, punct: P) -> Result<()>
        requires { takes_value self.old ≡ false }
        ensures values { values self.new ≡ values self.old }
        ensures puncts { OnOk result (puncts self.new ≡ puncts self.old ++ punct ∷ []) }
        ensures trails { OnOk result (trails self.new ≡ true) }
        ensures open { OnOk result (takes_value self.new ≡ true) }
        ensures err { OnErr result (IsSameList self.new self.old) }
        ensures memory { IfErr result (λ e. e.kind ≡ ErrorKind.OutOfMemory) }
    {
        self.inner.reserve(1)?;
        if let Some(value) = self.last.take() {
            self.inner.push((Box::into_inner(value), punct)).unwrap();
        }
        Ok(())
    }

    /// Takes the last value away, with the punct that follows it.
    #[tactic(auto, unfolding(crate::specs::View::values, crate::specs::View::trails, crate::specs::Punct::puncts, crate::specs::Punct::takes_value))]
    pub fn pop(&mut self) -> Option<Pair<T, P>>
        ensures values { MatchOption result ((values self.old ≡ []) × (values self.new ≡ [])) (λ p. values self.old ≡ values self.new ++ pair_value p ∷ []) }
        ensures puncts { puncts self.old ≡ puncts self.new ++ popped_puncts result }
        ensures punct { IfSome result (λ p. is_some (pair_punct p) ≡ trails self.old) }
        ensures open { takes_value self.new ≡ true }
    {
        match self.last.take() {
            Some(value) => Some(Pair::End(Box::into_inner(value))),
            None => match self.inner.pop() {
                Some((value, punct)) => Some(Pair::Punctuated(value, punct)),
                None => None,
            },
        }
    }

    /// The one value, where there is one alone and no punct; else the list.
    #[tactic(auto, unfolding(crate::specs::View::values, crate::specs::View::trails))]
    pub fn into_one(self) -> std::result::Result<Box<T>, Punctuated<T, P>>
        ensures { MatchResult result (λ b. (values self ≡ b.value ∷ []) × (trails self ≡ false)) (λ p. (p ≡ self) × (is_one (values self) (trails self) ≡ false)) }
    {
        let Punctuated { inner, last } = self;
        match last {
            Some(value) if inner.is_empty() => Ok(value),
            last => Err(Punctuated { inner, last }),
        }
    }
}

impl<T, P> Punctuated<T, P> {
    ghost use Rattle.syn_lower_leaves.specs.View.{values, trails};
    ghost use Rattle.syn_lower_leaves.specs.Punct.{left, pairs_left, pairs_of};

    /// How many values there are.
    #[tactic(auto, unfolding(crate::specs::View::values))]
    pub fn len(&self) -> usize
        ensures { result ≡ length (values self.now) }
    {
        self.inner.len() + usize::from(self.last.is_some())
    }

    /// Whether there are none.
    #[tactic(auto, unfolding(crate::specs::View::values))]
    pub fn is_empty(&self) -> bool
        ensures { IsTrue result ↔ (values self.now ≡ []) }
    {
        self.inner.is_empty() && self.last.is_none()
    }

    /// Whether a punct ends it.
    #[tactic(auto, unfolding(crate::specs::View::trails))]
    pub fn trailing_punct(&self) -> bool
        ensures { result ≡ trails self.now }
    {
        self.last.is_none() && !self.inner.is_empty()
    }

    /// The first value.
    #[tactic(auto, unfolding(crate::specs::View::values))]
    pub fn first(&self) -> Option<&T>
        ensures { MatchOption result (values self.now ≡ []) (λ v. values self.now ≡ v.now ∷ drop 1 (values self.now)) }
    {
        match self.inner.first() {
            Some((value, _)) => Some(value),
            None => self.last.as_deref(),
        }
    }

    /// The last value.
    #[tactic(auto, unfolding(crate::specs::View::values))]
    pub fn last(&self) -> Option<&T>
        ensures { MatchOption result (values self.now ≡ []) (λ v. values self.now ≡ take (length (values self.now) - 1) (values self.now) ++ v.now ∷ []) }
    {
        match &self.last {
            Some(value) => Some(value),
            None => match self.inner.as_slice() {
                [.., (value, _)] => Some(value),
                [] => None,
            },
        }
    }

    /// The value at an index, counted from zero.
    #[tactic(auto, using(crate::proofs::Puncts::places), unfolding(crate::specs::View::values))]
    pub fn get(&self, index: usize) -> Option<&T>
        ensures { option_copied result ≡ slice_get (values self.now) index }
    {
        match self.inner.get(index) {
            Some((value, _)) => Some(value),
            None if index == self.inner.len() => self.last.as_deref(),
            None => None,
        }
    }

    /// The values with the puncts that follow them, in their order.
    #[tactic(auto, unfolding(crate::specs::Punct::pairs_of))]
    pub fn pairs(&self) -> Pairs<'_, T, P>
        ensures { pairs_left result ≡ pairs_of self.now }
    {
        Pairs {
            inner: &self.inner,
            last: self.last.as_deref(),
        }
    }

    /// The values, in their order.
    #[tactic(auto, unfolding(crate::specs::View::values))]
    pub fn iter(&self) -> Iter<'_, T, P>
        ensures { left result ≡ values self.now }
    {
        Iter {
            pairs: &self.inner,
            last: self.last.as_deref(),
        }
    }
}

impl<T: Drop, P: Default + Drop> Punctuated<T, P> {
    ghost use Rattle.syn_lower_leaves.specs.View.{values, trails};
    ghost use Rattle.syn_lower_leaves.specs.Punct.{takes_value, PutsPunct, IsSameList};

    /// Puts a value at the end, after a default punct where a value is last. Where memory runs out the list stays
    /// as it was, and the value is given up.
    #[tactic(auto, using(crate::proofs::Puncts::puts), unfolding(crate::specs::View::values, crate::specs::View::trails, crate::specs::Punct::puncts, crate::specs::Punct::takes_value))]
    pub fn push(&mut self, value: T) -> Result<()>
        ensures values { OnOk result (values self.new ≡ values self.old ++ value ∷ []) }
        ensures puncts { OnOk result (PutsPunct P.is_default self.old self.new) }
        ensures trails { OnOk result (trails self.new ≡ false) }
        ensures open { OnOk result (takes_value self.new ≡ false) }
        ensures err { OnErr result (IsSameList self.new self.old) }
        ensures memory { IfErr result (λ e. e.kind ≡ ErrorKind.OutOfMemory) }
    {
        if self.empty_or_trailing() {
            return self.push_value(value);
        }
        let value = Box::new(self.alloc(), value)?;
        self.push_punct(P::default())?;
        self.last = Some(value);
        Ok(())
    }
}

/// The values of a list with puncts, in their order.
#[derive(Drop)]
pub struct Iter<'a, T, P> {
    pairs: &'a [(T, P)],
    last: Option<&'a T>,
}

impl<'a, T, P> Iterator for Iter<'a, T, P> {
    ghost use Rattle.syn_lower_leaves.specs.Punct.{left};

    type Item = &'a T;

    ghost next_gives = { YieldsFirstRef left };

    ghost remaining = { item_count left };

    fn next(&mut self) -> Option<&'a T> {
        match self.pairs.split_first() {
            Some(((value, _), rest)) => {
                self.pairs = rest;
                Some(value)
            }
            None => self.last.take(),
        }
    }
}

impl<'a, T, P> IntoIterator for &'a Punctuated<T, P> {
    ghost use Rattle.syn_lower_leaves.specs.Punct.{left};
    ghost use Rattle.syn_lower_leaves.specs.View.{values};

    type Item = &'a T;

    type IntoIter = Iter<'a, T, P>;

    ghost into_iter_gives = { λ list it. left it ≡ values list.now };

    fn into_iter(self) -> Iter<'a, T, P> {
        self.iter()
    }
}

/// The values of a list with puncts, each with the punct that follows it, in their order.
#[derive(Drop)]
pub struct Pairs<'a, T, P> {
    inner: &'a [(T, P)],
    last: Option<&'a T>,
}

impl<'a, T, P> Iterator for Pairs<'a, T, P> {
    ghost use Rattle.syn_lower_leaves.specs.Punct.{pair_seen, pairs_left};

    type Item = Pair<&'a T, &'a P>;

    ghost next_gives = { YieldsFirstBy pair_seen pairs_left };

    ghost remaining = { item_count pairs_left };

    fn next(&mut self) -> Option<Pair<&'a T, &'a P>> {
        match self.inner.split_first() {
            Some(((value, punct), rest)) => {
                self.inner = rest;
                Some(Pair::Punctuated(value, punct))
            }
            None => match self.last.take() {
                Some(value) => Some(Pair::End(value)),
                None => None,
            },
        }
    }
}
