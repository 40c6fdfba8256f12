//! Short lists that take memory only from the second value on.
ghost use Rattle.std.specs.Prelude.{◌≡◌, ◌∷◌, ◌++◌, [], length, IfOk, OnOk};
ghost use Rattle.bidi_grammar.specs.View.{listed};

use std::alloc::{AllocError, Global};
use std::mem;

/// How many values a list of two has room for.
const ROOM: usize = 8;

/// A list of values. None and one take no memory.
#[derive(Drop)]
pub(crate) enum Few<T> {
    Nothing,
    One(T),
    Many(Vec<T>),
}

impl<T: Drop> Few<T> {
    /// How many they are.
    pub(crate) fn len(&self) -> usize
        ensures { result ≡ length (listed self.now) }
    {
        match self {
            Few::Nothing => 0,
            Few::One(_) => 1,
            Few::Many(list) => list.len(),
        }
    }

    /// Puts one behind them.
    pub(crate) fn push(&mut self, alloc: Global, value: T) -> Result<(), AllocError>
        ensures { OnOk result (listed self.new ≡ listed self.old ++ value ∷ []) }
    {
        let few = mem::replace(self, Few::Nothing);
        *self = few.with(alloc, value)?;
        Ok(())
    }

    // These, and one behind them.
    fn with(self, alloc: Global, value: T) -> Result<Few<T>, AllocError>
        ensures { IfOk result (λ few. listed few ≡ listed self ++ value ∷ []) }
    {
        match self {
            Few::Nothing => Ok(Few::One(value)),
            Few::One(first) => Ok(Few::Many(two(alloc, first, value)?)),
            Few::Many(list) => Ok(Few::Many(pushed(list, value)?)),
        }
    }

    /// Puts others behind them.
    pub(crate) fn append(&mut self, alloc: Global, others: Few<T>) -> Result<(), AllocError>
        ensures { OnOk result (listed self.new ≡ listed self.old ++ listed others) }
    {
        let few = mem::replace(self, Few::Nothing);
        *self = few.and(alloc, others)?;
        Ok(())
    }

    // These, and others behind them.
    fn and(self, alloc: Global, others: Few<T>) -> Result<Few<T>, AllocError>
        ensures { IfOk result (λ few. listed few ≡ listed self ++ listed others) }
    {
        match self {
            Few::Nothing => Ok(others),
            Few::One(first) => others.behind(alloc, first),
            Few::Many(list) => joined(list, others),
        }
    }

    // One, and these behind it.
    fn behind(self, alloc: Global, first: T) -> Result<Few<T>, AllocError>
        ensures { IfOk result (λ few. listed few ≡ first ∷ listed self) }
    {
        match self {
            Few::Nothing => Ok(Few::One(first)),
            Few::One(second) => Ok(Few::Many(two(alloc, first, second)?)),
            Few::Many(list) => Ok(Few::Many(begun(list, first)?)),
        }
    }

    /// The list of them.
    pub(crate) fn into_vec(self, alloc: Global) -> Result<Vec<T>, AllocError>
        ensures { IfOk result (λ list. list.items ≡ listed self) }
    {
        match self {
            Few::Nothing => Ok(Vec::new(alloc)),
            Few::One(value) => one(alloc, value),
            Few::Many(list) => Ok(list),
        }
    }
}

// A list of one.
fn one<T: Drop>(alloc: Global, value: T) -> Result<Vec<T>, AllocError>
    ensures { IfOk result (λ list. list.items ≡ value ∷ []) }
{
    pushed(Vec::with_capacity(alloc, 1)?, value)
}

// A list of two.
fn two<T: Drop>(alloc: Global, first: T, second: T) -> Result<Vec<T>, AllocError>
    ensures { IfOk result (λ list. list.items ≡ first ∷ second ∷ []) }
{
    pushed(pushed(Vec::with_capacity(alloc, ROOM)?, first)?, second)
}

// A list, and one value behind it.
fn pushed<T: Drop>(list: Vec<T>, value: T) -> Result<Vec<T>, AllocError>
    ensures { IfOk result (λ more. more.items ≡ list.items ++ value ∷ []) }
{
    let mut list = list;
    list.push(value)?;
    Ok(list)
}

// A value, and a list behind it.
fn begun<T: Drop>(list: Vec<T>, first: T) -> Result<Vec<T>, AllocError>
    ensures { IfOk result (λ more. more.items ≡ first ∷ list.items) }
{
    let mut list = list;
    list.insert(0, first)?;
    Ok(list)
}

// A list, and others behind it.
fn joined<T: Drop>(list: Vec<T>, others: Few<T>) -> Result<Few<T>, AllocError>
    ensures { IfOk result (λ few. listed few ≡ list.items ++ listed others) }
{
    match others {
        Few::Nothing => Ok(Few::Many(list)),
        Few::One(value) => Ok(Few::Many(pushed(list, value)?)),
        Few::Many(more) => Ok(Few::Many(appended(list, more)?)),
    }
}

// Two lists, one behind the other.
fn appended<T: Drop>(list: Vec<T>, more: Vec<T>) -> Result<Vec<T>, AllocError>
    ensures { IfOk result (λ all. all.items ≡ list.items ++ more.items) }
{
    let mut list = list;
    let mut more = more;
    list.append(&mut more)?;
    Ok(list)
}
