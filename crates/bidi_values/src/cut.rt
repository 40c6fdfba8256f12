//! Cutting a value: what it holds deeper than so many levels is left out.
ghost use Rattle.std.specs.Prelude.{◌≡◌, map};
ghost use Rattle.bidi_values.specs.Cut.{cut};
ghost use Rattle.bidi_values.specs.RemoteView.{remote_tree, remote_pair_tree, remote_key_tree, RemoteIsWell};

use crate::held::{RemoteList, RemotePairs};
use crate::nested::{Nested, NestedKey};
use crate::primitive::Primitive;
use crate::remote_value::{RemoteKey, RemotePair, RemotePlain, RemoteValue};
use bidi_tree::JsUint;
use std::mem;

impl Nested<RemotePlain, RemoteList, RemotePairs> {
    /// The value with at most `depth` levels of values in it. At depth 0, an array, a set, an object or a map has no
    /// member `value`; further out, each value that it holds is cut one level less deep, a key that is a value too.
    /// Other values stay as they are.
    ///
    /// Takes no memory, and costs a walk through what is left. What is cut off is freed.
    ///
    /// After WebDriver BiDi, "The script.SerializationOptions Type".
    pub fn cut(self, depth: JsUint) -> RemoteValue
        // The tree of the result is the tree of the value, cut at that depth.
        ensures tree { remote_tree result ≡ cut depth.value (remote_tree self) }
        // A well-formed value stays well-formed.
        ensures well { RemoteIsWell self → RemoteIsWell result }
    {
        cut_value(self, depth.value)
    }
}

// The value, cut at this depth.
#[cycle(cut)]
fn cut_value(value: RemoteValue, depth: u64) -> RemoteValue
    ensures { remote_tree result ≡ cut depth (remote_tree value) }
{
    match value {
        Nested::Plain(plain) => Nested::Plain(plain),
        Nested::List(siblings, mut values) => {
            if depth == 0 {
                Nested::Plain(RemotePlain::List(siblings))
            } else {
                cut_values(&mut values, depth - 1);
                Nested::List(siblings, values)
            }
        }
        Nested::Pairs(siblings, mut pairs) => {
            if depth == 0 {
                Nested::Plain(RemotePlain::Pairs(siblings))
            } else {
                cut_pairs(&mut pairs, depth - 1);
                Nested::Pairs(siblings, pairs)
            }
        }
    }
}

// Each value, cut at this depth.
#[cycle(cut)]
fn cut_values(values: &mut Vec<RemoteValue>, depth: u64)
    ensures { map remote_tree values.new.items ≡ map (λ v. cut depth (remote_tree v)) values.old.items }
{
    for value in values.iter_mut() {
        let whole = mem::replace(value, nothing());
        *value = cut_value(whole, depth);
    }
}

// The key and the value of each pair, cut at this depth.
#[cycle(cut)]
fn cut_pairs(pairs: &mut Vec<RemotePair>, depth: u64)
    ensures { map remote_pair_tree pairs.new.items ≡ map (λ p. cut depth (remote_pair_tree p)) pairs.old.items }
{
    for pair in pairs.iter_mut() {
        cut_pair(pair, depth);
    }
}

#[cycle(cut)]
fn cut_pair(pair: &mut RemotePair, depth: u64)
    ensures { remote_pair_tree pair.new ≡ cut depth (remote_pair_tree pair.old) }
{
    let key = mem::replace(&mut pair.key, NestedKey::Value(nothing()));
    pair.key = cut_key(key, depth);
    let value = mem::replace(&mut pair.value, nothing());
    pair.value = cut_value(value, depth);
}

// A key that is a text stays.
#[cycle(cut)]
fn cut_key(key: RemoteKey, depth: u64) -> RemoteKey
    ensures { remote_key_tree result ≡ cut depth (remote_key_tree key) }
{
    match key {
        NestedKey::Value(value) => NestedKey::Value(cut_value(value, depth)),
        NestedKey::Text(text) => NestedKey::Text(text),
    }
}

// What stands in a value's place while it is cut.
fn nothing() -> RemoteValue {
    Nested::Plain(RemotePlain::Primitive(Primitive::Undefined))
}
