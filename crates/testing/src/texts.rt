//! Trees and values of texts, and texts of trees and values.
ghost use Rattle.std.specs.Prelude.{IfOk};

use bidi_shape::{Ext, MakeFault, Parsed, Shape};
use bidi_tree::{Members, Outline, Tree, outline_parsed, parse, read, write};
use json::{Scratch, Value};
use std::alloc::Global;
use std::fmt::Debug;
use std::test::Fail;

/// The tree of a text.
pub fn tree_of(alloc: Global, text: &str) -> Result<Tree, Fail> {
    Ok(read(alloc, text, None)?)
}

/// The members of the map that a text is.
pub fn members_of(alloc: Global, text: &str) -> Result<Members, Fail> {
    match tree_of(alloc, text)? {
        Tree::Map(members) => Ok(members),
        _ => Err(Fail::from("no map")),
    }
}

/// The compact text of a tree.
pub fn written(alloc: Global, tree: Tree) -> Result<String, Fail> {
    if tree.is_writable() {
        Ok(write(alloc, &tree)?)
    } else {
        Ok(String::from_str(alloc, "not writable")?)
    }
}

/// The value that a text reads as.
pub fn value_of<X: Shape>(alloc: Global, text: &str) -> Result<X, Fail>
    ensures well { IfOk result (λ v. X.shape.well v) }
{
    Ok(X::from_tree(alloc, &tree_of(alloc, text)?)?)
}

/// The compact text of a value.
pub fn text_of<X: Shape>(alloc: Global, value: X) -> Result<String, Fail> {
    written(alloc, value.to_tree(alloc)?)
}

/// The compact text of the value that a text reads as, or the fault: by its tree, by an outline and straight, which
/// agree.
pub fn again<X: Shape>(alloc: Global, text: &str) -> Result<String, Fail> {
    let mut scratch = Scratch::new(alloc);
    let value = parse(alloc, text, None, &mut scratch)?;
    let straight = read_again::<X, Value>(alloc, &value)?;
    let by_outline = read_again::<X, Outline>(alloc, &outline_parsed(alloc, &value)?)?;
    let by_tree = read_again::<X, Tree>(alloc, &tree_of(alloc, text)?)?;
    if by_tree == straight && by_tree == by_outline {
        Ok(by_tree)
    } else {
        Err(Fail::from("a text reads in more than one way"))
    }
}

fn read_again<X: Shape, S: Parsed>(alloc: Global, tree: &S) -> Result<String, Fail> {
    match X::from_tree(alloc, tree) {
        Ok(value) => text_of(alloc, value),
        Err(fault) => Ok(format!(in alloc; "{fault:?}")?),
    }
}

/// The compact text of a value that was made, or the fault.
pub fn told<X: Shape>(alloc: Global, made: Result<X, MakeFault>) -> Result<String, Fail> {
    match made {
        Ok(value) => text_of(alloc, value),
        Err(fault) => Ok(format!(in alloc; "{fault:?}")?),
    }
}

/// The name of the variant that a text reads as.
pub fn variant_of<X: Shape + Debug>(alloc: Global, text: &str) -> Result<String, Fail> {
    let value = value_of::<X>(alloc, text)?;
    Ok(format!(in alloc; "{value:?}")?)
}

/// A text of one's own.
pub fn owned(alloc: Global, text: &str) -> Result<String, Fail> {
    Ok(String::from_str(alloc, text)?)
}

/// A name, and further members.
pub fn with_further(alloc: Global, name: &str, ext: &Ext) -> Result<String, Fail> {
    let ext = written(alloc, Tree::Map(ext.copy_members()?))?;
    Ok(format!(in alloc; "{name} {ext}")?)
}
