//! Types whose values are a few strings.
ghost use Rattle.std.specs.Prelude.{◌≡◌, ◌∷◌, map, IfOk};
ghost use Rattle.bidi_tree.specs.Node as kind;
ghost use Rattle.bidi_shape.specs.Fits.{Fits};
ghost use Rattle.bidi_shape.specs.Outcome.{IfNoFit};
ghost use Rattle.bidi_shape.specs.WordLaws.{Words, word, value_named};

use crate::fault::ShapeFault;
use crate::parsed::Parsed;
use crate::shape::Shape;
use bidi_tree::Outline;
use std::alloc::{AllocError, Global};

/// A type whose values are a few strings: `"a" / "b" / ..`.
pub trait Named: Copy + Drop + 'static {
    // The rule, the table of strings and values, and that the string of each value names it.
    ghost words: { Words Self };

    /// All values, in the order of the rule. Takes no memory.
    fn all() -> &'static [Self]
        // The result has each value of the table once, in its order.
        ensures { map (word words.text_of) result.now ≡ words.first ∷ words.rest };

    /// The string of the value. Takes no memory.
    fn name(&self) -> &'static str
        // The result is the string that the table has for this value.
        ensures { result.now ≡ words.text_of self.now };

    /// Finds the value with that string. Takes no memory; compares the string with each in turn.
    final fn named(text: &str) -> Option<Self>
        // The result is the value that the string names, or `None` if it names none.
        ensures { result ≡ value_named words.first words.rest text.now }
    {
        for value in Self::all() {
            if text == value.name() {
                return Some(*value);
            }
        }
        None
    }
}

/// A value is read from its string, and written as it.
impl<W: Named> Shape for W {
    ghost use Rattle.bidi_shape.specs.WordLaws.{word_shape};

    // The rule of the type; the tree of a value is its string.
    ghost shape = { word_shape W.words };

    fn from_tree<S: Parsed>(alloc: Global, tree: &S) -> Result<W, ShapeFault> {
        read_word(tree)
    }

    fn outline<'a>(&'a self, alloc: Global) -> Result<Outline<'a>, AllocError> {
        Ok(Outline::Text(self.name()))
    }
}

/// Reads the value that a string names.
///
/// # Errors
/// `NoFit`: the tree is not a string that names a value.
pub fn read_word<W: Named, S: Parsed>(tree: &S) -> Result<W, ShapeFault>
    // After an Ok, the tree is the string of the value.
    ensures ok { IfOk result (λ w. kind.text (W.words.text_of w) ≡ S.tree tree.now) }
    // `NoFit` comes only if the tree does not fit the rule of the type.
    ensures no_fit { IfNoFit result (Fits (S.tree tree.now) W.words.rule → ⊥) }
{
    match tree.as_str() {
        Some(text) => match W::named(text) {
            Some(word) => Ok(word),
            None => Err(ShapeFault::NoFit),
        },
        None => Err(ShapeFault::NoFit),
    }
}
