//! Regular expressions.
ghost use Rattle.std.specs.Prelude.{◌≡◌, IfOk, refl, []};

use crate::copying::copy_text;
use bidi_shape::{
    Closed, End, Fields, Maybe, One, Optional, Parsed, Required, Shape, ShapeFault, outline_fields,
    read_fields,
};
use bidi_tree::Outline;
use std::alloc::{AllocError, Global};

/// A regular expression, as its source has it. Neither of the two texts is checked.
///
/// `{ pattern: text, ? flags: text }`
///
/// After WebDriver BiDi, "The script.LocalValue Type".
#[derive(Drop)]
pub struct RegExpValue {
    pub pattern: String,
    pub flags: Option<String>,
}

impl RegExpValue {
    /// A copy of the value, which shares no memory with it.
    ///
    /// # Errors
    /// No memory: an allocation failed.
    pub fn copy(&self) -> Result<RegExpValue, AllocError>
        // The copy has the same tree.
        ensures tree { IfOk result (λ v. ⟦<RegExpValue as Shape>⟧.shape.tree_of v ≡ ⟦<RegExpValue as Shape>⟧.shape.tree_of self.now) }
        // The copy of a well-formed value is well-formed.
        ensures well { ⟦<RegExpValue as Shape>⟧.shape.well self.now → IfOk result ⟦<RegExpValue as Shape>⟧.shape.well }
    {
        Ok(RegExpValue {
            pattern: self.pattern.clone()?,
            flags: copy_text(&self.flags)?,
        })
    }
}

impl RegExpValue {
    // In the order of the rule.
    const NAMES: &'static [&'static str] = &["pattern", "flags"];
}

type Parts = Required<String, Optional<String, Closed>>;

impl Shape for RegExpValue {
    ghost use Rattle.bidi_shape.specs.Table.{map_shape};
    ghost use Rattle.bidi_shape.specs.Name.{reg_exp_value};
    ghost use Rattle.bidi_shape.specs.Term.{rule as named};

    ghost shape = { map_shape (named reg_exp_value) ⟦<Parts as Fields>⟧.table [] (λ v. (v.pattern, (v.flags, record {}))) refl refl };

    fn from_tree<S: Parsed>(alloc: Global, tree: &S) -> Result<RegExpValue, ShapeFault> {
        let parts = read_fields(alloc, tree, Self::NAMES, &[])?;
        let Required(pattern, Optional(flags, Closed)) = parts;
        Ok(RegExpValue { pattern, flags })
    }

    fn outline<'a>(&'a self, alloc: Global) -> Result<Outline<'a>, AllocError> {
        let members = One(&self.pattern, Maybe(&self.flags, End));
        outline_fields(alloc, &members, Self::NAMES, &[])
    }
}
