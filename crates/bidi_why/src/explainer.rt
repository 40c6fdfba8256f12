//! What tells of lines one by one.
ghost use Rattle.std.specs.Prelude.{◌≡◌, ℕ, ◌+◌, List, [], ◌∷◌, ◌++◌, length, option_map, IfOk};
ghost use Rattle.bidi_remarks.specs.Explaining.{told_of};
ghost use Rattle.bidi_why.specs.Input.{IsOf};
ghost use Rattle.bidi_why.specs.Explainers.{text_in};
ghost use Rattle.bidi_why.specs.Summary.{Entry, entries_in};

use crate::next_line::Line;
use bidi_remarks::Told;
use std::alloc::{AllocError, Global};

/// What tells of the lines of an input one by one.
pub(crate) trait Explainer {
    // Since the first of two states it has told of these lines by this text, and so they are counted.
    ghost has_told: { Self → Self → List (List ℕ) → List ℕ → List Entry → Type 0 };

    /// What is told of the next line, which has this number, counted from 1; `None` where nothing is.
    ///
    /// # Errors
    /// No memory: an allocation failed.
    fn explain(
        &mut self,
        alloc: Global,
        number: u64,
        line: Line,
    ) -> Result<Option<Told>, AllocError>
        ensures { (first : Self) (lines : List (List ℕ)) (text : List ℕ) (told : List Entry) (is : List ℕ) → has_told first self.old lines text told
            → number ≡ length lines + 1 → IsOf line is
            → IfOk result (λ found. has_told first self.new (lines ++ is ∷ []) (text ++ text_in found) (told ++ entries_in is (option_map told_of found))) };
}
