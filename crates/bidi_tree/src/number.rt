//! The whole numbers that every reader of JSON holds exactly.
ghost use Rattle.std.specs.Prelude.{◌≡◌, ◌<◌, ◌≤◌, ◌^◌, MatchOption};
ghost use Rattle.bidi_tree.specs.Number.{IsJsInt};

/// The greatest of these numbers, 2^53 - 1.
const GREATEST: u64 = 9_007_199_254_740_991;

/// A whole number from 0 to 9007199254740991.
///
/// `js-uint = 0..9007199254740991`, after WebDriver BiDi, "Protocol".
#[derive(Clone, Copy, Debug, PartialEq, Eq, PartialOrd, Ord, Drop)]
pub struct JsUint {
    pub value: u64,
    // Every value of this type is in range.
    pub ghost in_range: { value < 2 ^ 53 },
}

impl JsUint {
    /// Makes the number, or gives `None` if it is above 9007199254740991. Takes no memory.
    pub fn new(value: u64) -> Option<JsUint>
        // The result is the number, or `None` exactly if it is out of range.
        ensures { MatchOption result (2 ^ 53 ≤ value) (λ n. n.value ≡ value) }
    {
        if value <= GREATEST {
            Some(JsUint { value })
        } else {
            None
        }
    }
}

/// A whole number from -9007199254740991 to 9007199254740991.
///
/// `js-int = -9007199254740991..9007199254740991`, after WebDriver BiDi, "Protocol".
#[derive(Clone, Copy, Debug, PartialEq, Eq, PartialOrd, Ord, Drop)]
pub struct JsInt {
    pub value: i64,
    // Every value of this type is in range.
    pub ghost in_range: { IsJsInt value },
}

impl JsInt {
    /// Makes the number, or gives `None` if it is further than 9007199254740991 from 0. Takes no memory.
    pub fn new(value: i64) -> Option<JsInt>
        // The result is the number, or `None` exactly if it is out of range.
        ensures { MatchOption result (¬ IsJsInt value) (λ n. n.value ≡ value) }
    {
        if value.unsigned_abs() <= GREATEST {
            Some(JsInt { value })
        } else {
            None
        }
    }
}
