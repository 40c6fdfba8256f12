//! Events with places.
ghost use Rattle.json.specs.Tree.{HasNumbers};
ghost use Rattle.bidi_rows.specs.Numbers.{HasNumbers-prop};
ghost use Rattle.bidi_rows.specs.Part.{part_of};

use crate::part::Part;

/// An event that follows others. A string `$context`, `$navigation` or `$url` in its params is a place.
#[derive(Drop)]
pub struct Template {
    /// Its method, as JSON text.
    pub method: String,
    /// Its params.
    pub params: Part,
    // Each number in the params was read, so it can be written.
    ghost has_numbers: { HasNumbers (part_of params) } by { HasNumbers-prop (part_of params) },
}
