//! What places of a table were made of.
ghost use Rattle.std.specs.Prelude.{◌≡◌, IsTrue, drop};
ghost use Rattle.bidi_grammar.specs.Source.{PartsAre, of_lists, of_type};
ghost use Rattle.bidi_loader.specs.Meaning.{parts_at, type_at, written_trees};
ghost use Rattle.bidi_loader.specs.Readings.{lists_at, source_at};

use crate::draft::Origin;
use crate::reading::Reading;
use bidi_cddl::Written;

/// Whether a place was made of the type at a node.
pub(crate) fn is_type_of(
    written: &Written<'_>,
    reading: &Reading,
    origins: &[Origin],
    place: usize,
    node: usize,
) -> bool
    // If so, that type is the place's source.
    ensures { IsTrue result → source_at written.now reading.now origins.now place
        ≡ of_type (type_at (written_trees written.now) node) }
{
    if place >= origins.len() {
        return false;
    }
    match origins[place] {
        Origin::Type(found) => found == node,
        _ => false,
    }
}

/// Whether places were made of the types at some nodes, in order.
pub(crate) fn are_types_of(
    written: &Written<'_>,
    reading: &Reading,
    origins: &[Origin],
    places: &[usize],
    nodes: &[usize],
) -> bool
    // If so, those types are the places' sources.
    ensures { IsTrue result → PartsAre (source_at written.now reading.now origins.now) places.now
        (parts_at (written_trees written.now) nodes.now) }
{
    if places.len() != nodes.len() {
        return false;
    }
    'parts: for (i, place) in places.iter().enumerate() {
        if !is_type_of(written, reading, origins, *place, nodes[i]) {
            return false;
        }
    }
    true
}

/// Whether a place was made of the lists of entries of a map, from one on.
pub(crate) fn are_lists_of(
    written: &Written<'_>,
    reading: &Reading,
    origins: &[Origin],
    place: usize,
    node: usize,
    from: usize,
) -> bool
    // If so, those lists are the place's source.
    ensures { IsTrue result → source_at written.now reading.now origins.now place
        ≡ of_lists (drop from (lists_at written.now reading.now node)) }
{
    if place >= origins.len() {
        return false;
    }
    match origins[place] {
        Origin::Alternatives(found, first) => found == node && first == from,
        _ => false,
    }
}
