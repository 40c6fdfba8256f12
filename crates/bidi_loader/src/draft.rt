//! A table while it is made.
use crate::fault::fault_at;
use crate::place_at;
use crate::reading::Reading;
use bidi_cddl::{LoadFault, Written};
use bidi_grammar::Term;
use std::alloc::Global;

/// The most terms of a table.
const MAX_TERMS: usize = 65_536;

/// What a place of a table was made of.
#[derive(Clone, Copy, PartialEq, Eq, Drop)]
pub(crate) enum Origin {
    /// The type at a node.
    Type(usize),
    /// A rule by its name: the place of the rule in the list of rules.
    Rule(usize),
    /// One list of entries of the map at a node.
    Alternative(usize, usize),
    /// The lists of entries of the map at a node, from one on.
    Alternatives(usize, usize),
}

/// A table while it is made. Until it is settled, a number in an array or a map is that of a node.
#[derive(Drop)]
pub(crate) struct Draft<'t, 's> {
    pub(crate) alloc: Global,
    pub(crate) written: &'s Written<'t>,
    pub(crate) reading: &'s Reading,
    pub(crate) terms: Vec<Term>,
    /// What each place was made of.
    pub(crate) origins: Vec<Origin>,
    /// The place of each node.
    pub(crate) places: Vec<Option<usize>>,
    /// The nodes that lead to the one that is looked at.
    pub(crate) path: Vec<usize>,
    /// Whether each node is on the path.
    pub(crate) on_path: Vec<bool>,
    /// The nodes that need a place, each once.
    pub(crate) waiting: Vec<usize>,
    /// Whether each node needs a place.
    pub(crate) asked: Vec<bool>,
}

impl<'t, 's> Draft<'t, 's> {
    /// A table of nothing.
    pub(crate) fn new(
        alloc: Global,
        written: &'s Written<'t>,
        reading: &'s Reading,
    ) -> Result<Draft<'t, 's>, LoadFault> {
        let mut draft = Draft {
            alloc,
            written,
            reading,
            terms: Vec::new(alloc),
            origins: Vec::new(alloc),
            places: Vec::new(alloc),
            path: Vec::new(alloc),
            on_path: Vec::new(alloc),
            waiting: Vec::new(alloc),
            asked: Vec::new(alloc),
        };
        for _ in 0..written.nodes.len() {
            draft.places.push(None)?;
            draft.on_path.push(false)?;
            draft.asked.push(false)?;
        }
        Ok(draft)
    }

    /// Adds a term that was made at a node.
    pub(crate) fn push(
        &mut self,
        term: Term,
        origin: Origin,
        node: usize,
    ) -> Result<usize, LoadFault> {
        let place = self.terms.len();
        if place >= MAX_TERMS {
            return Err(fault_at(
                self.alloc,
                place_at(self.written, node),
                "more than 65536 terms",
            ));
        }
        self.terms.push(term)?;
        self.origins.push(origin)?;
        Ok(place)
    }

    /// Asks for a place of a node.
    pub(crate) fn ask(&mut self, node: usize) -> Result<(), LoadFault> {
        if node < self.asked.len() && !self.asked[node] {
            self.asked[node] = true;
            self.waiting.push(node)?;
        }
        Ok(())
    }

    /// The place of a node, if it has one.
    pub(crate) fn place(&self, node: usize) -> Option<usize> {
        self.places.get(node).copied().unwrap_or(None)
    }

    /// Puts a node on the path, or takes it off.
    pub(crate) fn set_on_path(&mut self, node: usize, is_on: bool) {
        if node < self.on_path.len() {
            self.on_path[node] = is_on;
        }
    }

    /// Whether a node is on the path.
    pub(crate) fn is_on_path(&self, node: usize) -> bool {
        self.on_path.get(node).copied().unwrap_or(false)
    }
}
