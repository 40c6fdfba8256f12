//! The terms of maps.
use crate::draft::{Draft, Origin};
use crate::fault::{fault_at, fault_of_name};
use crate::place_at;
use bidi_cddl::{LoadFault, Node, Occurs};
use bidi_grammar::{Need, Row, Term};

impl<'t, 's> Draft<'t, 's> {
    /// The map at a node: a choice of its alternatives.
    pub(crate) fn map(&mut self, node: usize) -> Result<Term, LoadFault> {
        let reading = self.reading;
        let lists = match reading.lists.get(node) {
            Some(lists) => lists,
            None => return Err(fault_at(
                self.alloc,
                place_at(self.written, node),
                "no alternative",
            )),
        };
        let Some(last) = lists.last() else {
            return Err(fault_at(self.alloc, place_at(self.written, node), "no alternative"));
        };
        let mut all = self.alternative(last)?;
        for (i, list) in lists.iter().enumerate().rev() {
            let next = i.saturating_add(1);
            if next < lists.len() {
                let second = self.push(all, Origin::Alternatives(node, next), node)?;
                let found = self.alternative(list)?;
                let first = self.push(found, Origin::Alternative(node, i), node)?;
                all = Term::Either(first, second);
            }
        }
        Ok(all)
    }

    /// The map of some entries.
    fn alternative(&mut self, entries: &'s Vec<usize>) -> Result<Term, LoadFault> {
        let mut rows: Vec<Row> = Vec::new(self.alloc);
        let mut rest = None;
        for entry in entries {
            match self.written.nodes.get(*entry) {
                Some(Node::Member(occurs, _, value)) => self.add_row(
                    &mut rows, *entry, *occurs, *value,
                )?,
                Some(Node::Further(_, value)) => {
                    if rest.is_some() {
                        return Err(fault_at(
                            self.alloc,
                            place_at(self.written, *entry),
                            "two kinds of further members",
                        ));
                    }
                    self.ask(*value)?;
                    rest = Some(*value);
                }
                _ => return Err(fault_at(self.alloc, place_at(self.written, *entry), "no entry")),
            }
        }
        Ok(Term::MapOf(rows, rest))
    }

    /// Adds a row for the member at a node.
    fn add_row(
        &mut self,
        rows: &mut Vec<Row>,
        entry: usize,
        occurs: Occurs,
        value: usize,
    ) -> Result<(), LoadFault> {
        let at = place_at(self.written, entry);
        let reading = self.reading;
        let name = match reading.texts.get(entry) {
            Some(text) => text.as_str(),
            None => return Err(fault_at(self.alloc, at, "no name")),
        };
        if has_row(rows, name) {
            return Err(fault_of_name(
                self.alloc,
                at,
                "twice in one alternative stands the member",
                name,
            ));
        }
        self.ask(value)?;
        let need = if occurs == Occurs::Once {
            Need::Required
        } else {
            Need::Optional
        };
        let name = String::from_str(self.alloc, name)?;
        rows.push(Row {
            name,
            need,
            term: value,
        })?;
        Ok(())
    }
}

// Whether a row has the name.
fn has_row(rows: &[Row], name: &str) -> bool {
    rows.iter().any(|row| row.name.as_str() == name)
}
