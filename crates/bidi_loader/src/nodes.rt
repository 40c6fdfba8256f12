//! The terms of nodes.
//!
//! The parts of a choice and the rule of a name have their places before the node itself. A path leads from the node that is wanted to
//! such parts; a part that is on the path already is a rule that is nothing but itself.
use crate::bounds::bounded;
use crate::draft::{Draft, Origin};
use crate::fault::{circle, fault_at, fault_of_name};
use crate::items::Items;
use crate::number::{has_digits_alone, whole_in};
use crate::place_at;
use crate::plain::{Plain, plain_term, prelude, range};
use crate::rules::{is_type, rule_named, type_in};
use bidi_cddl::{LoadFault, Node, Rule};
use bidi_grammar::Term;

impl<'t, 's> Draft<'t, 's> {
    /// The place of a node; it is made if it is not there.
    pub(crate) fn node(&mut self, node: usize) -> Result<usize, LoadFault> {
        self.enter(node)?;
        let most = self.written.nodes.len().saturating_mul(4).saturating_add(4);
        for _ in 0..most {
            let Some(last) = self.path.last().copied() else {
                break;
            };
            self.step(last)?;
        }
        match self.place(node) {
            Some(place) => Ok(place),
            None => Err(fault_at(self.alloc, place_at(self.written, node), "no type")),
        }
    }

    fn enter(&mut self, node: usize) -> Result<(), LoadFault> {
        self.set_on_path(node, true);
        self.path.push(node)?;
        Ok(())
    }

    fn leave(&mut self, node: usize) {
        self.path.pop();
        self.set_on_path(node, false);
    }

    /// Makes the term of the last node of the path, or goes on to a part that it needs.
    fn step(&mut self, node: usize) -> Result<(), LoadFault> {
        if self.place(node).is_some() {
            self.leave(node);
            return Ok(());
        }
        if let Some(part) = self.missing(node)? {
            if self.is_on_path(part) {
                return self.circle(node, part);
            }
            return self.enter(part);
        }
        let term = self.term(node)?;
        let place = self.push(term, Origin::Type(node), node)?;
        if node < self.places.len() {
            self.places[node] = Some(place);
        }
        self.leave(node);
        Ok(())
    }

    /// A part without a place that has to come before the node.
    fn missing(&self, node: usize) -> Result<Option<usize>, LoadFault> {
        match self.written.nodes.get(node) {
            Some(Node::Either(first, second)) => {
                if self.place(*first).is_none() {
                    return Ok(Some(*first));
                }
                Ok(self.missing_one(*second))
            }
            Some(Node::Name(name)) => match rule_named(&self.written.rules, name) {
                Some(rule) => Ok(self.missing_one(self.type_of(rule, node)?)),
                None => Ok(None),
            },
            _ => Ok(None),
        }
    }

    fn missing_one(&self, node: usize) -> Option<usize> {
        if self.place(node).is_none() {
            Some(node)
        } else {
            None
        }
    }

    /// The node of a rule's type; a node names the rule.
    fn type_of(&self, rule: &Rule<'t>, node: usize) -> Result<usize, LoadFault> {
        match type_in(rule.body) {
            Some(found) if is_type(self.written, rule) => Ok(found),
            _ => Err(fault_of_name(
                self.alloc,
                place_at(self.written, node),
                "expected a type, found the group",
                rule.name,
            )),
        }
    }

    /// That a node leads to a part that leads to the node.
    fn circle(&self, node: usize, part: usize) -> Result<(), LoadFault> {
        let mut names = Vec::new(self.alloc);
        let mut is_in = false;
        for on_path in &self.path {
            if *on_path == part {
                is_in = true;
            }
            if is_in {
                if let Some(Node::Name(name)) = self.written.nodes.get(*on_path) {
                    names.push(*name)?;
                }
            }
        }
        Err(circle(
            self.alloc,
            place_at(self.written, node),
            "a rule that is nothing but itself:",
            &names,
        ))
    }

    /// The term of a node whose parts have their places.
    fn term(&mut self, node: usize) -> Result<Term, LoadFault> {
        let at = place_at(self.written, node);
        match self.written.nodes.get(node) {
            Some(Node::Name(name)) => self.name(name, node),
            Some(Node::Either(first, second)) => match (self.place(*first), self.place(*second)) {
                (Some(first), Some(second)) => Ok(Term::Either(first, second)),
                _ => Err(fault_at(self.alloc, at, "no type")),
            },
            Some(Node::Map(_)) => self.map(node),
            Some(Node::Array(_)) => self.array(node),
            Some(found) => {
                let plain = self.plain(found, node)?;
                Ok(plain_term(self.alloc, plain)?)
            }
            None => Err(fault_at(self.alloc, at, "no type")),
        }
    }

    /// The plain type that a node is.
    fn plain(&self, found: &'s Node<'t>, node: usize) -> Result<Plain<'s>, LoadFault> {
        let at = place_at(self.written, node);
        match found {
            Node::Text(_) => match self.reading.texts.get(node) {
                Some(text) => Ok(Plain::Exactly(text)),
                None => Err(fault_at(self.alloc, at, "no string")),
            },
            Node::Number(number) => self.range(number, number, false, at),
            Node::Range(least, most, is_open) => self.range(least, most, *is_open, at),
            Node::Bounded(base, control, number) => match bounded(
                self.written,
                *base,
                control,
                number,
                node,
            ) {
                Some(plain) => Ok(plain),
                None => Err(fault_at(
                    self.alloc,
                    at,
                    "a bound of anything but a float is left out",
                )),
            },
            _ => Err(fault_at(self.alloc, at, "expected a type, found a group")),
        }
    }

    fn range(
        &self,
        least: &'s str,
        most: &'s str,
        is_open: bool,
        at: usize,
    ) -> Result<Plain<'s>, LoadFault> {
        if is_too_large(least) || is_too_large(most) {
            return Err(fault_at(self.alloc, at, "a whole number of more than 64 bits"));
        }
        Ok(range(least, most, is_open))
    }

    /// A rule, or a type of the prelude.
    fn name(&mut self, name: &str, node: usize) -> Result<Term, LoadFault> {
        let at = place_at(self.written, node);
        let Some(rule) = rule_named(&self.written.rules, name) else {
            return match prelude(name) {
                Some(plain) => Ok(plain_term(self.alloc, plain)?),
                None => Err(fault_of_name(self.alloc, at, "no rule has the name", name)),
            };
        };
        let found = self.type_of(rule, node)?;
        match self.place(found) {
            Some(place) => Ok(Term::Rule(String::from_str(self.alloc, name)?, place)),
            None => Err(fault_at(self.alloc, at, "no type")),
        }
    }

    /// The array at a node.
    fn array(&mut self, node: usize) -> Result<Term, LoadFault> {
        let reading = self.reading;
        match reading.items.get(node) {
            Some(items) => self.array_of(items),
            None => Err(fault_at(self.alloc, place_at(self.written, node), "no items")),
        }
    }

    /// An array of some items.
    fn array_of(&mut self, items: &'s Items) -> Result<Term, LoadFault> {
        match items {
            Items::These(parts) => {
                for part in parts {
                    self.ask(*part)?;
                }
                Ok(Term::TupleOf(Vec::from_slice(self.alloc, parts)?))
            }
            Items::Many(least, item) => {
                self.ask(*item)?;
                Ok(Term::ListOf(*least, *item))
            }
        }
    }
}

// Whether a number is a whole one of more than 64 bits.
fn is_too_large(number: &str) -> bool {
    has_digits_alone(number) && whole_in(number).is_none()
}
