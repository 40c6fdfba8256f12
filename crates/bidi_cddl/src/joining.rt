//! Parts that become one node: choices of types, choices of groups, and entries one behind another.
use crate::fault::LoadFault;
use crate::parser::Parser;
use crate::step::Form;
use crate::written::Node;

impl<'t, 's> Parser<'t, 's> {
    /// The choice of a type and of others.
    pub(crate) fn join_types(
        &mut self,
        first: usize,
        others: Vec<usize>,
    ) -> Result<usize, LoadFault> {
        let mut others = others;
        let Some(mut all) = others.pop() else {
            return Ok(first);
        };
        for _ in 0..others.len() {
            if let Some(part) = others.pop() {
                all = self.either(part, all)?;
            }
        }
        self.either(first, all)
    }

    // The choice of two types.
    fn either(&mut self, first: usize, second: usize) -> Result<usize, LoadFault> {
        let from = self.step(first).from;
        let node = Node::Either(self.node_of(first), self.node_of(second));
        self.add(node, Form::Either(first, second), from)
    }

    /// The choice of a group and of others.
    pub(crate) fn join_choice(
        &mut self,
        first: usize,
        others: Vec<usize>,
    ) -> Result<usize, LoadFault> {
        let mut others = others;
        let Some(mut all) = others.pop() else {
            return Ok(first);
        };
        for _ in 0..others.len() {
            if let Some(part) = others.pop() {
                all = self.choice(part, all)?;
            }
        }
        self.choice(first, all)
    }

    // The choice of two groups.
    fn choice(&mut self, first: usize, second: usize) -> Result<usize, LoadFault> {
        let from = self.step(first).from;
        let node = Node::Choice(self.node_of(first), self.node_of(second));
        self.add(node, Form::Choice(first, second), from)
    }

    /// Entries one behind another.
    pub(crate) fn join_entries(&mut self, entries: Vec<usize>) -> Result<usize, LoadFault> {
        let mut entries = entries;
        let Some(last) = entries.pop() else {
            let from = self.next;
            return self.add(Node::Empty, Form::Empty, from);
        };
        let step = self.step(last);
        let mut all = self.note(Form::Last(last), step.node, step.from)?;
        for _ in 0..entries.len() {
            if let Some(entry) = entries.pop() {
                all = self.both(entry, all)?;
            }
        }
        Ok(all)
    }

    // An entry, and others behind it.
    fn both(&mut self, first: usize, second: usize) -> Result<usize, LoadFault> {
        let from = self.step(first).from;
        let node = Node::Both(self.node_of(first), self.node_of(second));
        self.add(node, Form::Both(first, second), from)
    }
}
