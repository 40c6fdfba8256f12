//! The whole table.
use crate::draft::{Draft, Origin};
use crate::lists::lists_of;
use crate::reading::Reading;
use crate::rules::{group_in, is_type, type_in};
use crate::settling::settled;
use bidi_cddl::{LoadFault, Rule, Written};
use bidi_grammar::Term;
use std::alloc::Global;

/// A table, what each place was made of, and the place of each rule that is a type.
#[derive(Drop)]
pub(crate) struct Made {
    pub(crate) terms: Vec<Term>,
    pub(crate) origins: Vec<Origin>,
    pub(crate) rules: Vec<Option<usize>>,
}

/// Makes the table of the rules.
///
/// # Errors
/// No memory, or what is wrong first.
pub(crate) fn make<'t, 's>(
    alloc: Global,
    written: &'s Written<'t>,
    reading: &'s Reading,
) -> Result<Made, LoadFault> {
    let mut draft = Draft::new(alloc, written, reading)?;
    let mut rules = Vec::new(alloc);
    for (i, rule) in written.rules.iter().enumerate() {
        rules.push(draft.rule(rule, i)?)?;
    }
    draft.rest()?;
    let Draft {
        terms,
        origins,
        places,
        ..
    } = draft;
    let terms = settled(alloc, terms, &places)?;
    Ok(Made {
        terms,
        origins,
        rules,
    })
}

impl<'t, 's> Draft<'t, 's> {
    /// The place of a rule that is a type.
    fn rule(&mut self, rule: &'s Rule<'t>, i: usize) -> Result<Option<usize>, LoadFault> {
        let Some(node) = type_in(rule.body) else {
            return self.group(rule);
        };
        if !is_type(self.written, rule) {
            return self.group(rule);
        }
        let place = self.node(node)?;
        let name = String::from_str(self.alloc, rule.name)?;
        Ok(Some(self.push(Term::Rule(name, place), Origin::Rule(i), node)?))
    }

    /// Looks for what is wrong in a rule that is a group.
    fn group(&mut self, rule: &'s Rule<'t>) -> Result<Option<usize>, LoadFault> {
        if let Some(node) = group_in(rule.body) {
            lists_of(
                self.alloc,
                self.written,
                &self.reading.texts,
                node,
                self.written.nodes.len(),
            )?;
        }
        Ok(None)
    }

    /// Makes the terms of all nodes that need a place.
    fn rest(&mut self) -> Result<(), LoadFault> {
        for next in 0..self.written.nodes.len() {
            let Some(node) = self.waiting.get(next).copied() else {
                break;
            };
            self.node(node)?;
        }
        Ok(())
    }
}
