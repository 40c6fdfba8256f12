//! Definitions of rules, read from tokens.
//!
//! After RFC 8610, appendix B.
use crate::fault::LoadFault;
use crate::parser::Parser;
use crate::step::Form;
use crate::token::{Sign, Token};
use crate::written::{Body, Node, Occurs};

/// How many brackets may be open at once.
const MAX_BRACKETS: usize = 64;

/// What a definition adds.
#[derive(Clone, Copy)]
pub(crate) enum Adds {
    /// `name = X`: a rule.
    Rule,
    /// `name /= X`: a type, which the rule may be, too.
    Types,
    /// `name //= A`: a group, which the rule may be, too.
    Groups,
}

/// A definition of a rule.
#[derive(Clone, Copy)]
pub(crate) struct Definition<'t> {
    /// The name of the rule.
    pub(crate) name: &'t str,
    /// What it adds.
    pub(crate) adds: Adds,
    /// What the rule stands for, or may stand for, too.
    pub(crate) body: Body,
    /// The byte at which it begins.
    pub(crate) at: usize,
    /// The place of its first token.
    pub(crate) from: usize,
    /// The place of the step of the type or the entry.
    pub(crate) first: usize,
    /// The place of the step of the group.
    pub(crate) second: usize,
}

// What a definition stands for, and the places of its steps.
#[derive(Clone, Copy)]
struct Meant {
    body: Body,
    first: usize,
    second: usize,
}

impl<'t, 's> Parser<'t, 's> {
    /// Reads all definitions.
    pub(crate) fn definitions(&mut self) -> Result<Vec<Definition<'t>>, LoadFault> {
        let mut definitions = Vec::new(self.alloc);
        for _ in 0..self.count() {
            if self.peek(0).is_none() {
                break;
            }
            let definition = self.definition()?;
            definitions.push(definition)?;
        }
        Ok(definitions)
    }

    // A definition.
    fn definition(&mut self) -> Result<Definition<'t>, LoadFault> {
        let at = self.at();
        let from = self.next;
        let Some(Token::Name(name)) = self.peek(0) else {
            return Err(self.expected("the name of a rule"));
        };
        if name.starts_with('$') {
            return Err(self.wrong(at, "sockets are left out"));
        }
        self.advance(1);
        let adds = self.assignment()?;
        let meant = match adds {
            Adds::Groups => self.added_entry()?,
            Adds::Rule | Adds::Types => self.body()?,
        };
        Ok(Definition {
            name,
            adds,
            body: meant.body,
            at,
            from,
            first: meant.first,
            second: meant.second,
        })
    }

    // The sign of a definition.
    fn assignment(&mut self) -> Result<Adds, LoadFault> {
        if self.passes(Sign::Equals) {
            return Ok(Adds::Rule);
        }
        if self.passes(Sign::MoreTypes) {
            return Ok(Adds::Types);
        }
        if self.passes(Sign::MoreGroups) {
            return Ok(Adds::Groups);
        }
        if self.is_sign(Sign::OpenAngle, 0) {
            return Err(self.wrong(self.at(), "generics are left out"));
        }
        Err(self.expected("="))
    }

    // The entry that `//=` adds.
    fn added_entry(&mut self) -> Result<Meant, LoadFault> {
        let entry = self.entry(MAX_BRACKETS)?;
        Ok(Meant {
            body: Body::Group(self.node_of(entry)),
            first: entry,
            second: 0,
        })
    }

    // The type or the group of a rule.
    fn body(&mut self) -> Result<Meant, LoadFault> {
        if self.is_sign(Sign::OpenParenthesis, 0) && !self.is_type_in_parentheses() {
            return self.group_body();
        }
        let first = self.a_type(MAX_BRACKETS)?;
        Ok(Meant {
            body: Body::Type(self.node_of(first)),
            first,
            second: 0,
        })
    }

    // `( x )`, which is a type, too, if x is.
    fn group_body(&mut self) -> Result<Meant, LoadFault> {
        let second = self.between(Sign::CloseParenthesis, ")", MAX_BRACKETS)?;
        let group = self.node_of(second);
        Ok(match self.as_type(second)? {
            Some(first) => Meant {
                body: Body::Either(self.node_of(first), group),
                first,
                second,
            },
            None => Meant {
                body: Body::Group(group),
                first: 0,
                second,
            },
        })
    }

    // The step of the type that parentheses around a group are, if it is no more than one type, maybe in further parentheses.
    fn as_type(&mut self, group: usize) -> Result<Option<usize>, LoadFault> {
        let mut inner = group;
        for depth in 0..MAX_BRACKETS {
            let Some(entry) = self.only_entry(inner) else {
                return Ok(None);
            };
            match self.step(entry).form {
                Form::Bare(found) => return Ok(Some(self.in_parentheses(found, depth)?)),
                Form::Inside(group) => inner = group,
                _ => return Ok(None),
            }
        }
        Ok(None)
    }

    // The step of the only entry of a group, if it occurs once and no comma follows.
    fn only_entry(&self, group: usize) -> Option<usize> {
        let step = self.step(group);
        let Form::Last(entry) = step.form else {
            return None;
        };
        let occurs_once = match self.nodes.get(step.node) {
            Some(Node::Bare(Occurs::Once, _) | Node::Inside(Occurs::Once, _)) => true,
            _ => false,
        };
        if occurs_once && self.step(entry).to == step.to {
            Some(entry)
        } else {
            None
        }
    }

    // Notes the steps of the parentheses around a type, one more than a number.
    fn in_parentheses(&mut self, found: usize, more: usize) -> Result<usize, LoadFault> {
        let mut all = found;
        for _ in 0..more.saturating_add(1) {
            let step = self.step(all);
            let from = step.from.saturating_sub(1);
            let to = step.to.saturating_add(1);
            all = self.note_until(Form::Parentheses(all), step.node, from, to)?;
        }
        Ok(all)
    }
}
