//! Types and groups, read from tokens.
//!
//! After RFC 8610, appendix B.
use crate::fault::LoadFault;
use crate::parser::Parser;
use crate::step::Form;
use crate::token::{Sign, Token};
use crate::written::{Node, Occurs};

impl<'t, 's> Parser<'t, 's> {
    // ---- types

    /// Reads a type, in which so many brackets may be open at once. As all calls here that read, it gives the place of the step.
    #[cycle(parse)]
    pub(crate) fn a_type(&mut self, depth: usize) -> Result<usize, LoadFault> {
        let first = self.type1(depth)?;
        let mut others = Vec::new(self.alloc);
        for _ in 0..self.count() {
            if !self.passes(Sign::Slash) {
                break;
            }
            let part = self.type1(depth)?;
            others.push(part)?;
        }
        self.join_types(first, others)
    }

    // A type without a choice: a range, or a type and maybe a control operator.
    #[cycle(parse)]
    fn type1(&mut self, depth: usize) -> Result<usize, LoadFault> {
        if self.is_range() {
            return self.range();
        }
        let first = self.type2(depth)?;
        match self.peek(0) {
            Some(Token::Control(control)) => self.control(first, control),
            _ => Ok(first),
        }
    }

    // A type of one token or in brackets.
    #[cycle(parse)]
    fn type2(&mut self, depth: usize) -> Result<usize, LoadFault> {
        match self.peek(0) {
            Some(Token::Sign(sign)) => self.bracketed(sign, depth),
            Some(token) => self.leaf(token),
            None => Err(self.expected("a type")),
        }
    }

    // A type in brackets.
    #[cycle(parse)]
    fn bracketed(&mut self, sign: Sign, depth: usize) -> Result<usize, LoadFault> {
        match sign {
            Sign::OpenParenthesis => self.parenthesized(depth),
            Sign::OpenBrace => {
                let from = self.next;
                let group = self.between(Sign::CloseBrace, "}", depth)?;
                let node = self.node_of(group);
                self.add(Node::Map(node), Form::Braces(group), from)
            }
            Sign::OpenBracket => {
                let from = self.next;
                let group = self.between(Sign::CloseBracket, "]", depth)?;
                let node = self.node_of(group);
                self.add(Node::Array(node), Form::Brackets(group), from)
            }
            _ => Err(self.no_type(sign)),
        }
    }

    // A type in parentheses.
    #[cycle(parse)]
    fn parenthesized(&mut self, depth: usize) -> Result<usize, LoadFault> {
        let from = self.next;
        if depth == 0 {
            return Err(self.too_deep());
        }
        self.advance(1);
        let inner = self.a_type(depth - 1)?;
        self.take(Sign::CloseParenthesis, ")")?;
        let node = self.node_of(inner);
        self.note(Form::Parentheses(inner), node, from)
    }

    // ---- groups

    /// Reads a group between two brackets.
    #[cycle(parse)]
    pub(crate) fn between(
        &mut self,
        close: Sign,
        name: &str,
        depth: usize,
    ) -> Result<usize, LoadFault> {
        if depth == 0 {
            return Err(self.too_deep());
        }
        self.advance(1);
        let group = self.group(close, name, depth - 1)?;
        self.take(close, name)?;
        Ok(group)
    }

    // A group, up to a bracket.
    #[cycle(parse)]
    fn group(&mut self, close: Sign, name: &str, depth: usize) -> Result<usize, LoadFault> {
        let first = self.alternative(close, name, depth)?;
        let mut others = Vec::new(self.alloc);
        for _ in 0..self.count() {
            if !self.passes(Sign::TwoSlashes) {
                break;
            }
            let part = self.alternative(close, name, depth)?;
            others.push(part)?;
        }
        self.join_choice(first, others)
    }

    // The entries of one alternative.
    #[cycle(parse)]
    fn alternative(&mut self, close: Sign, name: &str, depth: usize) -> Result<usize, LoadFault> {
        let mut entries = Vec::new(self.alloc);
        for _ in 0..self.count() {
            if self.ends(close) {
                break;
            }
            if self.peek(0).is_none() {
                return Err(self.expected(name));
            }
            let entry = self.entry(depth)?;
            entries.push(entry)?;
            if !self.passes(Sign::Comma) && !self.ends(close) && !self.begins_entry() {
                return Err(self.expected(name));
            }
        }
        self.join_entries(entries)
    }

    /// Reads an entry of a group.
    #[cycle(parse)]
    pub(crate) fn entry(&mut self, depth: usize) -> Result<usize, LoadFault> {
        let from = self.next;
        let occurs = self.occurs()?;
        if let Some(key) = self.key() {
            self.advance(2);
            let value = self.a_type(depth)?;
            let node = self.node_of(value);
            return self.add(Node::Member(occurs, key, node), Form::Member(value), from);
        }
        if self.is_further() {
            self.advance(2);
            let value = self.a_type(depth)?;
            let node = self.node_of(value);
            return self.add(Node::Further(occurs, node), Form::Further(value), from);
        }
        if self.is_sign(Sign::OpenParenthesis, 0) && !self.is_type_in_parentheses() {
            let group = self.between(Sign::CloseParenthesis, ")", depth)?;
            let node = self.node_of(group);
            return self.add(Node::Inside(occurs, node), Form::Inside(group), from);
        }
        self.bare(occurs, from, depth)
    }

    // An entry that is a type alone.
    #[cycle(parse)]
    fn bare(&mut self, occurs: Occurs, from: usize, depth: usize) -> Result<usize, LoadFault> {
        let at = self.at();
        let value = self.a_type(depth)?;
        if self.is_sign(Sign::Arrow, 0) {
            return Err(self.wrong(at, "a key other than a string or text is left out"));
        }
        if self.is_sign(Sign::Caret, 0) {
            return Err(self.wrong(self.at(), "cuts are left out"));
        }
        let node = self.node_of(value);
        self.add(Node::Bare(occurs, node), Form::Bare(value), from)
    }
}
