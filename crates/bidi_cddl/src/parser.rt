//! Tokens that are read one after another.
use crate::fault::{LoadFault, fault_at};
use crate::step::{Form, Step};
use crate::token::{Placed, Sign, Token};
use crate::written::Node;
use std::alloc::Global;

/// Reads tokens, and keeps the nodes that it makes and the steps that it takes.
#[derive(Drop)]
pub(crate) struct Parser<'t, 's> {
    pub(crate) alloc: Global,
    text: &'t str,
    tokens: &'s [Placed<'t>],
    /// The place of the next token.
    pub(crate) next: usize,
    pub(crate) nodes: Vec<Node<'t>>,
    /// The byte at which each node begins.
    pub(crate) places: Vec<usize>,
    pub(crate) steps: Vec<Step>,
}

impl<'t, 's> Parser<'t, 's> {
    /// A parser that has read nothing.
    pub(crate) fn new(alloc: Global, text: &'t str, tokens: &'s [Placed<'t>]) -> Parser<'t, 's> {
        Parser {
            alloc,
            text,
            tokens,
            next: 0,
            nodes: Vec::new(alloc),
            places: Vec::new(alloc),
            steps: Vec::new(alloc),
        }
    }

    /// How many tokens there are.
    pub(crate) fn count(&self) -> usize {
        self.tokens.len()
    }

    /// The token so many places ahead.
    pub(crate) fn peek(&self, ahead: usize) -> Option<Token<'t>> {
        let placed = self.tokens.get(self.next.saturating_add(ahead))?;
        Some(placed.token)
    }

    /// The byte at which the next token begins.
    pub(crate) fn at(&self) -> usize {
        self.place_of(self.next)
    }

    // The byte at which a token begins.
    fn place_of(&self, token: usize) -> usize {
        match self.tokens.get(token) {
            Some(placed) => placed.at,
            None => self.text.len(),
        }
    }

    /// Goes over some tokens.
    pub(crate) fn advance(&mut self, count: usize) {
        self.next = self.next.saturating_add(count);
    }

    /// Whether this sign is so many places ahead.
    pub(crate) fn is_sign(&self, sign: Sign, ahead: usize) -> bool {
        match self.peek(ahead) {
            Some(Token::Sign(found)) => found == sign,
            _ => false,
        }
    }

    /// Goes over a sign if it is the next token.
    pub(crate) fn passes(&mut self, sign: Sign) -> bool {
        let is_there = self.is_sign(sign, 0);
        if is_there {
            self.advance(1);
        }
        is_there
    }

    /// Goes over a sign that has to be the next token.
    pub(crate) fn take(&mut self, sign: Sign, name: &str) -> Result<(), LoadFault> {
        if self.passes(sign) {
            Ok(())
        } else {
            Err(self.expected(name))
        }
    }

    /// The fault of a byte with which something is wrong.
    pub(crate) fn wrong(&self, at: usize, what: &str) -> LoadFault {
        fault_at(self.alloc, at, what)
    }

    /// The fault of a next token that is not what has to be there.
    pub(crate) fn expected(&self, what: &str) -> LoadFault {
        let found = self.found();
        match format!(in self.alloc; "expected {what}, found {found}") {
            Ok(what) => self.wrong(self.at(), &what),
            Err(_) => LoadFault::NoMemory,
        }
    }

    // The next token as it is in the text.
    fn found(&self) -> &'t str {
        let Some(token) = self.peek(0) else {
            return "the end";
        };
        let at = self.at();
        self.text
            .get(at..at.saturating_add(token.size()))
            .unwrap_or("")
    }

    /// Adds a node that the tokens from a place on are read as. It gives the place of the step.
    pub(crate) fn add(
        &mut self,
        node: Node<'t>,
        form: Form,
        from: usize,
    ) -> Result<usize, LoadFault> {
        let at = self.place_of(from);
        let place = self.nodes.len();
        self.nodes.push(node)?;
        self.places.push(at)?;
        self.note(form, place, from)
    }

    /// Notes that the tokens from a place on are read as a node. It gives the place of the step.
    pub(crate) fn note(
        &mut self,
        form: Form,
        node: usize,
        from: usize,
    ) -> Result<usize, LoadFault> {
        let to = self.next;
        self.note_until(form, node, from, to)
    }

    /// Notes that the tokens between two places are read as a node. It gives the place of the step.
    pub(crate) fn note_until(
        &mut self,
        form: Form,
        node: usize,
        from: usize,
        to: usize,
    ) -> Result<usize, LoadFault> {
        let place = self.steps.len();
        self.steps.push(Step {
            form,
            node,
            from,
            to,
        })?;
        Ok(place)
    }

    /// The step at a place.
    pub(crate) fn step(&self, place: usize) -> Step {
        match self.steps.get(place) {
            Some(step) => *step,
            None => Step {
                form: Form::Leaf,
                node: 0,
                from: 0,
                to: 0,
            },
        }
    }

    /// The node of a step.
    pub(crate) fn node_of(&self, step: usize) -> usize {
        self.step(step).node
    }

    /// Whether a control, a choice, a range or an arrow follows the parenthesis that is closed next: then it is a type.
    pub(crate) fn is_type_in_parentheses(&self) -> bool {
        let mut open: usize = 0;
        for ahead in 0..self.tokens.len() {
            match self.peek(ahead) {
                Some(Token::Sign(Sign::OpenParenthesis | Sign::OpenBrace | Sign::OpenBracket)) =>
                    open = open.saturating_add(1),
                Some(Token::Sign(Sign::CloseParenthesis | Sign::CloseBrace | Sign::CloseBracket)) =>
                    open = open.saturating_sub(1),
                Some(_) => {}
                None => return false,
            }
            if open == 0 {
                return goes_on(self.peek(ahead.saturating_add(1)));
            }
        }
        false
    }
}

// Whether a type goes on with a token.
fn goes_on(token: Option<Token<'_>>) -> bool {
    match token {
        Some(Token::Control(_)) => true,
        Some(Token::Sign(sign)) => {
            sign == Sign::Slash
                || sign == Sign::TwoDots
                || sign == Sign::ThreeDots
                || sign == Sign::Arrow
        }
        _ => false,
    }
}
