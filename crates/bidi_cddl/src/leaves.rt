//! What types and groups are made of: tokens, ranges, control operators, occurrences and keys.
ghost use Rattle.std.specs.Prelude.{◌≡◌};
ghost use Rattle.bidi_cddl.specs.Reads.{is_bound, is_value};
ghost use Rattle.bidi_cddl.specs.Token.{token_of};

use crate::count::count_of;
use crate::fault::LoadFault;
use crate::parser::Parser;
use crate::step::Form;
use crate::token::{Sign, Token};
use crate::written::{Node, Occurs};

impl<'t, 's> Parser<'t, 's> {
    /// A type of one token.
    pub(crate) fn leaf(&mut self, token: Token<'t>) -> Result<usize, LoadFault> {
        let node = match token {
            Token::Number(text) => Node::Number(text),
            Token::Text(text) => Node::Text(text),
            Token::Name(name) => Node::Name(name),
            Token::Control(_) | Token::Sign(_) => return Err(self.expected("a type")),
        };
        let from = self.next;
        self.advance(1);
        if self.is_sign(Sign::OpenAngle, 0) {
            return Err(self.wrong(self.at(), "generics are left out"));
        }
        self.add(node, Form::Leaf, from)
    }

    /// Whether a range follows, or what would be one.
    pub(crate) fn is_range(&self) -> bool {
        self.is_sign(Sign::TwoDots, 1) || self.is_sign(Sign::ThreeDots, 1)
    }

    /// A range of two numbers.
    pub(crate) fn range(&mut self) -> Result<usize, LoadFault> {
        let from = self.next;
        let is_open = self.is_sign(Sign::ThreeDots, 1);
        match (self.peek(0), self.peek(2)) {
            (Some(Token::Number(least)), Some(Token::Number(most))) => {
                self.advance(3);
                self.add(Node::Range(least, most, is_open), Form::Range, from)
            }
            _ => {
                self.advance(1);
                Err(self.wrong(self.at(), "a range of anything but two numbers is left out"))
            }
        }
    }

    /// A control operator behind a type, and its value.
    pub(crate) fn control(&mut self, first: usize, control: &'t str) -> Result<usize, LoadFault> {
        let at = self.at();
        let step = self.step(first);
        self.advance(1);
        let Some(value) = self.peek(0) else {
            return Err(self.expected("a value"));
        };
        if control == ".default" {
            return self.default_value(first, value);
        }
        if is_bound(control) {
            let Token::Number(number) = value else {
                return Err(self.expected("a number"));
            };
            self.advance(1);
            let node = Node::Bounded(step.node, control, number);
            return self.add(node, Form::Bounded(first), step.from);
        }
        Err(self.left_out(at, control))
    }

    // `.default` and its value, which says nothing of what fits.
    fn default_value(&mut self, first: usize, value: Token<'t>) -> Result<usize, LoadFault> {
        if !is_value(value) {
            return Err(self.expected("a value"));
        }
        let step = self.step(first);
        self.advance(1);
        self.note(Form::Default(first), step.node, step.from)
    }

    // The fault of a control operator that is left out.
    fn left_out(&self, at: usize, control: &str) -> LoadFault {
        match format!(in self.alloc; "the control {control} is left out") {
            Ok(what) => self.wrong(at, &what),
            Err(_) => LoadFault::NoMemory,
        }
    }

    /// The fault of a sign that begins no type.
    pub(crate) fn no_type(&self, sign: Sign) -> LoadFault {
        match sign {
            Sign::Hash => self.wrong(self.at(), "tags are left out"),
            Sign::Ampersand => self.wrong(self.at(), "enumerations of a group are left out"),
            Sign::Tilde => self.wrong(self.at(), "unwrapping is left out"),
            _ => self.expected("a type"),
        }
    }

    /// The fault of a bracket that is too deep.
    pub(crate) fn too_deep(&self) -> LoadFault {
        self.wrong(self.at(), "more than 64 nested brackets")
    }

    /// How often an entry may occur.
    pub(crate) fn occurs(&mut self) -> Result<Occurs, LoadFault> {
        if self.passes(Sign::Question) {
            return Ok(Occurs::Optional);
        }
        if self.passes(Sign::Plus) {
            return Ok(Occurs::AtLeast(1));
        }
        if self.passes(Sign::Star) {
            self.no_upper_bound()?;
            return Ok(Occurs::AtLeast(0));
        }
        match self.peek(0) {
            Some(Token::Number(number)) if self.is_sign(Sign::Star, 1) => self.at_least(number),
            _ => Ok(Occurs::Once),
        }
    }

    // `n*`.
    fn at_least(&mut self, number: &str) -> Result<Occurs, LoadFault> {
        let Some(least) = count_of(number) else {
            return Err(self.expected("a number of items"));
        };
        self.advance(2);
        self.no_upper_bound()?;
        Ok(Occurs::AtLeast(least))
    }

    // That no number follows the star of an occurrence.
    fn no_upper_bound(&self) -> Result<(), LoadFault> {
        match self.peek(0) {
            Some(Token::Number(_)) => {
                Err(self.wrong(self.at(), "an upper bound of an occurrence is left out"))
            }
            _ => Ok(()),
        }
    }

    /// The name of a member that follows, with its colon or arrow.
    pub(crate) fn key(&self) -> Option<&'t str> {
        match self.peek(0) {
            Some(Token::Name(key)) if self.is_sign(Sign::Colon, 1) => Some(key),
            Some(Token::Text(key))
                if self.is_sign(Sign::Colon, 1) || self.is_sign(Sign::Arrow, 1) => { Some(key) }
            _ => None,
        }
    }

    /// Whether `text =>` follows.
    pub(crate) fn is_further(&self) -> bool {
        match self.peek(0) {
            Some(Token::Name(name)) => is_text(name) && self.is_sign(Sign::Arrow, 1),
            _ => false,
        }
    }

    /// Whether an alternative ends here.
    pub(crate) fn ends(&self, close: Sign) -> bool {
        self.is_sign(close, 0) || self.is_sign(Sign::TwoSlashes, 0)
    }

    /// Whether an entry may begin with the next token.
    pub(crate) fn begins_entry(&self) -> bool {
        match self.peek(0) {
            Some(Token::Name(_) | Token::Number(_) | Token::Text(_)) => true,
            Some(Token::Sign(sign)) => is_entry_start(sign),
            Some(Token::Control(_)) | None => false,
        }
    }
}

// Whether an entry may begin with a sign.
fn is_entry_start(sign: Sign) -> bool {
    match sign {
        Sign::Question | Sign::Star | Sign::Plus => true,
        Sign::OpenParenthesis | Sign::OpenBrace | Sign::OpenBracket => true,
        Sign::Hash | Sign::Ampersand | Sign::Tilde => true,
        _ => false,
    }
}

/// Whether a control operator gives a bound.
pub(crate) fn is_bound(control: &str) -> bool
    ensures { result ≡ is_bound control.now }
{
    control == ".ge" || control == ".gt" || control == ".le" || control == ".lt"
}

/// Whether a token is a value: a name, a number or a string.
pub(crate) fn is_value(token: Token<'_>) -> bool
    ensures { result ≡ is_value (token_of token.entry) }
{
    match token {
        Token::Name(_) | Token::Number(_) | Token::Text(_) => true,
        Token::Control(_) | Token::Sign(_) => false,
    }
}

// Whether a name means any string.
fn is_text(name: &str) -> bool {
    name == "text" || name == "tstr"
}
