//! Tests of the tokens from a place on.
ghost use Rattle.std.specs.Prelude.{⊤, ◌≡◌, ◌∷◌, IsTrue, MatchOption, drop, slice_get};
ghost use Rattle.bidi_cddl.specs.Reads.{CommaReads, KeyReads, OccursReads, TextReads};
ghost use Rattle.bidi_cddl.specs.Steps.{tokens_of};
ghost use Rattle.bidi_cddl.specs.Token.{a_name, a_sign, token_of};

use crate::count::count_of;
use crate::token::{Placed, Sign, Token};
use crate::written::{Node, Occurs};

// Whether two tokens are the same.
fn is_same(first: &Token<'_>, second: &Token<'_>) -> bool
    ensures { IsTrue result → token_of first.now ≡ token_of second.now }
{
    match first {
        Token::Name(text) => match second {
            Token::Name(other) => text == other,
            _ => false,
        },
        Token::Number(text) => match second {
            Token::Number(other) => text == other,
            _ => false,
        },
        Token::Text(text) => match second {
            Token::Text(other) => text == other,
            _ => false,
        },
        Token::Control(text) => match second {
            Token::Control(other) => text == other,
            _ => false,
        },
        Token::Sign(sign) => match second {
            Token::Sign(other) => sign == other,
            _ => false,
        },
    }
}

/// The token at a place.
pub(crate) fn placed_at<'t>(tokens: &[Placed<'t>], place: usize) -> Option<Placed<'t>>
    ensures { result ≡ slice_get tokens.now place }
{
    tokens.get(place).copied()
}

/// The node at a place.
pub(crate) fn node_at<'t>(nodes: &[Node<'t>], place: usize) -> Option<Node<'t>>
    ensures { result ≡ slice_get nodes.now place }
{
    nodes.get(place).copied()
}

/// The place behind a token, if it is at a place.
pub(crate) fn after(tokens: &[Placed<'_>], from: usize, token: Token<'_>) -> Option<usize>
    ensures { MatchOption result ⊤ (λ next. drop from (tokens_of tokens.now) ≡ token_of token.entry ∷ drop next (tokens_of tokens.now)) }
{
    let placed = placed_at(tokens, from)?;
    if !is_same(&placed.token, &token) {
        return None;
    }
    Some(from + 1)
}

/// Whether a token is at a place, and the other place is the next one.
pub(crate) fn passes(tokens: &[Placed<'_>], from: usize, token: Token<'_>, to: usize) -> bool
    ensures { IsTrue result → drop from (tokens_of tokens.now) ≡ token_of token.entry ∷ drop to (tokens_of tokens.now) }
{
    match after(tokens, from, token) {
        Some(next) => next == to,
        None => false,
    }
}

/// Whether a sign is at a place, and the other place is the next one.
pub(crate) fn passes_sign(tokens: &[Placed<'_>], from: usize, sign: Sign, to: usize) -> bool
    ensures { IsTrue result → drop from (tokens_of tokens.now) ≡ a_sign sign ∷ drop to (tokens_of tokens.now) }
{
    passes(tokens, from, Token::Sign(sign), to)
}

/// The place behind the occurrence of an entry.
pub(crate) fn after_occurs(tokens: &[Placed<'_>], from: usize, occurs: Occurs) -> Option<usize>
    ensures { MatchOption result ⊤ (λ next. OccursReads occurs (drop from (tokens_of tokens.now)) (drop next (tokens_of tokens.now))) }
{
    match occurs {
        Occurs::Once => Some(from),
        Occurs::Optional => after(tokens, from, Token::Sign(Sign::Question)),
        Occurs::AtLeast(least) => after_least(tokens, from, least),
    }
}

// The place behind `*`, `+` or `n*`.
fn after_least(tokens: &[Placed<'_>], from: usize, least: usize) -> Option<usize>
    ensures { MatchOption result ⊤ (λ next. OccursReads (Occurs.AtLeast least) (drop from (tokens_of tokens.now)) (drop next (tokens_of tokens.now))) }
{
    match after_star(tokens, from, least) {
        Some(next) => Some(next),
        None => after_plus_or_count(tokens, from, least),
    }
}

// The place behind `*`.
fn after_star(tokens: &[Placed<'_>], from: usize, least: usize) -> Option<usize>
    ensures { MatchOption result ⊤ (λ next. OccursReads (Occurs.AtLeast least) (drop from (tokens_of tokens.now)) (drop next (tokens_of tokens.now))) }
{
    if least != 0 {
        return None;
    }
    after(tokens, from, Token::Sign(Sign::Star))
}

// The place behind `+` or `n*`.
fn after_plus_or_count(tokens: &[Placed<'_>], from: usize, least: usize) -> Option<usize>
    ensures { MatchOption result ⊤ (λ next. OccursReads (Occurs.AtLeast least) (drop from (tokens_of tokens.now)) (drop next (tokens_of tokens.now))) }
{
    match after_plus(tokens, from, least) {
        Some(next) => Some(next),
        None => after_count(tokens, from, least),
    }
}

// The place behind `+`.
fn after_plus(tokens: &[Placed<'_>], from: usize, least: usize) -> Option<usize>
    ensures { MatchOption result ⊤ (λ next. OccursReads (Occurs.AtLeast least) (drop from (tokens_of tokens.now)) (drop next (tokens_of tokens.now))) }
{
    if least != 1 {
        return None;
    }
    after(tokens, from, Token::Sign(Sign::Plus))
}

// The place behind `n*`.
fn after_count(tokens: &[Placed<'_>], from: usize, least: usize) -> Option<usize>
    ensures { MatchOption result ⊤ (λ next. OccursReads (Occurs.AtLeast least) (drop from (tokens_of tokens.now)) (drop next (tokens_of tokens.now))) }
{
    let placed = placed_at(tokens, from)?;
    match placed.token {
        Token::Number(number) => after_number(tokens, from, number, least),
        _ => None,
    }
}

// The place behind a number and a star.
fn after_number(tokens: &[Placed<'_>], from: usize, number: &str, least: usize) -> Option<usize>
    ensures { MatchOption result ⊤ (λ next. OccursReads (Occurs.AtLeast least) (drop from (tokens_of tokens.now)) (drop next (tokens_of tokens.now))) }
{
    let star = after(tokens, from, Token::Number(number))?;
    let next = after(tokens, star, Token::Sign(Sign::Star))?;
    let count = count_of(number)?;
    if count != least {
        return None;
    }
    Some(next)
}

/// The place behind a comma, or the same place without one.
pub(crate) fn after_comma(tokens: &[Placed<'_>], from: usize) -> usize
    ensures { CommaReads (drop from (tokens_of tokens.now)) (drop result (tokens_of tokens.now)) }
{
    match after(tokens, from, Token::Sign(Sign::Comma)) {
        Some(next) => next,
        None => from,
    }
}

/// The place behind the name of a member and its colon or arrow.
pub(crate) fn after_key(tokens: &[Placed<'_>], from: usize, key: &str) -> Option<usize>
    ensures { MatchOption result ⊤ (λ next. KeyReads key.now (drop from (tokens_of tokens.now)) (drop next (tokens_of tokens.now))) }
{
    let placed = placed_at(tokens, from)?;
    match placed.token {
        Token::Name(_) => after_word(tokens, from, key),
        Token::Text(_) => after_string(tokens, from, key),
        _ => None,
    }
}

// The place behind a name and its colon.
fn after_word(tokens: &[Placed<'_>], from: usize, key: &str) -> Option<usize>
    ensures { MatchOption result ⊤ (λ next. KeyReads key.now (drop from (tokens_of tokens.now)) (drop next (tokens_of tokens.now))) }
{
    let next = after(tokens, from, Token::Name(key))?;
    after(tokens, next, Token::Sign(Sign::Colon))
}

// The place behind a string and its colon or arrow.
fn after_string(tokens: &[Placed<'_>], from: usize, key: &str) -> Option<usize>
    ensures { MatchOption result ⊤ (λ next. KeyReads key.now (drop from (tokens_of tokens.now)) (drop next (tokens_of tokens.now))) }
{
    let next = after(tokens, from, Token::Text(key))?;
    match after(tokens, next, Token::Sign(Sign::Colon)) {
        Some(end) => Some(end),
        None => after(tokens, next, Token::Sign(Sign::Arrow)),
    }
}

/// The place behind `text =>` or `tstr =>`.
pub(crate) fn after_text(tokens: &[Placed<'_>], from: usize) -> Option<usize>
    ensures { MatchOption result ⊤ (λ next. TextReads (drop from (tokens_of tokens.now)) (drop next (tokens_of tokens.now))) }
{
    match after_name(tokens, from, "text") {
        Some(next) => Some(next),
        None => after_name(tokens, from, "tstr"),
    }
}

// The place behind a name and an arrow.
fn after_name(tokens: &[Placed<'_>], from: usize, name: &str) -> Option<usize>
    ensures { MatchOption result ⊤ (λ next. drop from (tokens_of tokens.now) ≡ a_name name.now ∷ a_sign Sign.Arrow ∷ drop next (tokens_of tokens.now)) }
{
    let next = after(tokens, from, Token::Name(name))?;
    after(tokens, next, Token::Sign(Sign::Arrow))
}
