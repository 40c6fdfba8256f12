//! What may stand at a place, in words.
ghost use Rattle.std.specs.Prelude.{◌≡◌, ◌++◌, ◌∷◌, [], List, ℕ, IfOk, OnOk, codes, map, string_bytes, bytes_eq, if◌then◌else◌};
ghost use Rattle.std.specs.List.{list_any};
ghost use Rattle.bidi_grammar.specs.Term as cddl;
ghost use Rattle.bidi_grammar.specs.Term.{term_at};
ghost use Rattle.bidi_grammar.specs.View.{IsGrounded, bound_of, table, term_of};
ghost use Rattle.bidi_grammar.specs.Words.{AllAlternatives, Alternatives, choice_text, choice_in, each_once, from_words, is_map, list_words, term_words, to_words};

use crate::term::{Bound, Term};
use crate::words::{bool_words, count_words, quote};
use std::alloc::{AllocError, Global};

/// What may stand at a place, in words: that of each term, with ` or ` between them; `nothing` where there is none.
///
/// # Errors
/// No memory: an allocation failed.
pub fn wanted(alloc: Global, terms: &[Term], wants: &[usize]) -> Result<String, AllocError>
    // The table may be asked.
    requires { IsGrounded (table terms.now) }
    // The words are those of all alternatives, in their order and each once.
    ensures { IfOk result (λ s. (ws : List (List ℕ)) × (AllAlternatives (table terms.now) wants.now ws × (string_bytes s ≡ choice_text (each_once [] ws)))) }
{
    let mut told = Vec::new(alloc);
    tell_all(alloc, terms, wants, &mut told)?;
    choice(alloc, &told)
}

// Tells the alternatives of the terms at some places.
fn tell_all(
    alloc: Global,
    terms: &[Term],
    wants: &[usize],
    told: &mut Vec<String>,
) -> Result<(), AllocError>
    requires { IsGrounded (table terms.now) }
    ensures { OnOk result ((ws : List (List ℕ)) × (AllAlternatives (table terms.now) wants.now ws
        × (map string_bytes told.new.items ≡ each_once (map string_bytes told.old.items) ws))) }
{
    match wants.split_first() {
        None => Ok(()),
        Some((want, more)) => {
            tell_term(alloc, terms, *want, told)?;
            tell_all(alloc, terms, more, told)
        }
    }
}

// Tells the alternatives of a term.
#[cycle(alternatives)]
fn tell_term(
    alloc: Global,
    terms: &[Term],
    n: usize,
    told: &mut Vec<String>,
) -> Result<(), AllocError>
    requires { IsGrounded (table terms.now) }
    ensures { OnOk result ((ws : List (List ℕ)) × (Alternatives (table terms.now) (term_at (table terms.now) n) ws
        × (map string_bytes told.new.items ≡ each_once (map string_bytes told.old.items) ws))) }
{
    if n >= terms.len() {
        return tell(told, String::from_str(alloc, "nothing")?);
    }
    let term = &terms[n];
    match choice_in(term) {
        Some((first, second)) => tell_both(alloc, terms, first, second, told),
        None => tell(told, term_words(alloc, terms, term)?),
    }
}

// The places of the two terms of a choice.
fn choice_in(term: &Term) -> Option<(usize, usize)>
    ensures { result ≡ choice_in (term_of term.now) }
{
    match term {
        Term::Either(first, second) => Some((*first, *second)),
        _ => None,
    }
}

// Tells the alternatives of two terms.
#[cycle(alternatives)]
fn tell_both(
    alloc: Global,
    terms: &[Term],
    first: usize,
    second: usize,
    told: &mut Vec<String>,
) -> Result<(), AllocError>
    requires { IsGrounded (table terms.now) }
    ensures { OnOk result ((ws : List (List ℕ)) × (Alternatives (table terms.now) (cddl.either first second) ws
        × (map string_bytes told.new.items ≡ each_once (map string_bytes told.old.items) ws))) }
{
    tell_term(alloc, terms, first, told)?;
    tell_term(alloc, terms, second, told)
}

// Tells words, unless they are told already.
fn tell(told: &mut Vec<String>, words: String) -> Result<(), AllocError>
    ensures { OnOk result (map string_bytes told.new.items ≡ each_once (map string_bytes told.old.items) (string_bytes words ∷ [])) }
{
    if is_told(told, &words) {
        return Ok(());
    }
    told.push(words)?;
    Ok(())
}

// Whether words are told already.
fn is_told(told: &[String], words: &str) -> bool
    ensures { result ≡ list_any (bytes_eq words.now) (map string_bytes told.now) }
{
    for known in told {
        if words == known.as_str() {
            return true;
        }
    }
    false
}

// The words with ` or ` between them; `nothing` where there are none.
fn choice(alloc: Global, told: &[String]) -> Result<String, AllocError>
    ensures { IfOk result (λ s. string_bytes s ≡ choice_text (map string_bytes told.now)) }
{
    let [first, rest @ ..] = told else {
        return String::from_str(alloc, "nothing");
    };
    let mut text = String::from_str(alloc, first)?;
    for words in rest {
        text.push_str(" or ")?;
        text.push_str(words)?;
    }
    Ok(text)
}

// The words of a term that is no choice.
fn term_words(alloc: Global, terms: &[Term], term: &Term) -> Result<String, AllocError>
    ensures { IfOk result (λ s. string_bytes s ≡ term_words (table terms.now) (term_of term.now)) }
{
    match term {
        Term::Exactly(text) => quote(alloc, text),
        Term::Text => String::from_str(alloc, "a string"),
        Term::Bool => String::from_str(alloc, "true or false"),
        Term::Truth(truth) => String::from_str(alloc, bool_words(*truth)),
        Term::Null => String::from_str(alloc, "null"),
        Term::Whole(least, most) => format!(in alloc;
            "a whole number from {} to {}",
            *least, *most
        ),
        Term::Number(least, most) => number_words(alloc, least, most),
        Term::Any => String::from_str(alloc, "any value"),
        Term::ListOf(least, _) => list_words(alloc, *least),
        Term::TupleOf(parts) => count_words(alloc, "array", "item", parts.len()),
        Term::MapOf(_, _) => String::from_str(alloc, "an object"),
        Term::Either(_, _) => String::from_str(alloc, "nothing"),
        Term::Rule(name, n) => String::from_str(alloc, rule_words(name, is_map(terms, *n))),
    }
}

// A number between two bounds.
fn number_words(alloc: Global, least: &Bound, most: &Bound) -> Result<String, AllocError>
    ensures { IfOk result (λ s. string_bytes s ≡ codes "a number" ++ from_words (bound_of least.now) ++ to_words (bound_of most.now)) }
{
    let mut text = String::from_str(alloc, "a number")?;
    push_least(&mut text, least)?;
    push_most(&mut text, most)?;
    Ok(text)
}

// Adds the lower end of a range.
fn push_least(text: &mut String, least: &Bound) -> Result<(), AllocError>
    ensures { OnOk result (string_bytes text.new ≡ string_bytes text.old ++ from_words (bound_of least.now)) }
{
    match least {
        Bound::Unbounded => Ok(()),
        Bound::Including(bound) => push_both(text, " from ", bound),
        Bound::Excluding(bound) => push_both(text, " above ", bound),
    }
}

// Adds the upper end of a range.
fn push_most(text: &mut String, most: &Bound) -> Result<(), AllocError>
    ensures { OnOk result (string_bytes text.new ≡ string_bytes text.old ++ to_words (bound_of most.now)) }
{
    match most {
        Bound::Unbounded => Ok(()),
        Bound::Including(bound) => push_both(text, " up to ", bound),
        Bound::Excluding(bound) => push_both(text, " below ", bound),
    }
}

// Adds a word and a number.
fn push_both(text: &mut String, word: &str, number: &str) -> Result<(), AllocError>
    ensures { OnOk result (string_bytes text.new ≡ string_bytes text.old ++ (word.now ++ number.now)) }
{
    text.push_str(word)?;
    text.push_str(number)
}

// An array with so many items at least.
fn list_words(alloc: Global, least: usize) -> Result<String, AllocError>
    ensures { IfOk result (λ s. string_bytes s ≡ list_words least) }
{
    if least == 0 {
        String::from_str(alloc, "an array")
    } else if least == 1 {
        String::from_str(alloc, "an array with at least one item")
    } else {
        format!(in alloc; "an array with at least {least} items")
    }
}

// A rule by its name, or `an object`.
fn rule_words<'a>(name: &'a str, is_map: bool) -> &'a str
    ensures { result.now ≡ (if is_map then codes "an object" else name.now) }
{
    if is_map { "an object" } else { name }
}

// Whether the term at a place says which members an object has.
fn is_map(terms: &[Term], n: usize) -> bool
    ensures { result ≡ is_map (term_at (table terms.now) n) }
{
    if n >= terms.len() {
        return false;
    }
    is_map_term(&terms[n])
}

// Whether a term says which members an object has.
fn is_map_term(term: &Term) -> bool
    ensures { result ≡ is_map (term_of term.now) }
{
    matches!(term, Term::MapOf(_, _))
}
