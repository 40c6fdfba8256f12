//! What may stand at a place, in words.
ghost use Rattle.std.specs.Prelude.{◌≡◌, ◌++◌, ◌∷◌, [], IfOk, OnOk, codes, false, length, map, flat_map, string_bytes, bytes_eq, take};
ghost use Rattle.std.specs.List.{list_any};
ghost use Rattle.json.specs.Print.{quoted};
ghost use Rattle.bidi_rules.specs.Grammar.{grammar};
ghost use Rattle.bidi_rules.specs.Names.{name_of};
ghost use Rattle.bidi_blame.specs.View.{want_of};
ghost use Rattle.bidi_blame.specs.Words.{alternatives, choice_text, choices, each_once, is_map, is_only, list_words, rule_words};
ghost use Rattle.bidi_blame.specs.Said.{said_text, told_by};

use crate::quoting::{push_quoted, quote};
use crate::reason::Want;
use bidi_rules::{Name, Term};
use std::alloc::{AllocError, Global};

/// Words for an alternative.
#[derive(Clone, Copy)]
pub(crate) enum Said {
    /// As they stand.
    Plain(&'static str),
    /// A text, as JSON writes it.
    Quoted(&'static str),
}

impl Said {
    // Whether they are the same words. Takes memory only to compare such as stand in quotes with a text.
    fn is(&self, alloc: Global, other: &Said) -> Result<bool, AllocError>
        ensures { IfOk result (λ b. b ≡ bytes_eq (said_text self.now) (said_text other.now)) }
    {
        match self {
            Said::Plain(words) => match other {
                Said::Plain(others) => Ok(words == others),
                Said::Quoted(text) => is_quoted(alloc, words, text),
            },
            Said::Quoted(text) => match other {
                Said::Plain(words) => is_quoted(alloc, words, text),
                Said::Quoted(others) => Ok(text == others),
            },
        }
    }

    // Whether they are these words, which do not begin with a quotation mark.
    fn is_plain(&self, words: &str) -> bool
        requires { bytes_eq (34 ∷ []) (take 1 words.now) ≡ false }
        ensures { result ≡ bytes_eq words.now (said_text self.now) }
    {
        match self {
            Said::Plain(own) => words == *own,
            Said::Quoted(_) => false,
        }
    }

    // Some more bytes than they take, unless they have escapes.
    fn room(&self) -> usize {
        match self {
            Said::Plain(words) => words.len().saturating_add(6),
            Said::Quoted(text) => text.len().saturating_add(6),
        }
    }

    // Adds the words.
    fn put(&self, alloc: Global, out: &mut String) -> Result<(), AllocError>
        ensures { OnOk result (string_bytes out.new ≡ string_bytes out.old ++ said_text self.now) }
    {
        match self {
            Said::Plain(words) => out.push_str(words),
            Said::Quoted(text) => push_quoted(alloc, out, text),
        }
    }
}

// Whether words are a text as JSON writes it.
fn is_quoted(alloc: Global, words: &str, text: &str) -> Result<bool, AllocError>
    ensures { IfOk result (λ b. b ≡ bytes_eq words.now (quoted text.now)) }
{
    if !begins_with_quote(words) {
        return Ok(false);
    }
    Ok(words == quote(alloc, text)?.as_str())
}

// Whether words begin with a quotation mark.
fn begins_with_quote(words: &str) -> bool
    ensures { result ≡ bytes_eq (34 ∷ []) (take 1 words.now) }
{
    words.as_bytes().starts_with(b"\"")
}

/// The alternatives of a place, each once and in their order. Their text is made where it is asked for.
#[derive(Drop)]
pub struct Alternatives {
    said: Vec<Said>,
}

impl Alternatives {
    /// How many they are. Takes no memory.
    pub fn count(&self) -> usize
        // The result is the number of the alternatives.
        ensures { result ≡ length (told_by self.now) }
    {
        self.said.len()
    }

    /// Whether these words, which do not begin with a quotation mark, are the only alternative. Takes no memory.
    pub fn is_only(&self, words: &str) -> bool
        // The words do not begin with a quotation mark.
        requires { bytes_eq (34 ∷ []) (take 1 words.now) ≡ false }
        // The result says whether the words are the only alternative.
        ensures { result ≡ is_only words.now (told_by self.now) }
    {
        match self.said.as_slice() {
            [said] => said.is_plain(words),
            _ => false,
        }
    }

    /// Whether the first alternative is a text, as JSON writes it. Takes no memory.
    pub fn begins_with_text(&self) -> bool
        // A text is first if the alternatives as one text begin with a quotation mark.
        ensures { result ≡ bytes_eq (34 ∷ []) (take 1 (choice_text (told_by self.now))) }
    {
        match self.said.as_slice() {
            [] => false,
            [first, rest @ ..] => begins_with_text(first, rest),
        }
    }

    /// Whether one of them is an object.
    ///
    /// # Errors
    /// No memory: an allocation failed.
    pub fn has_map(&self, alloc: Global) -> Result<bool, AllocError>
        // The result says whether an object is one of the alternatives.
        ensures { IfOk result (λ b. b ≡ list_any (bytes_eq (codes "an object")) (told_by self.now)) }
    {
        is_told(alloc, &self.said, &Said::Plain("an object"))
    }

    /// All of them as one text, with ` or ` between them; `nothing` where there are none.
    ///
    /// # Errors
    /// No memory: an allocation failed.
    pub fn text(&self, alloc: Global) -> Result<String, AllocError>
        // The text has the words of each alternative, in their order.
        ensures { IfOk result (λ s. string_bytes s ≡ choice_text (told_by self.now)) }
    {
        choice(alloc, &self.said)
    }
}

// Whether the first of some alternatives is a text, as JSON writes it.
fn begins_with_text(first: &Said, rest: &[Said]) -> bool
    ensures { result ≡ bytes_eq (34 ∷ []) (take 1 (choice_text (said_text first.now ∷ map said_text rest.now))) }
{
    match first {
        Said::Plain(words) => begins_with_quote(words),
        Said::Quoted(_) => true,
    }
}

/// What may stand at a place, in words.
///
/// # Errors
/// No memory: an allocation failed.
pub fn wanted(alloc: Global, wants: &[Want]) -> Result<Alternatives, AllocError>
    // The alternatives are all that may stand there, each of them once.
    ensures { IfOk result (λ a. told_by a ≡ choices (map want_of wants.now)) }
{
    let mut told = Vec::with_capacity(alloc, wants.len())?;
    for want in wants {
        tell_want(alloc, &mut told, want)?;
    }
    Ok(Alternatives { said: told })
}

// Tells the alternatives of what may stand at a place.
fn tell_want(alloc: Global, told: &mut Vec<Said>, want: &Want) -> Result<(), AllocError>
    ensures { OnOk result (map said_text told.new.items ≡ each_once (map said_text told.old.items) (alternatives (want_of want.now))) }
{
    tell_term(alloc, told, want.first)?;
    tell_terms(alloc, told, want.rest)
}

// Tells the alternatives of a term.
#[cycle(alternatives)]
fn tell_term(alloc: Global, told: &mut Vec<Said>, term: &'static Term) -> Result<(), AllocError>
    ensures { OnOk result (map said_text told.new.items ≡ each_once (map said_text told.old.items) (alternatives (grammar term.now))) }
{
    match term {
        Term::Exactly(text) => tell(alloc, told, Said::Quoted(text)),
        Term::Text => tell(alloc, told, Said::Plain("a string")),
        Term::Bool => tell(alloc, told, Said::Plain("true or false")),
        Term::Null => tell(alloc, told, Said::Plain("null")),
        Term::JsUint => tell(
            alloc,
            told,
            Said::Plain("a whole number from 0 to 9007199254740991"),
        ),
        Term::JsInt => tell(
            alloc,
            told,
            Said::Plain("a whole number from -9007199254740991 to 9007199254740991"),
        ),
        Term::Any => tell(
            alloc,
            told,
            Said::Plain("whole numbers in range and at most 60 levels"),
        ),
        Term::ListOf(least, _) => tell(alloc, told, Said::Plain(list_words(*least))),
        Term::PairOf(_, _) => tell(alloc, told, Said::Plain("an array of two items")),
        Term::MapOf(_, _) => tell(alloc, told, Said::Plain("an object")),
        Term::OneOf(first, rest) => {
            tell_term(alloc, told, first)?;
            tell_terms(alloc, told, rest)
        }
        Term::Rule(name) => tell(alloc, told, Said::Plain(rule_words(*name))),
        Term::Capped(_) => tell(alloc, told, Said::Plain("at most 60 levels")),
    }
}

// Tells the alternatives of some terms.
#[cycle(alternatives)]
fn tell_terms(alloc: Global, told: &mut Vec<Said>, terms: &'static [Term]) -> Result<(), AllocError>
    ensures { OnOk result (map said_text told.new.items ≡ each_once (map said_text told.old.items) (flat_map alternatives (map grammar terms.now))) }
{
    for term in terms {
        tell_term(alloc, told, term)?;
    }
    Ok(())
}

// An array with so many items at least.
fn list_words(least: usize) -> &'static str
    ensures { result.now ≡ list_words least }
{
    if least == 0 {
        "an array"
    } else {
        "an array with at least one item"
    }
}

// A rule by its name, or `an object`.
fn rule_words(name: Name) -> &'static str
    ensures { result.now ≡ rule_words (name_of name) }
{
    if is_map(name.term()) {
        "an object"
    } else {
        name.text()
    }
}

// Whether a term says which members a map has.
fn is_map(term: &Term) -> bool
    ensures { result ≡ is_map (grammar term.now) }
{
    match term {
        Term::MapOf(_, _) => true,
        Term::Capped(inner) => is_map(inner),
        Term::OneOf(first, rest) => rest.is_empty() && is_map(first),
        Term::Exactly(_)
        | Term::Text
        | Term::Bool
        | Term::Null
        | Term::JsUint
        | Term::JsInt
        | Term::Any
        | Term::ListOf(_, _)
        | Term::PairOf(_, _)
        | Term::Rule(_) => false,
    }
}

// Tells words, unless they are told already.
fn tell(alloc: Global, told: &mut Vec<Said>, words: Said) -> Result<(), AllocError>
    ensures { OnOk result (map said_text told.new.items ≡ each_once (map said_text told.old.items) (said_text words ∷ [])) }
{
    if is_told(alloc, told, &words)? {
        return Ok(());
    }
    told.push(words)?;
    Ok(())
}

// Whether words are told already.
fn is_told(alloc: Global, told: &[Said], words: &Said) -> Result<bool, AllocError>
    ensures { IfOk result (λ b. b ≡ list_any (bytes_eq (said_text words.now)) (map said_text told.now)) }
{
    for known in told {
        if words.is(alloc, known)? {
            return Ok(true);
        }
    }
    Ok(false)
}

// The words with ` or ` between them; `nothing` where there are none.
fn choice(alloc: Global, told: &[Said]) -> Result<String, AllocError>
    ensures { IfOk result (λ s. string_bytes s ≡ choice_text (map said_text told.now)) }
{
    let [first, rest @ ..] = told else {
        return String::from_str(alloc, "nothing");
    };
    let mut text = String::with_capacity(alloc, room(told))?;
    first.put(alloc, &mut text)?;
    for words in rest {
        text.push_str(" or ")?;
        words.put(alloc, &mut text)?;
    }
    Ok(text)
}

// The room for all of them.
fn room(told: &[Said]) -> usize {
    let mut room: usize = 0;
    for words in told {
        room = room.saturating_add(words.room());
    }
    room
}
