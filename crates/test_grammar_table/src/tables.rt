//! Tables and questions as lines of a text.
//!
//! `= NAME` begins a table, and a line that begins with a word below adds a term to it; the first has place 0.
//!
//! | line | term |
//! |---|---|
//! | `exactly WORDS`, `text`, `bool`, `true`, `false`, `null`, `any` | the term of that name |
//! | `whole A B` | from A to B |
//! | `number A B` | a bound is `-`, `[1.5` if the number itself is in, or `(1.5` |
//! | `list N PLACE`, `tuple PLACE ..`, `either PLACE PLACE`, `rule NAME PLACE` | as it says |
//! | `map REST !NAME:PLACE ?NAME:PLACE ..` | `!` before a required name, `?` before an optional one; REST is a place or `-` |
//!
//! `PLACE LOOKS ANSWER VALUE` asks: the answer is `fits`, `unfit` or `over`. `PLACE why VALUE -> REASON` asks for the reason.
use bidi_grammar::{
    Bound, Need, Reason, Row, Term, Verdict, fits, found_words, is_grounded, judge, pointer, wanted,
};
use json::{Scratch, Value};
use std::alloc::Global;
use std::test::Fail;

/// That each question has its answer.
pub fn check_table(alloc: Global, table: &str) -> Result<(), Fail> {
    let mut terms = Vec::new(alloc);
    for line in table.trim().lines() {
        if line.starts_with("= ") {
            terms = Vec::new(alloc);
        } else if let Some(term) = term_of(alloc, line)? {
            terms.push(term)?;
        } else {
            check_question(alloc, &terms, line)?;
        }
    }
    Ok(())
}

fn check_question(alloc: Global, terms: &[Term], line: &str) -> Result<(), Fail> {
    let (place, rest) = line.split_once(' ').unwrap_or((line, ""));
    let (looks, rest) = rest.split_once(' ').unwrap_or((rest, ""));
    if looks == "why" {
        return check_reason(alloc, terms, number(place)?, rest);
    }
    let (answer, text) = rest.split_once(' ').unwrap_or((rest, ""));
    let found = answer_to(alloc, terms, number(place)?, number(looks)? as u64, text)?;
    if found != answer {
        return Err(Fail::new(format_args!("{found} at {line}")));
    }
    Ok(())
}

fn check_reason(alloc: Global, terms: &[Term], place: usize, line: &str) -> Result<(), Fail> {
    let (text, answer) = line.split_once(" -> ").unwrap_or((line, ""));
    if !is_grounded(terms) || place >= terms.len() {
        return Err(Fail::from("no table"));
    }
    let mut scratch = Scratch::new(alloc);
    let value = Value::parse(alloc, text, &mut scratch).map_err(|_| Fail::from("no JSON"))?;
    match judge(alloc, terms, &value, place, 1000)? {
        Verdict::Fits => Err(Fail::new(format_args!("fits: {line}"))),
        Verdict::GaveUp => Err(Fail::new(format_args!("over: {line}"))),
        Verdict::Unfit(reason) => {
            let found = told(alloc, terms, &reason)?;
            if found.as_str() == answer {
                Ok(())
            } else {
                Err(Fail::new(format_args!("{found} at {line}")))
            }
        }
    }
}

/// `POINTER: wants WHAT, has WHAT (RULE)`
fn told(alloc: Global, terms: &[Term], reason: &Reason<'_, '_>) -> Result<String, Fail> {
    if !is_grounded(terms) {
        return Err(Fail::from("no table"));
    }
    let place = pointer(alloc, &reason.steps)?;
    let wants = wanted(alloc, terms, &reason.wants)?;
    let found = found_words(alloc, reason.found)?;
    let rule = name_at(terms, reason.named);
    Ok(format!(in alloc; "{place}: wants {wants}, has {found} ({rule})")?)
}

fn name_at(terms: &[Term], place: Option<usize>) -> &str {
    let Some(place) = place else {
        return "no rule";
    };
    match terms.get(place) {
        Some(Term::Rule(name, _)) => name.as_str(),
        _ => "no rule",
    }
}

/// The answer of both calls, which agree.
fn answer_to(
    alloc: Global,
    terms: &[Term],
    place: usize,
    looks: u64,
    text: &str,
) -> Result<&'static str, Fail> {
    if !is_grounded(terms) || place >= terms.len() {
        return Ok("no_table");
    }
    let mut scratch = Scratch::new(alloc);
    let value = Value::parse(alloc, text, &mut scratch).map_err(|_| Fail::from("no JSON"))?;
    let short = match fits(alloc, terms, &value, place, looks)? {
        Some(true) => "fits",
        Some(false) => "unfit",
        None => "over",
    };
    let long = match judge(alloc, terms, &value, place, looks)? {
        Verdict::Fits => "fits",
        Verdict::Unfit(_) => "unfit",
        Verdict::GaveUp => "over",
    };
    if short == long {
        Ok(short)
    } else {
        Err(Fail::from("the two calls differ"))
    }
}

/// The term of a line, or `None` for a question.
pub fn term_of(alloc: Global, line: &str) -> Result<Option<Term>, Fail> {
    let (word, rest) = line.split_once(' ').unwrap_or((line, ""));
    let term = match word {
        "exactly" => Term::Exactly(String::from_str(alloc, rest)?),
        "text" => Term::Text,
        "bool" => Term::Bool,
        "true" => Term::Truth(true),
        "false" => Term::Truth(false),
        "null" => Term::Null,
        "any" => Term::Any,
        "whole" => {
            let (least, most) = rest.split_once(' ').unwrap_or((rest, ""));
            Term::Whole(whole(least)?, whole(most)?)
        }
        "number" => {
            let (least, most) = rest.split_once(' ').unwrap_or((rest, ""));
            Term::Number(bound(alloc, least)?, bound(alloc, most)?)
        }
        "list" => {
            let (least, item) = rest.split_once(' ').unwrap_or((rest, ""));
            Term::ListOf(number(least)?, number(item)?)
        }
        "tuple" => Term::TupleOf(numbers(alloc, rest)?),
        "map" => {
            let (further, rows) = rest.split_once(' ').unwrap_or((rest, ""));
            Term::MapOf(rows_of(alloc, rows)?, further_of(further)?)
        }
        "either" => {
            let (first, second) = rest.split_once(' ').unwrap_or((rest, ""));
            Term::Either(number(first)?, number(second)?)
        }
        "rule" => {
            let (name, place) = rest.split_once(' ').unwrap_or((rest, ""));
            Term::Rule(String::from_str(alloc, name)?, number(place)?)
        }
        _ => return Ok(None),
    };
    Ok(Some(term))
}

fn number(word: &str) -> Result<usize, Fail> {
    word.parse::<usize>().map_err(|_| Fail::from("no number"))
}

fn whole(word: &str) -> Result<i128, Fail> {
    word.parse::<i128>()
        .map_err(|_| Fail::from("no whole number"))
}

fn numbers(alloc: Global, words: &str) -> Result<Vec<usize>, Fail> {
    let mut places = Vec::new(alloc);
    for word in words.split(' ') {
        if !word.is_empty() {
            places.push(number(word)?)?;
        }
    }
    Ok(places)
}

fn bound(alloc: Global, word: &str) -> Result<Bound, Fail> {
    if let Some(text) = word.strip_prefix('[') {
        return Ok(Bound::Including(String::from_str(alloc, text)?));
    }
    if let Some(text) = word.strip_prefix('(') {
        return Ok(Bound::Excluding(String::from_str(alloc, text)?));
    }
    Ok(Bound::Unbounded)
}

fn further_of(word: &str) -> Result<Option<usize>, Fail> {
    if word == "-" {
        Ok(None)
    } else {
        Ok(Some(number(word)?))
    }
}

fn rows_of(alloc: Global, words: &str) -> Result<Vec<Row>, Fail> {
    let mut rows = Vec::new(alloc);
    for word in words.split(' ') {
        if !word.is_empty() {
            rows.push(row_of(alloc, word)?)?;
        }
    }
    Ok(rows)
}

fn row_of(alloc: Global, word: &str) -> Result<Row, Fail> {
    let need = if word.starts_with('!') {
        Need::Required
    } else {
        Need::Optional
    };
    let (name, place) = word.rsplit_once(':').unwrap_or((word, ""));
    let name = name.strip_prefix('!').unwrap_or(name);
    let name = name.strip_prefix('?').unwrap_or(name);
    Ok(Row {
        name: String::from_str(alloc, name)?,
        need,
        term: number(place)?,
    })
}
