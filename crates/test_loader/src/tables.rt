//! Grammars and questions as lines of a text.
//!
//! `= TEXT` loads a grammar. `RULE fits VALUE` and `RULE unfit VALUE` ask whether a value fits a rule of it.
use bidi_grammar::{fits, is_grounded};
use bidi_loader::{LoadFault, Loaded, line_and_column, load};
use json::{Scratch, Value};
use std::alloc::Global;
use std::test::Fail;

/// That each question has its answer, by a grammar or by those that the lines load.
pub fn check_grammars(alloc: Global, grammar: Option<&str>, lines: &str) -> Result<(), Fail> {
    let mut loaded = match grammar {
        Some(text) => Some(loaded_of(alloc, text)?),
        None => None,
    };
    for line in lines.trim().lines() {
        if let Some(text) = line.strip_prefix("= ") {
            loaded = Some(loaded_of(alloc, text)?);
        } else if let Some(grammar) = &loaded {
            check_question(alloc, grammar, line)?;
        }
    }
    Ok(())
}

fn loaded_of(alloc: Global, text: &str) -> Result<Loaded, Fail> {
    match load(alloc, text) {
        Ok(loaded) => Ok(loaded),
        Err(LoadFault::NoMemory) => Err(Fail::from("no memory")),
        Err(LoadFault::Wrong(wrong)) => {
            let (line, column) = line_and_column(text, wrong.at);
            Err(Fail::new(format_args!("{line}:{column}: {}", wrong.what)))
        }
    }
}

fn check_question(alloc: Global, grammar: &Loaded, line: &str) -> Result<(), Fail> {
    let (rule, rest) = line.split_once(' ').unwrap_or((line, ""));
    let (answer, text) = rest.split_once(' ').unwrap_or((rest, ""));
    let Some(place) = place_of(grammar, rule) else {
        return Err(Fail::new(format_args!("no such rule: {line}")));
    };
    let terms = grammar.terms.as_slice();
    if !is_grounded(terms) || place >= terms.len() {
        return Err(Fail::from("the table may not be asked"));
    }
    let mut scratch = Scratch::new(alloc);
    let value = Value::parse(alloc, text, &mut scratch).map_err(|_| Fail::from("no JSON"))?;
    let found = match fits(alloc, terms, &value, place, 1_000_000)? {
        Some(true) => "fits",
        Some(false) => "unfit",
        None => "over",
    };
    if found == answer {
        Ok(())
    } else {
        Err(Fail::new(format_args!("{found}: {line}")))
    }
}

fn place_of(grammar: &Loaded, rule: &str) -> Option<usize> {
    for named in &grammar.rules {
        if named.name.as_str() == rule {
            return named.place;
        }
    }
    None
}

/// That each text has its fault: a line is `LINE:COLUMN WHAT | TEXT`, where `~` stands for the end of a line.
pub fn check_faults(alloc: Global, lines: &str) -> Result<(), Fail> {
    for line in lines.trim().lines() {
        let (wanted, text) = line.split_once(" | ").unwrap_or((line, ""));
        let text = text.replace(alloc, '~', "\n")?;
        let found = fault_of(alloc, &text)?;
        if found.as_str() != wanted {
            return Err(Fail::new(format_args!("{found} for {line}")));
        }
    }
    Ok(())
}

fn fault_of(alloc: Global, text: &str) -> Result<String, Fail> {
    match load(alloc, text) {
        Ok(_) => Ok(String::from_str(alloc, "loaded")?),
        Err(LoadFault::NoMemory) => Ok(String::from_str(alloc, "no memory")?),
        Err(LoadFault::Wrong(wrong)) => {
            let (line, column) = line_and_column(text, wrong.at);
            Ok(format!(in alloc; "{line}:{column} {}", wrong.what)?)
        }
    }
}
