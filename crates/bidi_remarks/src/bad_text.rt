//! Lines that are no text to judge.
ghost use Rattle.std.specs.Prelude.{◌≡◌, IfOk, string_bytes};
ghost use Rattle.bidi_remarks.specs.Trouble.{bad_words, bad_cause, json_cause, json_words};

use bidi_syntax::Fault;
use std::alloc::{AllocError, Global};

/// Why a line is no text to judge.
#[derive(Clone, Copy, Debug, PartialEq, Eq)]
pub enum BadText {
    /// It is the first, and begins with a byte order mark.
    ByteOrderMark,
    /// The byte at this place, counted from 1, belongs to no character of UTF-8.
    NoUtf8(usize),
    /// It has more than 2,097,152 bytes.
    TooLong,
    /// It is JSON, and has more than 1,048,576 bytes, the most of a command.
    TooLarge,
    /// It is not read as JSON, for this reason if one is found.
    NotJson(Option<Fault>),
    /// It is a line of a conversation that does not say who sent it.
    NoDirection,
}

impl BadText {
    /// What is told of it.
    pub(crate) fn words(self, alloc: Global) -> Result<String, AllocError>
        ensures { IfOk result (λ text. string_bytes text ≡ bad_words self) }
    {
        match self {
            BadText::NoUtf8(place) => format!(in alloc; "no UTF-8 at byte {place}"),
            BadText::NotJson(fault) => json_words(alloc, fault),
            BadText::ByteOrderMark | BadText::TooLong | BadText::TooLarge | BadText::NoDirection =>
                String::from_str(alloc, self.cause()),
        }
    }

    /// The same without the place.
    pub(crate) fn cause(self) -> &'static str
        ensures { result.now ≡ bad_cause self }
    {
        match self {
            BadText::ByteOrderMark => "byte order mark",
            BadText::NoUtf8(_) => "no UTF-8",
            BadText::TooLong => "too long",
            BadText::TooLarge => "more than 1048576 bytes",
            BadText::NotJson(fault) => json_cause(fault),
            BadText::NoDirection => "no direction",
        }
    }
}

// What is told of a line that is not read as JSON.
fn json_words(alloc: Global, fault: Option<Fault>) -> Result<String, AllocError>
    ensures { IfOk result (λ text. string_bytes text ≡ json_words fault) }
{
    match fault {
        None => String::from_str(alloc, "not json"),
        Some(Fault::Syntax(wants, place)) => {
            let wants = wants.words();
            format!(in alloc; "not json: wants {wants} at byte {place}")
        }
        Some(Fault::Levels(levels)) => {
            format!(in alloc; "{levels} levels of nesting, at most 127")
        }
        Some(Fault::LoneSurrogate(place)) => { format!(in alloc; "lone surrogate at byte {place}") }
        Some(Fault::LargeNumber(place)) => {
            format!(in alloc; "number out of range at byte {place}")
        }
    }
}

// The same without places and counts.
fn json_cause(fault: Option<Fault>) -> &'static str
    ensures { result.now ≡ json_cause fault }
{
    match fault {
        None | Some(Fault::Syntax(_, _)) => "not json",
        Some(Fault::Levels(_)) => "levels of nesting, at most 127",
        Some(Fault::LoneSurrogate(_)) => "lone surrogate",
        Some(Fault::LargeNumber(_)) => "number out of range",
    }
}
