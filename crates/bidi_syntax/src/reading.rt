//! A text that is read byte by byte.
ghost use Rattle.std.specs.Prelude.{◌≡◌, IfOk, OnOk, Some, None, false, if◌then◌else◌};
ghost use Rattle.bidi_syntax.specs.Reading.{after_turn, beginning, first_of, innermost, is_whole, levels_of, next_reading, reading_of, wants_at, wants_in_string, wants_in_word, wants_of};
ghost use Rattle.bidi_syntax.specs.Grammar.{turn_of};

use crate::fault::Fault;
use crate::place::{Container, Place, State, StringPart, WordPart};
use crate::turns::{Turn, is_ended, turn_of};
use crate::wants::Wants;
use std::alloc::{AllocError, Global};

/// A text that was read so far.
#[derive(Drop)]
pub(crate) struct TextReader {
    pub state: State,
    /// The arrays and objects that are open, the innermost last.
    pub containers: Vec<Container>,
    /// The most that were open at once.
    pub levels: usize,
}

impl TextReader {
    /// One that has read nothing. Takes no memory.
    pub(crate) fn new(alloc: Global) -> TextReader
        ensures { reading_of result ≡ beginning }
    {
        TextReader {
            state: State::At(Place::Value),
            containers: Vec::new(alloc),
            levels: 0,
        }
    }

    /// Reads one byte more. The result says whether it may stand there.
    pub(crate) fn read(&mut self, byte: u8) -> Result<bool, AllocError>
        ensures taken { IfOk result (λ taken. next_reading (reading_of self.old) byte ≡ (if taken then Some (reading_of self.new) else None)) }
        ensures kept { IfOk result (λ taken. taken ≡ false → reading_of self.new ≡ reading_of self.old) }
    {
        let Some(turn) = turn_of(self.state, self.innermost(), byte) else {
            return Ok(false);
        };
        self.take(turn)?;
        Ok(true)
    }

    // Does what a byte does.
    fn take(&mut self, turn: Turn) -> Result<(), AllocError>
        ensures { OnOk result (reading_of self.new ≡ after_turn turn (reading_of self.old)) }
    {
        match turn {
            Turn::Goes(state) => self.state = state,
            Turn::Opens(container) => {
                self.containers.push(container)?;
                self.levels = self.levels.max(self.containers.len());
                self.state = first_of(container);
            }
            Turn::Closes => {
                self.containers.pop();
                self.state = State::At(Place::Next);
            }
        }
        Ok(())
    }

    // The innermost of what is open.
    fn innermost(&self) -> Option<Container>
        ensures { result ≡ innermost (reading_of self.now).containers }
    {
        self.containers.last().copied()
    }

    /// Whether the text may end here.
    pub(crate) fn is_whole(&self) -> bool
        ensures { result ≡ is_whole (reading_of self.now) }
    {
        let may_end = match self.state {
            State::At(Place::Next) => true,
            State::InNumber(part) => is_ended(part),
            _ => false,
        };
        may_end && self.containers.is_empty()
    }

    /// What may stand here.
    pub(crate) fn wants(&self) -> Wants
        ensures { result ≡ wants_of (reading_of self.now) }
    {
        match self.state {
            State::At(place) => wants_at(place, self.innermost()),
            State::InName(part) | State::InText(part) => wants_in_string(part),
            State::InWord(part) => wants_in_word(part),
            State::InNumber(part) if is_ended(part) => wants_at(Place::Next, self.innermost()),
            State::InNumber(_) => Wants::Digit,
        }
    }
}

// The place after the bracket that opens.
fn first_of(container: Container) -> State
    ensures { result ≡ first_of container }
{
    match container {
        Container::Array => State::At(Place::FirstValue),
        Container::Object => State::At(Place::FirstName),
    }
}

// What may stand where blanks may.
fn wants_at(place: Place, innermost: Option<Container>) -> Wants
    ensures { result ≡ wants_at place innermost }
{
    match place {
        Place::Value => Wants::Value,
        Place::FirstValue => Wants::ValueOrEnd,
        Place::FirstName => Wants::NameOrEnd,
        Place::Name => Wants::Name,
        Place::Colon => Wants::Colon,
        Place::Next => match innermost {
            None => Wants::End,
            Some(Container::Array) => Wants::CommaOrArrayEnd,
            Some(Container::Object) => Wants::CommaOrObjectEnd,
        },
    }
}

// What may stand in a string.
fn wants_in_string(part: StringPart) -> Wants
    ensures { result ≡ wants_in_string part }
{
    match part {
        StringPart::Plain | StringPart::Closed => Wants::StringRest,
        StringPart::Escape => Wants::EscapeRest,
        StringPart::FourDigits
        | StringPart::ThreeDigits
        | StringPart::TwoDigits
        | StringPart::OneDigit => Wants::HexDigit,
    }
}

// What may stand in `true`, `false` or `null`.
fn wants_in_word(part: WordPart) -> Wants
    ensures { result ≡ wants_in_word part }
{
    match part {
        WordPart::T | WordPart::Tr | WordPart::Tru => Wants::TrueRest,
        WordPart::F | WordPart::Fa | WordPart::Fal | WordPart::Fals => Wants::FalseRest,
        WordPart::N | WordPart::Nu | WordPart::Nul => Wants::NullRest,
    }
}

/// How many levels of arrays and objects a text has, if it is JSON; else where it is not.
///
/// # Errors
/// No memory: an allocation failed.
pub(crate) fn levels_of(alloc: Global, text: &[u8]) -> Result<Result<usize, Fault>, AllocError>
    ensures { IfOk result (λ levels. levels ≡ levels_of text.now) }
{
    let mut reader = TextReader::new(alloc);
    let mut place = 1;
    for byte in text {
        if !reader.read(*byte)? {
            return Ok(Err(Fault::Syntax(reader.wants(), place)));
        }
        place += 1;
    }
    if !reader.is_whole() {
        return Ok(Err(Fault::Syntax(reader.wants(), place)));
    }
    Ok(Ok(reader.levels))
}
