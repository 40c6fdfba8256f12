//! Listings of an input: a line for each message, or for each refused line.
ghost use Rattle.std.specs.Prelude.{◌≡◌, ◌+◌, ◌∷◌, ◌++◌, [], length, nat_lt, decimal};
ghost use Rattle.std.specs.Prelude.{option_map, string_bytes, IfOk, IfErr, OnOk, IsTrue, MatchResult};
ghost use Rattle.std.specs.Io.KnownBytes.{IsAtEnd};
ghost use Rattle.bidi_lines.specs.Devices.{Moves};
ghost use Rattle.bidi_lines.specs.Feeds.{ended};
ghost use Rattle.bidi_lines.specs.Stops.{StopsAt, failed_reads, failed_writes};
ghost use Rattle.bidi_show.specs.MessageLines.{shown_of, text_of};
ghost use Rattle.bidi_show.specs.Listings.{Lists, ListsAll, listing_run, numbered};
ghost use Rattle.bidi_show.specs.Listers.{lister_answers};

use super::message_lines::{Shown, refusal, show_line};
use bidi_lines::{AnswerFault, Answerer, LinesFault, MOST_LINES, Side, Sink, Source, answer_lines};
use json::Scratch;
use std::alloc::{AllocError, Global};

/// Which lines are listed.
#[derive(Clone, Copy, Debug, PartialEq, Eq)]
pub enum Listing {
    /// All lines.
    All,
    /// Only refused lines, each with its number.
    RefusedAlone,
}

/// Writes a line for each line of the source, or for each refused one. Returns whether it wrote any.
///
/// The listing of a line is written before the next line is read.
///
/// # Errors
/// The first of these in the order of the input ends the listing:
/// 1. `Read`: a read of the source failed.
/// 2. `Write`: a write of the sink failed.
/// 3. `BadLine`: a line is too long, or the input ends without its line feed.
/// 4. `NoMemory`: an allocation failed.
/// 5. `TooManyLines`: the input has more than 1,000,000,000 lines.
pub fn list<R: Source, W: Sink>(
    alloc: Global,
    listing: Listing,
    side: Side,
    source: &mut R,
    sink: &mut W,
) -> Result<bool, LinesFault>
    // After an Ok, the source gave whole lines only, and their listing was written; the result is
    // true if that is not empty.
    ensures ok { IfOk result (λ some. Moves (R.left source.old) (R.left source.new) (W.contents sink.old) (W.contents sink.new)
        (λ read wrote. ListsAll listing side read wrote × (some ≡ nat_lt 0 (length wrote)))) }
    // After an Ok, the source has ended, and none of its bytes is left.
    ensures end { OnOk result (IsTrue (R.has_ended source.new) × IsAtEnd (R.left source.new)) }

    // A fault says which lines were listed and written before it, and why the next was not.
    ensures err { IfErr result (λ fault. Moves (R.left source.old) (R.left source.new) (W.contents sink.old) (W.contents sink.new)
        (StopsAt (listing_run listing side) fault (R.has_ended source.new))) }

    // The source failed once if the fault is `Read`, and not at all otherwise.
    ensures reads { MatchResult result (λ _. R.failures source.new ≡ R.failures source.old)
        (λ fault. R.failures source.new ≡ R.failures source.old + failed_reads fault) }
    // The sink failed once if the fault is `Write`, and not at all otherwise.
    ensures writes { MatchResult result (λ _. W.failures sink.new ≡ W.failures sink.old)
        (λ fault. W.failures sink.new ≡ W.failures sink.old + failed_writes fault) }
{
    let mut lister = Lister {
        listing,
        side,
        scratch: boxed_scratch(alloc)?,
        has_written: false,
    };
    answer_lines(alloc, &mut lister, MOST_LINES, source, sink)?;
    Ok(lister.has_written)
}

// Makes a scratch in a block of its own. Never inlined: making a scratch takes 16 KB of the stack,
// which has to be free again while lines are read.
#[inline(never)]
fn boxed_scratch(alloc: Global) -> Result<Box<Scratch>, AllocError> {
    Ok(Box::new(alloc, Scratch::new(alloc))?)
}

// The state of a listing.
#[derive(Drop)]
struct Lister {
    listing: Listing,
    side: Side,
    // The scratch for reading lines.
    scratch: Box<Scratch>,
    // Whether anything was written.
    has_written: bool,
}

impl Answerer for Lister {
    ghost answers = { lister_answers };

    fn answer(
        &mut self,
        alloc: Global,
        number: u64,
        line: &[u8],
    ) -> Result<Option<Vec<u8>>, AnswerFault> {
        let text = text_for(
            alloc,
            self.listing,
            self.side,
            number,
            line,
            self.scratch.as_mut(),
        )?;
        self.has_written |= !text.is_empty();
        Ok(Some(text.into_bytes()))
    }
}

// Makes the listing of the line with this number.
fn text_for(
    alloc: Global,
    listing: Listing,
    side: Side,
    number: u64,
    line: &[u8],
    scratch: &mut Scratch,
) -> Result<String, AllocError>
    ensures { IfOk result (λ text. Lists listing side number line.now (string_bytes text)) }
{
    match listing {
        Listing::All => with_feed(show_line(alloc, side, line, scratch)?),
        Listing::RefusedAlone => numbered(alloc, number, refusal(alloc, side, line, scratch)?),
    }
}

// Makes the line that is shown, with its line feed.
fn with_feed(shown: Shown) -> Result<String, AllocError>
    ensures { IfOk result (λ text. string_bytes text ≡ ended (text_of (shown_of shown))) }
{
    let mut text = match shown {
        Shown::Taken(text) => text,
        Shown::Refused(text) => text,
    };
    text.push_str("\n")?;
    Ok(text)
}

// Makes the line of a refusal, with its number; nothing for a message.
#[tactic(auto, using(crate::proofs::ListingLemmas::numbered_grouped))]
fn numbered(alloc: Global, number: u64, refused: Option<String>) -> Result<String, AllocError>
    ensures { IfOk result (λ text. string_bytes text ≡ numbered number (option_map string_bytes refused)) }
{
    match refused {
        None => Ok(String::new(alloc)),
        Some(text) => numbered_line(alloc, number, text.as_str()),
    }
}

// `line N: TEXT`
fn numbered_line(alloc: Global, number: u64, text: &str) -> Result<String, AllocError>
    ensures { IfOk result (λ line. string_bytes line ≡ 108 ∷ 105 ∷ 110 ∷ 101 ∷ 32 ∷ (decimal number ++ 58 ∷ 32 ∷ (text.now ++ 10 ∷ []))) }
{
    format!(in alloc; "line {number}: {text}\n")
}
