//! What the replies of the remote end say of subscriptions, and the numbers in ids.
ghost use Rattle.std.specs.Prelude.{◌≡◌, ◌<◌, ◌^◌, ◌++◌, ◌+◌, ℕ, List, length, map, string_bytes, codes, option_map, option_to_list, slice_index, Some, IfOk, IfSome};
ghost use Rattle.std.specs.Str.{IsAscii};
ghost use Rattle.bidi_sessions.specs.View.{sent_of};
ghost use Rattle.bidi_handles.specs.Ids.{id_text};
ghost use Rattle.bidi_names.specs.Replies.{last_text, succeeded, Gives, AreNumbers, id_result};

use bidi_handles::{IdKind, id_number, id_text};
use bidi_sessions::Sent;
use std::alloc::{AllocError, Global};

/// How the message of a success ends.
const SUCCESS_END: &str = ",\"type\":\"success\"}";

/// How the answer to a command that subscribes ends, behind the id of the subscription.
const ID_END: &str = "\"},\"type\":\"success\"}";

/// How many bytes an id has.
const ID_BYTES: usize = 36;

/// How many bytes an id has with what follows it in an answer.
const END_BYTES: usize = 56;

/// The number of the subscription that a session made, if the last text that is sent is the answer that gives its id. Takes no memory.
pub fn number_made(sent: &[Sent], session: u32) -> Option<u64>
    // The answer gives the id of the number in Some, which an id can show.
    ensures some { IfSome result (λ n. (n < 2 ^ 48) × Gives session (map sent_of sent.now) n) }
    // If the answer gives the id of a number that an id can show, the result is this number.
    ensures every { (n : ℕ) → n < 2 ^ 48 → Gives session (map sent_of sent.now) n → result ≡ Some n }
{
    id_number(id_given(last_text(sent)?)?, IdKind::Subscription, session)
}

// The id at the end of the answer to a command that subscribes.
fn id_given(text: &str) -> Option<&str>
    ensures some { IfSome result (λ id. (front : List ℕ) × (text.now ≡ front ++ (id.now ++ codes "\"},\"type\":\"success\"}"))) }
    ensures every { (front id : List ℕ) → text.now ≡ front ++ (id ++ codes "\"},\"type\":\"success\"}") → IsAscii id → length id ≡ 36
        → option_map (λ s. s.now) result ≡ Some id }
{
    id_before(tail(text, END_BYTES)?)
}

// The id at the front of such an end.
fn id_before(end: &str) -> Option<&str>
    ensures some { IfSome result (λ id. end.now ≡ id.now ++ codes "\"},\"type\":\"success\"}") }
    ensures every { (id : List ℕ) → end.now ≡ id ++ codes "\"},\"type\":\"success\"}" → length id ≡ 36 → option_map (λ s. s.now) result ≡ Some id }
{
    let (id, rest) = end.split_at_checked(ID_BYTES)?;
    if rest != ID_END {
        return None;
    }
    Some(id)
}

// The last bytes of a text, if they begin with a character.
fn tail(text: &str, count: usize) -> Option<&str>
    requires { 0 < count }
    ensures some { IfSome result (λ t. (front : List ℕ) × (text.now ≡ front ++ t.now)) }
    ensures every { (front t : List ℕ) → text.now ≡ front ++ t → length t ≡ count → slice_index t 0 < 128 → option_map (λ s. s.now) result ≡ Some t }
{
    let place = text.len().checked_sub(count)?;
    let (_, rest) = text.split_at_checked(place)?;
    Some(rest)
}

/// The result that gives the id of this subscription of a session, as JSON text.
///
/// # Errors
/// No memory: an allocation failed.
pub fn id_result(alloc: Global, session: u32, number: u64) -> Result<String, AllocError>
    // An id shows numbers below 2^48.
    requires { number < 2 ^ 48 }
    // An Ok is the text of the definition.
    ensures { IfOk result (λ text. string_bytes text ≡ id_result session number) }
{
    let id = id_text(alloc, IdKind::Subscription, session, number)?;
    format!(in alloc; "{{\"subscription\":\"{id}\"}}")
}

/// Whether the last text that is sent is that of a success. Takes no memory.
pub fn is_success(sent: &[Sent]) -> bool
    // The result is as the definition says.
    ensures { result ≡ succeeded (map sent_of sent.now) }
{
    match last_text(sent) {
        Some(text) => text.ends_with(SUCCESS_END),
        None => false,
    }
}

// The last text that is sent, if that is the last thing.
fn last_text(sent: &[Sent]) -> Option<&str>
    ensures { option_map (λ s. s.now) result ≡ last_text (map sent_of sent.now) }
{
    match sent.last() {
        Some(Sent::Text(_, text)) => Some(text.as_str()),
        _ => None,
    }
}

/// The numbers of the subscriptions of a session that have these ids. An id of something else counts for nothing.
///
/// # Errors
/// No memory: an allocation failed.
pub fn subscription_numbers(
    alloc: Global,
    ids: &[String],
    session: u32,
) -> Result<Vec<u64>, AllocError>
    // An Ok has a number below 2^48 exactly if its id is among these.
    ensures { IfOk result (λ numbers. AreNumbers (id_text IdKind.Subscription session) (map string_bytes ids.now) numbers.items) }
{
    let mut numbers = Vec::new(alloc);
    for id in ids {
        let found = id_number(id.as_str(), IdKind::Subscription, session);
        push_found(&mut numbers, found)?;
    }
    Ok(numbers)
}

// Adds the number that was found, if there is one.
fn push_found(numbers: &mut Vec<u64>, found: Option<u64>) -> Result<(), AllocError>
    ensures { IfOk result (λ _. numbers.new.items ≡ numbers.old.items ++ option_to_list found) }
{
    match found {
        Some(number) => Ok(numbers.push(number)?),
        None => Ok(()),
    }
}
