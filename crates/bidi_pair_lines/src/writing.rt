//! The lines of a ledger: the fate of each command, and the events of each link.
ghost use Rattle.std.specs.Prelude.{◌≡◌, [], ◌∷◌, ◌++◌, map, IfOk, codes, decimal, string_bytes};
ghost use Rattle.std.specs.List.{AllByRecursion};
ghost use Rattle.bidi_tree.specs.Node.{IsWritable};
ghost use Rattle.bidi_tree.specs.Text.{compact_text};
ghost use Rattle.bidi_tree.specs.View.{node};
ghost use Rattle.bidi_ledger.specs.Steps.{FateIsWell, LedgerIsWell, AccountIsWell, entry_seen, event_seen, fate_seen, account_seen, accounts_of};
ghost use Rattle.bidi_lines.specs.Feeds.{ended};
ghost use Rattle.bidi_pair_lines.specs.PairLines.{entries_text, entry_line, event_line, events_text, fate_text, ledger_text, account_text, unsent_text};
ghost use Rattle.bidi_messages.specs.Payloads.{EventIsWell, ResultIsWell, event_params, result_tree};

use bidi_ledger::{Account, Entry, Fate, Ledger};
use bidi_messages::{EventData, EventName, Method, Named, Payload, ResultData};
use bidi_tree::{JsUint, Tree, write};
use std::alloc::{AllocError, Global};

/// Makes the lines of a ledger, link by link: first its commands, then its events, and last how many commands
/// were not sent, if there are any.
///
/// # Errors
/// No memory: an allocation failed.
pub fn ledger_lines(alloc: Global, ledger: Ledger) -> Result<String, AllocError>
    // Each result and each event in the ledger is valid.
    requires { LedgerIsWell ledger }
    // The result has the lines of the ledger, each with its line feed.
    ensures { IfOk result (λ lines. string_bytes lines ≡ ledger_text (accounts_of ledger)) }
{
    let mut lines = String::new(alloc);
    'accounts: for account in ledger.accounts {
        let text = account_lines(alloc, account)?;
        lines.push_str(text.as_str())?;
    }
    Ok(lines)
}

// The lines of one link.
fn account_lines(alloc: Global, account: Account) -> Result<String, AllocError>
    requires { AccountIsWell account }
    ensures { IfOk result (λ lines. string_bytes lines ≡ account_text (account_seen account)) }
{
    let mut lines = entry_lines(alloc, account.link, account.commands)?;
    let events = event_lines(alloc, account.link, account.events)?;
    lines.push_str(events.as_str())?;
    let unsent = unsent_line(alloc, account.link, account.unsent)?;
    lines.push_str(unsent.as_str())?;
    Ok(lines)
}

// The lines of the commands of a link.
fn entry_lines(alloc: Global, link: JsUint, commands: Vec<Entry>) -> Result<String, AllocError>
    requires { AllByRecursion (λ e. FateIsWell e.fate) commands.items }
    ensures { IfOk result (λ lines. string_bytes lines ≡ entries_text link.value (map entry_seen commands.items)) }
{
    let mut lines = String::new(alloc);
    'entries: for entry in commands {
        let line = entry_line(alloc, link, entry)?;
        lines.push_str(line.as_str())?;
    }
    Ok(lines)
}

// `L ID METHOD FATE`
fn entry_line(alloc: Global, link: JsUint, entry: Entry) -> Result<String, AllocError>
    requires { FateIsWell entry.fate }
    ensures { IfOk result (λ line. string_bytes line ≡ ended (entry_line link.value (entry_seen entry))) }
{
    let fate = fate_text(alloc, entry.fate)?;
    let method = entry.method.name();
    four_fields(alloc, link, entry.id, method, fate.as_str())
}

// A line of four fields.
fn four_fields(
    alloc: Global,
    link: JsUint,
    id: JsUint,
    method: &str,
    fate: &str,
) -> Result<String, AllocError>
    ensures { IfOk result (λ line. string_bytes line ≡ decimal link.value ++ 32 ∷ (decimal id.value ++ 32 ∷ (method.now ++ 32 ∷ (fate.now ++ 10 ∷ [])))) }
{
    format!(in alloc; "{} {} {method} {fate}\n", link.value, id.value)
}

// The words for the fate of a command.
fn fate_text(alloc: Global, fate: Fate) -> Result<String, AllocError>
    requires { FateIsWell fate }
    ensures { IfOk result (λ text. string_bytes text ≡ fate_text (fate_seen fate)) }
{
    match fate {
        Fate::Answered(result) => answered_text(alloc, result),
        Fate::Refused(code) => {
            let name = code.name();
            format!(in alloc; "refused {name}")
        }
        Fate::Lost => String::from_str(alloc, "lost"),
        Fate::Waiting => String::from_str(alloc, "waiting"),
    }
}

// `answered RESULT`
fn answered_text(alloc: Global, result_data: ResultData) -> Result<String, AllocError>
    requires { ResultIsWell result_data }
    ensures { IfOk result (λ text. string_bytes text ≡ codes "answered " ++ compact_text (result_tree result_data)) }
{
    let tree = result_data.tree_of(alloc)?;
    let text = compact(alloc, tree)?;
    format!(in alloc; "answered {text}")
}

// The lines of the events that a link received.
fn event_lines(alloc: Global, link: JsUint, events: Vec<EventData>) -> Result<String, AllocError>
    requires { AllByRecursion EventIsWell events.items }
    ensures { IfOk result (λ lines. string_bytes lines ≡ events_text link.value (map event_seen events.items)) }
{
    let mut lines = String::new(alloc);
    'events: for event in events {
        let line = event_line(alloc, link, event)?;
        lines.push_str(line.as_str())?;
    }
    Ok(lines)
}

// `L event METHOD PARAMS`
fn event_line(alloc: Global, link: JsUint, event: EventData) -> Result<String, AllocError>
    requires { EventIsWell event }
    ensures { IfOk result (λ line. string_bytes line ≡ ended (event_line link.value (event_seen event))) }
{
    let event_name = event.event();
    let text = params_text(alloc, event)?;
    told_event(alloc, link, event_name.name(), text.as_str())
}

// The compact text of an event's params.
fn params_text(alloc: Global, event: EventData) -> Result<String, AllocError>
    requires { EventIsWell event }
    ensures { IfOk result (λ text. string_bytes text ≡ compact_text (event_params event)) }
{
    let tree = event.tree_of(alloc);
    // By a call, in which its variants are not visible.
    drop(event);
    compact(alloc, tree?)
}

// The line of an event.
fn told_event(alloc: Global, link: JsUint, name: &str, text: &str) -> Result<String, AllocError>
    ensures { IfOk result (λ line. string_bytes line ≡ decimal link.value ++ 32 ∷ (codes "event " ++ (name.now ++ 32 ∷ (text.now ++ 10 ∷ [])))) }
{
    format!(in alloc; "{} event {name} {text}\n", link.value)
}

// The compact text of a tree, which is used up.
fn compact(alloc: Global, tree: Tree) -> Result<String, AllocError>
    requires { IsWritable (node tree) }
    ensures { IfOk result (λ text. string_bytes text ≡ compact_text (node tree)) }
{
    write(alloc, &tree)
}

// `L unsent N`, or nothing if all commands were sent.
fn unsent_line(alloc: Global, link: JsUint, unsent: u64) -> Result<String, AllocError>
    ensures { IfOk result (λ line. string_bytes line ≡ unsent_text link.value unsent) }
{
    if unsent == 0 {
        Ok(String::new(alloc))
    } else {
        told_unsent(alloc, link, unsent)
    }
}

// The line that says how many commands were not sent.
fn told_unsent(alloc: Global, link: JsUint, unsent: u64) -> Result<String, AllocError>
    ensures { IfOk result (λ line. string_bytes line ≡ decimal link.value ++ 32 ∷ (codes "unsent " ++ (decimal unsent ++ 10 ∷ []))) }
{
    format!(in alloc; "{} unsent {unsent}\n", link.value)
}
