//! Log entries of the console as JSON text. Only what the console was given is written by an outline.
ghost use Rattle.std.specs.Prelude.{◌≡◌, ◌++◌, codes, None, IfOk, IfSome, OnOk, IsTrue, string_bytes};
ghost use Rattle.json.specs.Print.{escape};
ghost use Rattle.bidi_tree.specs.Node.{IsSound, IsWritable};
ghost use Rattle.bidi_tree.specs.Text.{compact_text};

use crate::plain::{has_no_escape, has_no_escape_if_there, push_nullable};
use bidi_scripts::{ConsoleEntry, LogEntry, Source};
use bidi_shape::{Named, Shape};
use bidi_tree::append_outline;
use bidi_values::RemoteValue;
use std::alloc::{AllocError, Global};

/// Appends the compact text of a log entry.
///
/// # Errors
/// No memory: an allocation failed. The text is then lost.
pub(crate) fn append_entry(
    alloc: Global,
    text: String,
    entry: &LogEntry,
) -> Result<String, AllocError>
    requires { IsWritable (⟦<LogEntry as Shape>⟧.shape.tree_of entry.now) }
    ensures text { IfOk result (λ s. string_bytes s ≡ string_bytes text ++ compact_text (⟦<LogEntry as Shape>⟧.shape.tree_of entry.now)) }
    ensures sound { OnOk result (IsSound (⟦<LogEntry as Shape>⟧.shape.tree_of entry.now)) }
{
    match entry {
        LogEntry::Console(console) if is_plain(console) => append_console(alloc, text, console),
        _ => {
            let outline = entry.outline(alloc)?;
            append_outline(text, &outline)
        }
    }
}

// Whether an entry has no stack trace, and no string of its own in which a byte is escaped.
fn is_plain(entry: &ConsoleEntry) -> bool
    ensures { IsTrue result → (entry.now.base.stack_trace ≡ None) × (escape (string_bytes entry.now.method) ≡ string_bytes entry.now.method)
        × (IfSome entry.now.base.source.context (λ t. escape (string_bytes t) ≡ string_bytes t))
        × (escape (string_bytes entry.now.base.source.realm) ≡ string_bytes entry.now.base.source.realm)
        × (IfSome entry.now.base.text (λ t. escape (string_bytes t) ≡ string_bytes t)) }
{
    entry.base.stack_trace.is_none()
        && has_no_escape(&entry.method)
        && has_no_escape_if_there(&entry.base.source.context)
        && has_no_escape(&entry.base.source.realm)
        && has_no_escape_if_there(&entry.base.text)
}

// Appends the text of such an entry.
fn append_console(alloc: Global, text: String, entry: &ConsoleEntry) -> Result<String, AllocError>
    requires writable { IsWritable (⟦<ConsoleEntry as Shape>⟧.shape.tree_of entry.now) }
    requires alone { entry.now.base.stack_trace ≡ None }
    requires method { escape (string_bytes entry.now.method) ≡ string_bytes entry.now.method }
    requires context { IfSome entry.now.base.source.context (λ t. escape (string_bytes t) ≡ string_bytes t) }
    requires realm { escape (string_bytes entry.now.base.source.realm) ≡ string_bytes entry.now.base.source.realm }
    requires words { IfSome entry.now.base.text (λ t. escape (string_bytes t) ≡ string_bytes t) }
    ensures text { IfOk result (λ s. string_bytes s ≡ string_bytes text ++ compact_text (⟦<ConsoleEntry as Shape>⟧.shape.tree_of entry.now)) }
    ensures sound { OnOk result (IsSound (⟦<ConsoleEntry as Shape>⟧.shape.tree_of entry.now)) }
{
    let mut digits = itoa::Buffer::new();
    let mut text = text;
    text.push_str("{\"args\":")?;
    let mut text = append_args(alloc, text, &entry.args)?;
    text.push_str(",\"level\":\"")?;
    text.push_str(entry.base.level.name())?;
    text.push_str("\",\"method\":\"")?;
    text.push_str(&entry.method)?;
    text.push_str("\",\"source\":")?;
    push_source(&mut text, &entry.base.source)?;
    text.push_str(",\"text\":")?;
    push_nullable(&mut text, &entry.base.text)?;
    text.push_str(",\"timestamp\":")?;
    text.push_str(digits.format(entry.base.timestamp.value))?;
    text.push_str(",\"type\":\"console\"}")?;
    Ok(text)
}

// Appends the text of what the console was given.
fn append_args(alloc: Global, text: String, args: &Vec<RemoteValue>) -> Result<String, AllocError>
    requires { IsWritable (⟦<Vec<RemoteValue> as Shape>⟧.shape.tree_of args.now) }
    ensures text { IfOk result (λ s. string_bytes s ≡ string_bytes text ++ compact_text (⟦<Vec<RemoteValue> as Shape>⟧.shape.tree_of args.now)) }
    ensures sound { OnOk result (IsSound (⟦<Vec<RemoteValue> as Shape>⟧.shape.tree_of args.now)) }
{
    let outline = args.outline(alloc)?;
    append_outline(text, &outline)
}

// Appends the text of the source of an entry.
fn push_source(text: &mut String, source: &Source) -> Result<(), AllocError>
    requires context { IfSome source.now.context (λ t. escape (string_bytes t) ≡ string_bytes t) }
    requires realm { escape (string_bytes source.now.realm) ≡ string_bytes source.now.realm }
    ensures { OnOk result (string_bytes text.new ≡ string_bytes text.old ++ compact_text (⟦<Source as Shape>⟧.shape.tree_of source.now)) }
{
    match &source.context {
        Some(context) => push_members(text, context, &source.realm),
        None => push_realm(text, &source.realm),
    }
}

// Appends the text of an object with a context and a realm.
fn push_members(text: &mut String, context: &str, realm: &str) -> Result<(), AllocError>
    ensures { OnOk result (string_bytes text.new
        ≡ string_bytes text.old ++ (codes "{\"context\":\"" ++ (context.now ++ (codes "\",\"realm\":\"" ++ (realm.now ++ codes "\"}"))))) }
{
    text.push_str("{\"context\":\"")?;
    text.push_str(context)?;
    text.push_str("\",\"realm\":\"")?;
    text.push_str(realm)?;
    text.push_str("\"}")?;
    Ok(())
}

// Appends the text of an object with a realm alone.
fn push_realm(text: &mut String, realm: &str) -> Result<(), AllocError>
    ensures { OnOk result (string_bytes text.new ≡ string_bytes text.old ++ (codes "{\"realm\":\"" ++ (realm.now ++ codes "\"}"))) }
{
    text.push_str("{\"realm\":\"")?;
    text.push_str(realm)?;
    text.push_str("\"}")?;
    Ok(())
}
