//! The plan of a step that logs a text.
ghost use Rattle.std.specs.Prelude.{◌≡◌, List, [], ◌∷◌, IfOk};
ghost use Rattle.bidi_tree.specs.Node.{no_members, text};
ghost use Rattle.bidi_contexts.specs.Acts.{Act};
ghost use Rattle.bidi_contexts.specs.Actions.{Log};
ghost use Rattle.bidi_contexts.specs.ContextRows.{row_of, entry_added_in};
ghost use Rattle.bidi_handles.specs.Maps.{◌being◌and◌, mapped, word, id_tree};
ghost use Rattle.bidi_contexts.specs.Occurrences.{console_entry};
ghost use Rattle.bidi_contexts.specs.View.{AreWell};
ghost use Rattle.bidi_browser.specs.Plans.{Plans, IsWellPlanned};
ghost use Rattle.bidi_browser.specs.Stands.{StandsFor};
ghost use Rattle.bidi_contexts.specs.View.{seen};

use crate::browser::Browser;
use crate::looking::context_named;
use crate::plan::{Change, Edit, Plan};
use bidi_contexts::{Context, Occurrence};
use bidi_handles::{IdKind, Refusal, id_text};
use bidi_scripts::{BaseLogEntry, ConsoleEntry, Level, LogEntry, Source};
use bidi_shape::{Named, Shape};
use bidi_tree::JsUint;
use bidi_values::{Primitive, RemotePlain, RemoteValue};
use std::alloc::{AllocError, Global};

/// Plans a console log entry in a context. The browser makes its event, and keeps nothing of it.
///
/// # Errors
/// The first that holds:
/// - `no such frame`: the context is not live.
/// - No memory: an allocation failed.
pub(crate) fn plan_log(
    browser: &Browser,
    moment: JsUint,
    context: &str,
    level: Level,
    text: &str,
) -> Result<Plan, Refusal>
    ensures plans { (past : List Act) → StandsFor browser.now past → Plans result past moment.value (Log context.now level text.now) }
    ensures well { IsWellPlanned result }
{
    let context = context_named(&browser.contexts, context)?;
    let before = logged(browser.alloc, moment, context, level, text)?;
    Ok(Plan {
        before,
        result: None,
        after: Vec::new(browser.alloc),
        change: Change { edit: Edit::Keep },
    })
}

// The log.entryAdded event of the text.
fn logged(
    alloc: Global,
    moment: JsUint,
    context: &Context,
    level: Level,
    text: &str,
) -> Result<Vec<Occurrence>, AllocError>
    ensures told { IfOk result (λ all. seen all.items ≡ entry_added_in (row_of context.now) moment.value level text.now ∷ []) }
    ensures well { IfOk result (λ all. AreWell all.items) }
{
    let entry = entry(alloc, moment, context, level, text)?;
    let mut all = Vec::new(alloc);
    all.push(context.logged(LogEntry::Console(entry)))?;
    Ok(all)
}

// An entry of the console: its method is the level's name, and the text is its one argument.
fn entry(
    alloc: Global,
    moment: JsUint,
    context: &Context,
    level: Level,
    text: &str,
) -> Result<ConsoleEntry, AllocError>
    ensures tree { IfOk result (λ e. ⟦<ConsoleEntry as Shape>⟧.shape.tree_of e
        ≡ console_entry moment.value (row_of context.now).number (row_of context.now).realm level text.now) }
    ensures well { IfOk result ⟦<ConsoleEntry as Shape>⟧.shape.well }
{
    let base = BaseLogEntry {
        level,
        source: source(alloc, context)?,
        text: Some(String::from_str(alloc, text)?),
        timestamp: moment,
        stack_trace: None,
    };
    let mut args = Vec::new(alloc);
    args.push(text_value(alloc, text)?)?;
    Ok(ConsoleEntry {
        base,
        method: String::from_str(alloc, level.name())?,
        args,
    })
}

// The context as the source of an entry, with its realm.
fn source(alloc: Global, context: &Context) -> Result<Source, AllocError>
    ensures { IfOk result (λ s. ⟦<Source as Shape>⟧.shape.tree_of s
        ≡ mapped ("context" being id_tree IdKind.Context (row_of context.now).number and "realm" being id_tree IdKind.Realm (row_of context.now).realm and no_members)) }
{
    Ok(Source {
        realm: id_text(alloc, IdKind::Realm, 0, context.realm())?,
        context: Some(id_text(alloc, IdKind::Context, 0, context.number())?),
    })
}

// A text as a remote value of type `string`.
fn text_value(alloc: Global, line: &str) -> Result<RemoteValue, AllocError>
    ensures tree { IfOk result (λ v. ⟦<RemoteValue as Shape>⟧.shape.tree_of v
        ≡ mapped ("type" being word "string" and "value" being text line.now and no_members)) }
    ensures well { IfOk result ⟦<RemoteValue as Shape>⟧.shape.well }
{
    let text = String::from_str(alloc, line)?;
    Ok(RemoteValue::Plain(RemotePlain::Primitive(Primitive::String(text))))
}
