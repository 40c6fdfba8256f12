//! Events that follow others, with places for what the event before them says.
ghost use Rattle.std.specs.Prelude.{◌≡◌, ◌++◌, IfOk, OnOk, option_map, string_bytes};
ghost use Rattle.json.specs.Tree.{HasNumbers, json_tokens, items_tokens, members_tokens, ItemsHaveNumbers, MembersHaveNumbers};
ghost use Rattle.json.specs.Value.{value_view};
ghost use Rattle.bidi_rows.specs.Part.{part_of, parts_of, members_of};
ghost use Rattle.bidi_rows.specs.Rows.{compact};
ghost use Rattle.bidi_rows.specs.Filling.{filled, filled_items, filled_members, filled_text, or_null, text_for, filling_of, template_of, filling_in};

use crate::looking::string_at;
use crate::part::Part;
use crate::template::Template;
use json::{Value, Writer};
use std::alloc::{AllocError, Global};

/// What stands in the places: what the event before says of its context, its navigation and its URL. What it does not say is null.
#[derive(Clone, Copy)]
pub struct Filling<'a> {
    /// The context: `context` in its params, or else `source.context`.
    pub context: Option<&'a str>,
    /// The navigation.
    pub navigation: Option<&'a str>,
    /// The URL.
    pub url: Option<&'a str>,
}

/// What the params of an event put in the places. Takes no memory.
pub fn filling_of<'a>(params: &Value<'a>) -> Filling<'a>
    // The result has the strings of the definition.
    ensures { filling_in result ≡ filling_of (value_view params.now) }
{
    Filling {
        context: crate::events::context_named(params),
        navigation: string_at(params, "navigation"),
        url: string_at(params, "url"),
    }
}

impl Template {
    /// The message of the event with its places filled.
    ///
    /// # Errors
    /// No memory: an allocation failed.
    pub fn fill(&self, alloc: Global, filling: Filling<'_>) -> Result<String, AllocError>
        // After an Ok, the text is that of the event with its params filled.
        ensures { IfOk result (λ s. string_bytes s ≡ filled_text (filling_in filling.entry) (template_of self.now)) }
    {
        let method = self.method.as_str();
        let params = filled_params(alloc, &self.params, filling)?;
        format!(in alloc; "{{\"method\":{method},\"params\":{params},\"type\":\"event\"}}")
    }
}

// The compact JSON text of params with their places filled.
fn filled_params(alloc: Global, params: &Part, filling: Filling<'_>) -> Result<String, AllocError>
    requires { HasNumbers (part_of params.now) }
    ensures { IfOk result (λ s. string_bytes s ≡ compact (filled (filling_in filling.entry) (part_of params.now))) }
{
    let mut out = Writer::new(Vec::new(alloc));
    write(&mut out, params, filling)?;
    Ok(unsafe { String::from_utf8_unchecked(out.into_inner()) })
}

#[cycle(write)]
fn write(out: &mut Writer, part: &Part, filling: Filling<'_>) -> Result<(), AllocError>
    requires { HasNumbers (part_of part.now) }
    ensures before { OnOk result (out.new.before ≡ out.old.before) }
    ensures tokens { OnOk result (out.new.tokens ≡ out.old.tokens ++ json_tokens (filled (filling_in filling.entry) (part_of part.now))) }
{
    match part {
        Part::Null => out.null(),
        Part::Bool(b) => out.boolean(*b),
        Part::Number(text) => out.number(text.as_str()),
        Part::String(text) => write_string(out, text.as_str(), filling),
        Part::Array(parts) => {
            out.begin_array()?;
            write_items(out, parts, filling)
        }
        Part::Object(parts) => {
            out.begin_object()?;
            write_members(out, parts, filling)
        }
    }
}

#[cycle(write)]
fn write_items(out: &mut Writer, parts: &Vec<Part>, filling: Filling<'_>) -> Result<(), AllocError>
    requires { ItemsHaveNumbers (parts_of parts.now.items) }
    ensures before { OnOk result (out.new.before ≡ out.old.before) }
    ensures tokens { OnOk result (out.new.tokens
        ≡ out.old.tokens ++ items_tokens (filled_items (filling_in filling.entry) (parts_of parts.now.items))) }
{
    for part in parts {
        write(out, part, filling)?;
    }
    out.end_array()
}

#[cycle(write)]
fn write_members(
    out: &mut Writer,
    parts: &Vec<(String, Part)>,
    filling: Filling<'_>,
) -> Result<(), AllocError>
    requires { MembersHaveNumbers (members_of parts.now.items) }
    ensures before { OnOk result (out.new.before ≡ out.old.before) }
    ensures tokens { OnOk result (out.new.tokens
        ≡ out.old.tokens ++ members_tokens (filled_members (filling_in filling.entry) (members_of parts.now.items))) }
{
    for part in parts {
        out.key(part.0.as_str())?;
        write(out, &part.1, filling)?;
    }
    out.end_object()
}

// A string, or what stands in its place.
fn write_string(out: &mut Writer, text: &str, filling: Filling<'_>) -> Result<(), AllocError>
    ensures before { OnOk result (out.new.before ≡ out.old.before) }
    ensures tokens { OnOk result (out.new.tokens ≡ out.old.tokens ++ json_tokens (text_for (filling_in filling.entry) text.now)) }
{
    if text == "$context" {
        return write_or_null(out, filling.context);
    }
    if text == "$navigation" {
        return write_or_null(out, filling.navigation);
    }
    if text == "$url" {
        return write_or_null(out, filling.url);
    }
    out.string(text)
}

fn write_or_null(out: &mut Writer, text: Option<&str>) -> Result<(), AllocError>
    ensures before { OnOk result (out.new.before ≡ out.old.before) }
    ensures tokens { OnOk result (out.new.tokens ≡ out.old.tokens ++ json_tokens (or_null (option_map (λ s. s.now) text.entry))) }
{
    match text {
        Some(text) => out.string(text),
        None => out.null(),
    }
}
