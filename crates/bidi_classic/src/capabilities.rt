//! The capabilities in the reply to a call for a session.
ghost use Rattle.std.specs.Prelude.{◌≡◌, ◌++◌, IfOk, OnOk, string_bytes};
ghost use Rattle.json.specs.Tree.{HasNumbers, MembersHaveNumbers, members_tokens};
ghost use Rattle.json.specs.Value.{members_view, value_view};
ghost use Rattle.bidi_rows.specs.Rows.{compact};
ghost use Rattle.bidi_classic.specs.Replies.{address_name, other_tokens, with_url, without};

use bidi_rows::compact;
use json::{Value, Writer};
use std::alloc::{AllocError, Global};

/// The name of the property with the address of a session's WebSocket.
const ADDRESS_NAME: &str = "webSocketUrl";

/// The JSON text of capabilities with the address of the session's WebSocket in front, in place of any that they have.
pub(crate) fn with_url(
    alloc: Global,
    capabilities: &Value<'_>,
    url: &str,
) -> Result<String, AllocError>
    requires { HasNumbers (value_view capabilities.now) }
    ensures { IfOk result (λ text. string_bytes text ≡ compact (with_url url.now (value_view capabilities.now))) }
{
    let Value::Object(members) = capabilities else {
        return compact(alloc, capabilities);
    };
    let mut out = Writer::new(Vec::new(alloc));
    out.begin_object()?;
    out.key(ADDRESS_NAME)?;
    out.string(url)?;
    write_others(&mut out, members)?;
    Ok(unsafe { String::from_utf8_unchecked(out.into_inner()) })
}

// Writes the properties without the address, and the end of their object.
fn write_others(out: &mut Writer, members: &Vec<(&str, Value<'_>)>) -> Result<(), AllocError>
    requires { MembersHaveNumbers (members_view members.now.items) }
    ensures ok { OnOk result (out.new.tokens ≡ out.old.tokens ++ members_tokens (without address_name (members_view members.now.items))) }
    ensures before { out.new.before ≡ out.old.before }
{
    for member in members {
        write_other(out, member.0, &member.1)?;
    }
    out.end_object()
}

// Writes a property, unless it is an address.
fn write_other(out: &mut Writer, name: &str, value: &Value<'_>) -> Result<(), AllocError>
    requires { HasNumbers (value_view value.now) }
    ensures ok { OnOk result (out.new.tokens ≡ out.old.tokens ++ other_tokens name.now (value_view value.now)) }
    ensures before { out.new.before ≡ out.old.before }
{
    if name == ADDRESS_NAME {
        return Ok(());
    }
    out.key(name)?;
    out.value(value)
}
