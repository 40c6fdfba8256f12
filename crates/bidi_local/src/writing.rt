//! The text of a command that is sent.
ghost use Rattle.std.specs.Prelude.{◌≡◌, Some, IfOk, string_bytes};
ghost use Rattle.bidi_tree.specs.Text.{tree_of, compact_text};
ghost use Rattle.bidi_shape.specs.Name.{command};
ghost use Rattle.bidi_shape.specs.Term.{rule};
ghost use Rattle.bidi_shape.specs.Fits.{Fits};
ghost use Rattle.bidi_local.specs.Pending.{command_tree};
ghost use Rattle.bidi_messages.specs.Payloads.{CommandIsWell, command_method, params_tree};

use bidi_messages::{Command, CommandData, Method, Payload, text_of};
use bidi_shape::Ext;
use bidi_tree::JsUint;
use std::alloc::{AllocError, Global};

/// Makes the text of a command with this id, and returns its method too. The command is used up.
///
/// # Errors
/// No memory: an allocation failed.
pub(crate) fn written(
    alloc: Global,
    id: JsUint,
    data: CommandData,
) -> Result<(Method, String), AllocError>
    requires { CommandIsWell «data» }
    ensures method { IfOk result (λ w. w.0 ≡ command_method «data») }
    ensures text { IfOk result (λ w. string_bytes w.1
        ≡ compact_text (command_tree id.value (command_method «data»)
        (params_tree «data»))) }
    ensures fits { IfOk result (λ w. Fits (command_tree id.value (command_method «data»)
        (params_tree «data»)) (rule command)) }
    ensures reads_back { IfOk result (λ w. tree_of (string_bytes w.1)
        ≡ Some (command_tree id.value (command_method «data») (params_tree «data»))) }
{
    let method = data.method();
    let command = Command {
        id,
        data,
        ext: Ext::empty(alloc),
    };
    let text = text_of(alloc, &command)?;
    Ok((method, text))
}
