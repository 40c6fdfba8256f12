//! Stack traces.
ghost use Rattle.std.specs.Prelude.{refl, []};
ghost use Rattle.bidi_shape.specs.Table.{map_shape};
ghost use Rattle.bidi_shape.specs.Name.{stack_frame, stack_trace};
ghost use Rattle.bidi_shape.specs.Term.{rule as named};

use bidi_shape::{
    Closed, End, Fields, One, Parsed, Required, Shape, ShapeFault, outline_fields, read_fields,
};
use bidi_tree::{JsUint, Outline};
use std::alloc::{AllocError, Global};

/// A place in a script, and the function that it stands in.
///
/// `{ columnNumber: js-uint, functionName: text, lineNumber: js-uint, url: text }`
///
/// After WebDriver BiDi, "The script.StackFrame Type".
#[derive(Drop)]
pub struct StackFrame {
    pub column_number: JsUint,
    pub function_name: String,
    pub line_number: JsUint,
    pub url: String,
}

impl StackFrame {
    // In the order of the rule.
    const NAMES: &'static [&'static str] = &["columnNumber", "functionName", "lineNumber", "url"];
}

impl Shape for StackFrame {
    ghost shape = { map_shape (named stack_frame) ⟦<Required<JsUint, Required<String, Required<JsUint, Required<String, Closed>>>> as Fields>⟧.table []
        (λ v. (v.column_number, (v.function_name, (v.line_number, (v.url, record {}))))) refl refl };

    fn from_tree<S: Parsed>(alloc: Global, tree: &S) -> Result<StackFrame, ShapeFault> {
        let Required(
            column_number,
            Required(function_name, Required(line_number, Required(url, Closed))),
        ) = read_fields(alloc, tree, Self::NAMES, &[])?;
        Ok(StackFrame {
            column_number,
            function_name,
            line_number,
            url,
        })
    }

    fn outline<'a>(&'a self, alloc: Global) -> Result<Outline<'a>, AllocError> {
        let members = One(
            &self.column_number,
            One(
                &self.function_name,
                One(&self.line_number, One(&self.url, End)),
            ),
        );
        outline_fields(alloc, &members, Self::NAMES, &[])
    }
}

/// The calls that led to an error.
///
/// `{ callFrames: [*StackFrame] }`
///
/// After WebDriver BiDi, "The script.StackTrace Type".
#[derive(Drop)]
pub struct StackTrace {
    pub call_frames: Vec<StackFrame>,
}

impl StackTrace {
    // In the order of the rule.
    const NAMES: &'static [&'static str] = &["callFrames"];
}

impl Shape for StackTrace {
    ghost shape = { map_shape (named stack_trace) ⟦<Required<Vec<StackFrame>, Closed> as Fields>⟧.table [] (λ v. (v.call_frames, record {})) refl refl };

    fn from_tree<S: Parsed>(alloc: Global, tree: &S) -> Result<StackTrace, ShapeFault> {
        let Required(call_frames, Closed) = read_fields(alloc, tree, Self::NAMES, &[])?;
        Ok(StackTrace { call_frames })
    }

    fn outline<'a>(&'a self, alloc: Global) -> Result<Outline<'a>, AllocError> {
        let members = One(&self.call_frames, End);
        outline_fields(alloc, &members, Self::NAMES, &[])
    }
}
