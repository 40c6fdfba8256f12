//! What an error of a script has.
use crate::stack_trace::StackTrace;
use bidi_shape::{
    Closed, End, Fields, One, Parsed, Required, Shape, ShapeFault, outline_fields, read_fields,
};
use bidi_tree::{JsUint, Outline};
use bidi_values::RemoteValue;
use std::alloc::{AllocError, Global};

/// The value that a script threw, and where, with an account in words. Lines and columns are counted from 0.
///
/// `{ columnNumber: js-uint, exception: RemoteValue, lineNumber: js-uint, stackTrace: StackTrace, text: text }`
///
/// After WebDriver BiDi, "The script.ExceptionDetails Type".
#[derive(Drop)]
pub struct ExceptionDetails {
    pub column_number: JsUint,
    pub exception: RemoteValue,
    pub line_number: JsUint,
    pub stack_trace: StackTrace,
    pub text: String,
}

impl ExceptionDetails {
    // In the order of the rule.
    const NAMES: &'static [&'static str] = &[
        "columnNumber",
        "exception",
        "lineNumber",
        "stackTrace",
        "text",
    ];
}

type Parts = Required<
    JsUint,
    Required<RemoteValue, Required<JsUint, Required<StackTrace, Required<String, Closed>>>>,
>;

impl Shape for ExceptionDetails {
    ghost use Rattle.std.specs.Prelude.{refl, []};
    ghost use Rattle.bidi_shape.specs.Table.{map_shape};
    ghost use Rattle.bidi_shape.specs.Name.{exception_details};
    ghost use Rattle.bidi_shape.specs.Term.{rule as named};

    ghost shape = { map_shape (named exception_details) ⟦<Parts as Fields>⟧.table []
        (λ v. (v.column_number, (v.exception, (v.line_number, (v.stack_trace, (v.text, record {})))))) refl refl };

    fn from_tree<S: Parsed>(alloc: Global, tree: &S) -> Result<ExceptionDetails, ShapeFault> {
        let Required(
            column_number,
            Required(
                exception,
                Required(line_number, Required(stack_trace, Required(text, Closed))),
            ),
        ) = read_fields(alloc, tree, Self::NAMES, &[])?;
        Ok(ExceptionDetails {
            column_number,
            exception,
            line_number,
            stack_trace,
            text,
        })
    }

    fn outline<'a>(&'a self, alloc: Global) -> Result<Outline<'a>, AllocError> {
        let members = One(
            &self.column_number,
            One(
                &self.exception,
                One(
                    &self.line_number,
                    One(&self.stack_trace, One(&self.text, End)),
                ),
            ),
        );
        outline_fields(alloc, &members, Self::NAMES, &[])
    }
}
