//! What the script and log modules send and receive: parameters, results, realms, exceptions, log entries.
//!
//! # Parts
//! - Commands: [`EvaluateParameters`], [`CallFunctionParameters`] and [`DisownParameters`], each with a [`Target`], and
//!   [`GetRealmsParameters`].
//! - Results: [`EvaluateResult`], which is a success or an exception with its [`ExceptionDetails`] and [`StackTrace`], and
//!   [`GetRealmsResult`], which lists a [`RealmInfo`] for each realm.
//! - Events: [`LogEntry`], [`RealmInfo`] and [`RealmDestroyedParameters`].
//! - [`TableRow`] is no part of the protocol. It is a row of a play's table, and says what a script does.
//!
//! # Values of the types
//! Each type is a [`Shape`](bidi_shape::Shape): its values are the trees that fit its rule. A value of a script in them is
//! a [`LocalValue`](bidi_values::LocalValue) if a client sends it, and a [`RemoteValue`](bidi_values::RemoteValue) if the
//! remote end does. A type with further members has a constructor, which refuses the parts that are no value of it.
#![tactic(auto)]

mod call_function;
mod evaluate;
mod evaluate_result;
mod exception;
mod log_entry;
mod realms;
mod serialization_options;
mod stack_trace;
mod table_row;
mod target;

pub use call_function::{CallFunctionParameters, DisownParameters};
pub use evaluate::{EvaluateParameters, Ownership};
pub use evaluate_result::{EvaluateException, EvaluateResult, EvaluateSuccess};
pub use exception::ExceptionDetails;
pub use log_entry::{
    BaseLogEntry, ConsoleEntry, GenericLogEntry, JavascriptEntry, Level, LogEntry, Source,
};
pub use realms::{
    GetRealmsParameters, GetRealmsResult, RealmDestroyedParameters, RealmInfo, RealmType,
};
pub use serialization_options::SerializationOptions;
pub use stack_trace::{StackFrame, StackTrace};
pub use table_row::{ArgumentRow, ReturnsRow, TableRow, ThrowsRow};
pub use target::{ContextTarget, RealmTarget, Target};
