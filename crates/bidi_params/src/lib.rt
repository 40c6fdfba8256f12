//! The parameters and results of the commands, the parameters of the events, and the error codes.
//!
//! # Parts
//! - The `session`, `browser` and `browsingContext` modules of the protocol: a file or a folder each. The `script` and
//!   `log` modules are in `bidi_scripts`.
//! - [`EmptyParams`] and [`EmptyResult`], of the commands that have none of their own.
//! - [`ErrorCode`], why a command was refused.
//!
//! All types stand at the root, except [`session::NewParameters`] and [`session::NewResult`]: their names are clear only
//! beside the name of their module.
//!
//! # Values of the types
//! Each type is a [`Shape`](bidi_shape::Shape): its values are the trees that fit its rule. A type with further members
//! has a constructor, which refuses the parts that are no value of it.
#![tactic(auto)]

mod base;
mod browser;
mod browsing_context;
mod error_code;
pub mod session;

pub use base::{EmptyParams, EmptyResult};
pub use browser::{GetUserContextsResult, RemoveUserContextParameters, UserContextInfo};
pub use browsing_context::{
    ActivateParameters, CloseParameters, ContextType, CreateParameters, CreateResult,
    GetTreeParameters, GetTreeResult, Info, NavigateParameters, NavigateResult, NavigationInfo,
    ReloadParameters, TraverseHistoryParameters, Wait,
};
pub use error_code::ErrorCode;
pub use session::{
    Capabilities, CapabilitiesRequest, CapabilityRequest, StatusResult, SubscribeParameters,
    SubscribeResult, UnsubscribeByEvents, UnsubscribeById, UnsubscribeParameters,
};
