//! The session module.
mod capabilities;
mod status;
mod subscribe;

pub use capabilities::{
    Capabilities, CapabilitiesRequest, CapabilityRequest, NewParameters, NewResult,
};
pub use status::StatusResult;
pub use subscribe::{
    SubscribeParameters, SubscribeResult, UnsubscribeByEvents, UnsubscribeById,
    UnsubscribeParameters,
};
