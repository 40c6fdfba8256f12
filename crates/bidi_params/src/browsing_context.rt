//! The browsingContext module.
mod create;
mod get_tree;
mod info;
mod navigate;

pub use create::{
    ActivateParameters, CloseParameters, ContextType, CreateParameters, CreateResult,
};
pub use get_tree::{GetTreeParameters, GetTreeResult};
pub use info::Info;
pub use navigate::{
    NavigateParameters, NavigateResult, NavigationInfo, ReloadParameters,
    TraverseHistoryParameters, Wait,
};
