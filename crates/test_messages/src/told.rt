//! What a result or an event tells, as a text.
use bidi_messages::{EventData, Named, Payload, ResultData};
use bidi_tree::Tree;
use std::alloc::{AllocError, Global};
use std::fmt::Debug;
use std::test::Fail;
use testing::texts::written;

/// What has a name and a tree.
pub(crate) trait Told: Drop {
    fn name(&self) -> &'static str;

    fn tree(&self, alloc: Global) -> Result<Tree, AllocError>;
}

impl Told for ResultData {
    fn name(&self) -> &'static str {
        self.method().name()
    }

    fn tree(&self, alloc: Global) -> Result<Tree, AllocError> {
        self.tree_of(alloc)
    }
}

impl Told for EventData {
    fn name(&self) -> &'static str {
        self.event().name()
    }

    fn tree(&self, alloc: Global) -> Result<Tree, AllocError> {
        self.tree_of(alloc)
    }
}

/// The name, and the compact text of the tree. What is told is used up here, where its variants are not visible.
pub(crate) fn tell<T: Told>(alloc: Global, told: T) -> Result<String, Fail> {
    let text = written(alloc, told.tree(alloc)?)?;
    Ok(format!(in alloc; "{name} {text}", name = told.name())?)
}

/// The same of what was read, or the fault.
pub(crate) fn tell_read<T: Told, E: Debug + Drop>(
    alloc: Global,
    read: Result<T, E>,
) -> Result<String, Fail> {
    match read {
        Ok(told) => tell(alloc, told),
        Err(fault) => Ok(format!(in alloc; "{fault:?}")?),
    }
}
