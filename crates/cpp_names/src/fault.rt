// Why a name was not declared.

use crate::entity::Entity;
use thiserror::Error;

/// Why a name was not declared.
#[derive(Clone, Copy, Debug, PartialEq, Eq, Error)]
pub enum NameFault {
    /// The innermost scope has the name already.
    #[error("the name is declared twice in one scope")]
    Twice {
        /// What the name stands for in that scope.
        old: Entity,
    },
    /// Memory is missing.
    #[error("out of memory")]
    Memory,
}
