//! Alias cases of a procedure: the ways in which the pointers that it is entered with can have objects in common.
#![tactic(auto)]

mod allowed;
mod blocks;
mod calls;
mod closed;
mod code;
mod codes;
mod entities;
mod fixpoint;
mod growth;
mod listing;
mod named;
mod numbers;
mod outcomes;
mod path;
mod picks;
mod places;
mod plan;
mod scope;
mod search;
mod sets;
mod setting;
mod status;

pub use closed::{has_room, targets_closed};
pub use code::Code;
pub use codes::{Case, CaseError, Targets};
pub use entities::Class;
pub use fixpoint::targets;
pub use listing::cases;
pub use path::{Path, Reading, is_before, is_term_before, path_of, reading_of};
pub use status::{ReadCodes, Status, code_of, has_object, status_of, sum_status};
