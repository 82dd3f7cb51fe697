//! Machines of what tells of a component's code: its commits, and the patches that were put upon it. Each reads one element
//! event by event.
#![tactic(auto)]

mod code;
mod patches;

pub use cdx_code::Commits;
pub use cdx_patch::Patches;
pub use code::CommitsMachine;
pub use patches::PatchesMachine;
