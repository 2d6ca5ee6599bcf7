// A line's verb and numbers as a call with its arguments.

#![tactic(auto)]

pub mod groups;
pub mod list_fields;
pub mod lists_beside;
pub mod read;
pub mod rows;
pub mod script_call;
pub mod sessions;
