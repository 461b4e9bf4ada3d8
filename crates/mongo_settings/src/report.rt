//! The text of the report: lines, each appended to one growing output.

pub mod description;
pub mod line;
pub mod names;
pub mod outcome;
pub mod refusal;
pub mod sent;
