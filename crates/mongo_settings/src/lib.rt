//! Settings of a login that is rehearsed, and the report of it.
//!
//! Settings are one JSON object ([`settings_of`]). [`Logins::read`] reads the text of one such object, or of a batch of them.
//! [`Logins::rehearse`] runs an establishment over the reply bytes that each hands in and writes its report, line by line; those of
//! a batch share one cache of salted passwords. `specs/Report.antt` says which lines a report has, `specs/Rehearsal.antt` which
//! report settings have: exactly one, and `specs/Batch.antt` which a batch has.
//! Over another link than one in memory, [`read_settings`] reads the settings of one login, [`prepare`] makes it ready, [`connect`]
//! makes its connection and [`report_outcome`] makes the report. Want of memory may come in place of any answer that is a `Result`.
//! [`write_report`] writes a report out, and [`Status`] is how the programs end that do so.
#![tactic(auto)]

mod batch;
mod input_error;
mod output;
mod rehearsal;
mod report;
mod settings;
mod status;
mod task;

pub use input_error::InputError;
pub use output::write_report;
pub use rehearsal::{PreparedLogin, Rehearsal, RehearsalStatus, connect, prepare, report_outcome};
pub use report::line::{begin_line, end_line, push_hex, push_number};
pub use settings::{MAXIMUM_SETTINGS_LENGTH, Settings, SettingsError, read_settings, settings_of};
pub use status::Status;
pub use task::{Logins, Task};
