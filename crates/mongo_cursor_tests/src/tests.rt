mod calls;
mod cursors;
mod job;
mod rows;
