mod inserts;
mod job;
mod rows;
mod seen;
