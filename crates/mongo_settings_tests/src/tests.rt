mod connecting;
mod reading;
mod reporting;
