mod building;
mod comparing;
mod hostile;
mod plain_reader;
mod reading;
mod rows;
mod spelling;
