//! Worked rows over the forms of the database, lines cut short or with something wrong, and devices that fail.

mod beside;
mod cuts;
mod damage;
mod databases;
mod devices;
mod forms;
mod hubs;
mod long_rows;
mod random;
mod rows;
mod script;
mod streams;
mod worked;
