//! Public calls, one by one, on the database that is served and on the one that tests ask beside it.

mod accounts;
mod counting;
mod library;
mod look_ups;
mod restored;
mod serving;
mod sessions;
