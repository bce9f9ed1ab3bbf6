//! The program by its words, failing readers and writers, and connections over sockets.

mod devices;
mod faults;
mod host;
mod listener;
mod program;
mod replies;
mod secret;
mod serving;
