//! Tables of what is read and written, and of random numbers.

mod asking;
mod bound;
mod lines;
mod random;
mod replies;
mod same;
mod schemas;
