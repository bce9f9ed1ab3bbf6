//! The container that is served: what each call answers and leaves.

mod asking;
mod beside;
mod change;
mod container;
mod fitting;
mod inverse;
mod journaled;
mod memory;
mod reference;
mod restored;
mod undoable;
mod views;
mod walks;
