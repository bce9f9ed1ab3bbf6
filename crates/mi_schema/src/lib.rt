//! How schemas and catalogs are read from TOML documents: the document's shape, then the checks in their order, then the making.
//! What a schema is stands in `mi_catalog`, whose types are handed on.
#![tactic(auto)]

mod build;
mod checks;
mod document;
mod draft;
mod fault;
mod read;
mod text;

pub use fault::SchemaFault;
pub use mi_catalog::{Catalog, Column, Index, IndexKind, Parts, Schema, built_in};
pub use read::{read_catalog, read_schema};
pub use text::built_in_text;
