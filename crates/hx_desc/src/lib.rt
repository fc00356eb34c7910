//! Descriptions of a cluster: a text of JSON, read as what it says or as the first fault in it.
#![tactic(auto)]

mod demo;
mod each_part;
mod failures;
mod ideals;
mod instances;
mod limits;
mod lists;
mod maps;
mod reading;
mod resources;
mod rules;
mod tables;

pub use hx_forms::{DescFault, DescKind, DescRefusal, Path};
pub use reading::{is_demo, read};
