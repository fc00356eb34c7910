//! How parts of a description are read, or their first fault is found: objects, arrays, numbers,
//! texts, names and state models.
#![tactic(auto)]

mod arrays;
mod faults;
mod forms;
mod models;
mod objects;
mod states;
mod tables;
mod transitions;
mod values;

pub use arrays::{array, array_up_to, read_all};
pub use faults::{DescFault, DescKind, DescRefusal, Path, fault};
pub use forms::{Form, ItemForm, Name, NewName, Number, SmallNumber};
pub use models::{built_in, read_models};
pub use objects::Object;
pub use states::place_after;
pub use tables::ModelTable;
pub use values::{new_name, number, place, text, whole};
