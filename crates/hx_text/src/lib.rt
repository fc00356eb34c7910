//! Texts: pages that are printed piece by piece, the lines of an input, and how names and numbers
//! are spelt.
#![tactic(auto)]

mod line_ends;
mod line_table;
mod pages;
mod spellings;
mod writing;

pub use line_ends::{Input, cut, split_line, split_words};
pub use line_table::{Lines, TextFault, split_lines};
pub use pages::{Page, Piece};
pub use spellings::{is_name, read_u64};
