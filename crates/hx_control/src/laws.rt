//! Laws of what controllers read and send, whatever stands between the reads of a pass and its
//! dispatch. Each is proved over the definitions alone, in a crate of its own.

pub use hx_lawful::{
    lawful_dispatches_are_never_refused, lawful_reads_cover_the_board,
    what_holds_of_lawful_histories,
};
