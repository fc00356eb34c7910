//! Lists that stand apart from what has them.
ghost use Rattle.std.specs.Prelude.{◌≡◌, IfOk};

use hx_lists::Seq;
use std::alloc::{AllocError, Global};
use std::marker::Model;

/// A list behind a pointer, so that what has one among other variants stays small. Contracts see
/// its items.
#[derive(Drop)]
pub struct Apart<T> {
    list: Box<Seq<T>>,
}

impl<T> Model for Apart<T> {
    ghost use Rattle.std.specs.Prelude.{List};

    ghost Value = { List T };

    ghost view = { λ a. a.list.value };
}

impl<T: Drop> Apart<T> {
    /// A list, put apart.
    pub fn new(alloc: Global, list: Seq<T>) -> Result<Apart<T>, AllocError>
        ensures { IfOk result (λ apart. apart ≡ list) }
    {
        Ok(Apart {
            list: Box::new(alloc, list)?,
        })
    }

    /// The items.
    pub fn as_slice(&self) -> &[T]
        ensures { result.now ≡ self.now }
    {
        self.list.as_slice()
    }
}
