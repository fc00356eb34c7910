//! Values that contracts alone read.

ghost use Rattle.std.specs.Prelude.{◌≡◌};
ghost use base.Fml.{ftrue};

use std::marker::{Model, PhantomData};

/// A value that contracts alone read. It has no bytes, and nothing that runs makes the value:
/// who makes one picks it in a proof.
pub struct Unread<T> {
    marker: PhantomData<T>,
    pub ghost value: { T },
}

impl<T> Model for Unread<T> {
    ghost also_owns = { λ _. ftrue };
}

impl<T> Drop for Unread<T> {
    fn drop(self) {
        let Self { marker: _ } = self;
    }
}

impl<T> Unread<T> {
    /// Any value. It may be made of what `of` refers to, which a pick of it can name.
    pub fn any<A>(of: &A) -> Unread<T>
        ghost v: { T }
        ensures { result.value ≡ v }
    {
        let _ = of;
        Unread {
            marker: PhantomData,
        }
    }
}
