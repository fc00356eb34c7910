//! A handler that has to be spent.
ghost use Rattle.std.specs.Prelude.{◌≡◌};

use std::marker::Model;

/// A value, such as a handler, that can't be dropped: it has to be taken out. Contracts see that
/// value.
pub struct Kept<H> {
    handler: H,
}

impl<H> Model for Kept<H> {
    ghost Value = { H };

    ghost view = { λ k. k.handler };
}

impl<H> Kept<H> {
    /// Keeps a handler.
    pub fn new(handler: H) -> Kept<H>
        ensures { result ≡ handler }
    {
        Kept { handler }
    }

    /// The handler.
    pub fn into_handler(self) -> H
        ensures { result ≡ self }
    {
        let Kept { handler } = self;
        handler
    }
}
