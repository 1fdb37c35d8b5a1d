//! A count of steps, which takes no bytes and no time.
ghost use Rattle.std.specs.Prelude.{◌≡◌, ◌+◌, ◌<◌};

use std::marker::Model;
use std::sync::ledger::{Blank, Book, Ledger, Share};

/// How many steps were taken. Only `tick` changes it.
#[derive(Drop)]
pub struct Steps<Q: Ledger> {
    book: Book<Q>,
    share: Share<Q>,
}

impl<Q: Ledger> Model for Steps<Q> {
    ghost use Rattle.std.specs.Prelude.{◌<◌, ℕ};

    ghost Value = { ℕ };

    ghost view = { λ steps. steps.book.total };

    ghost invariant = { λ steps. 0 < steps.share.parts };
}

impl<Q: Ledger> Steps<Q> {
    /// No step, over a new ledger. A caller that counts nothing makes it from `Blank::new(1)`.
    pub fn new(blank: Blank) -> Steps<Q>
        requires name { blank.name ≡ Q.name }
        requires parts { blank.parts ≡ Q.parts }
        requires some { 0 < blank.parts }
        ensures { result ≡ 0 }
    {
        let (book, share) = blank.open();
        Steps { book, share }
    }

    /// Takes one step.
    pub fn tick(&mut self)
        ensures { self.new ≡ self.old + 1 }
    {
        self.book.add(&mut self.share, 1);
    }
}
