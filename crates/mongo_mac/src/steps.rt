ghost use Rattle.std.specs.Prelude.{◌≡◌, ℕ, ◌+◌, ◌<◌};

use std::marker::Model;
use std::sync::ledger::{Blank, Book, Ledger, Share};

/// How many steps of a derivation were taken: a clause sees the number. One step is one HMAC of
/// `Hi` (RFC 5802, section 2.2). It takes no bytes, nothing of it is done when the program runs,
/// and only the derivation itself counts on it.
///
/// `G` is the ledger that counts. Code that counts takes `steps: &mut Steps<G>` under `G: Ledger`
/// and says what it adds. A caller that counts nothing makes its own, by a function that takes a
/// `blank: Blank` and is called with `Brand` for `G` and `Blank::new(1)`; that call's proof picks
/// the ledger's members from the blank.
#[derive(Drop)]
pub struct Steps<G: Ledger> {
    book: Book<G>,
    share: Share<G>,
}

impl<G: Ledger> Model for Steps<G> {
    ghost Value = { ℕ };

    ghost view = { λ s. s.book.total };

    ghost invariant = { λ s. 0 < s.share.parts };
}

impl<G: Ledger> Steps<G> {
    /// A counter at no steps, of the ledger that `blank` opens.
    pub fn new(blank: Blank) -> Steps<G>
        requires name { blank.name ≡ G.name }
        requires parts { blank.parts ≡ G.parts }
        requires has_a_part { 0 < G.parts }
        ensures { result ≡ 0 }
    {
        let (book, share) = blank.open::<G>();
        Steps { book, share }
    }

    // Counts one step.
    pub(crate) fn tick(&mut self)
        ensures { self.new ≡ self.old + 1 }
    {
        self.book.add(&mut self.share, 1);
    }
}
