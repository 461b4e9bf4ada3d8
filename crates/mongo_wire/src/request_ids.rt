ghost use Rattle.std.specs.Prelude.{◌≡◌, ℤ};
ghost use Rattle.mongo_wire.specs.Bytes.{next_id};

use std::marker::Model;

/// Request ids, counted up. Contracts see the next one.
#[derive(Debug, Drop)]
pub struct RequestIds {
    next: i32,
}

impl Model for RequestIds {
    ghost Value = { ℤ };

    ghost view = { λ ids. ids.next };
}

impl RequestIds {
    /// Ids from `first` on.
    pub fn new(first: i32) -> RequestIds
        ensures { result ≡ first }
    {
        RequestIds { next: first }
    }

    /// Takes the next id. After 2147483647 comes -2147483648.
    pub fn draw(&mut self) -> i32
        ensures drawn { result ≡ self.old }
        ensures next { self.new ≡ next_id self.old }
    {
        let id = self.next;
        self.next = id.wrapping_add(1);
        id
    }

    /// The id that the next `draw` takes.
    pub fn next(&self) -> i32
        ensures { result ≡ self.now }
    {
        self.next
    }
}
