//! What a proxy awaits between two frames.

ghost use Rattle.std.specs.Prelude.{◌≡◌};
ghost use Rattle.mongo_proxy.specs.RelayedFrames.{responds_to};

/// A command that was sent on, by its ids.
#[derive(Clone, Copy, Debug, PartialEq, Eq)]
pub struct Asked {
    /// The id that the client gave it.
    pub original_id: i32,
    /// The id that it was sent on under.
    pub drawn_id: i32,
}

impl Asked {
    /// What a reply responds to, as the client knows it: the command's own id in place of the drawn one.
    pub fn responds_to(self, response_to: i32) -> i32
        ensures { result ≡ responds_to self response_to }
    {
        if response_to == self.drawn_id {
            self.original_id
        } else {
            response_to
        }
    }
}

/// The next frame to be taken.
#[derive(Clone, Copy, Debug, PartialEq, Eq)]
pub enum Awaited {
    /// A command from the client.
    Command,
    /// A reply from the server to this command.
    Reply(Asked),
}
