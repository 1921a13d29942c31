//! What stands behind lines.

ghost use Rattle.std.specs.Prelude.{◌≡◌, ◌≤◌, ℕ, List, length, Err, IfOk};
ghost use Rattle.json.specs.Json.{Json};
ghost use Rattle.gtp_serve.specs.Served.{OrStays, IsLineOf, HasAnswer};

use gtp_scenario::Fault;
use std::alloc::{AllocError, Global};

/// Something that starts by a first line, and answers each other line with one.
pub trait Server {
    /// It has started by this line.
    ghost Starts: { List ℕ → Self → Type 0 };

    /// This line starts nothing.
    ghost SaysNone: { List ℕ → Type 0 };

    /// What a line that is not too long is answered with, and how it goes on.
    ghost Does: { List ℕ → Self → Json → Self → Type 0 };

    /// What a line starts. `Wrong` if it starts nothing, `Memory` if an allocation was refused.
    fn start(alloc: Global, line: &[u8]) -> Result<Self, Fault>
    where
        Self: Sized,
        ensures starts { IfOk result (Starts line.now) }
        ensures none { result ≡ Err Fault.Wrong → SaysNone line.now };

    /// Answers a line of at most 1,048,576 octets: the line of the answer. The error is that an allocation was refused for it:
    /// then nothing has changed, or what the line asks was done.
    fn answer(&mut self, alloc: Global, line: &[u8]) -> Result<Vec<u8>, AllocError>
        requires { length line.now ≤ 1048576 }
        ensures answered { IfOk result (λ text. IsLineOf (OrStays (Does line.now)) self.old self.new text.items) }
        ensures done { HasAnswer (OrStays (Does line.now)) self.old self.new };
}
