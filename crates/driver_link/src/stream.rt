//! Input and output in pieces, with a count of faults.
ghost use Rattle.std.specs.Prelude.{◌≡◌, ℕ, List, Option, ◌<◌, ◌≤◌, length, take, IfOk, OnErr};
ghost use Rattle.driver_link.specs.Streams.{Consumes, IsAtEnd, Appends};
ghost use Rattle.driver_link.specs.Faults.{FailsByCount};

/// Reading or writing failed. It says no more: the count of faults rose.
#[derive(Clone, Copy, Debug, PartialEq, Eq)]
pub struct Failed;

/// Input in pieces.
pub trait Source {
    // The bytes that are left to read, where the source tells them.
    ghost left: { Self → Option (List ℕ) };

    // How many reads failed. Nothing else changes the count, which stands still at the greatest u64.
    ghost faults: { Self → ℕ };

    /// Reads some bytes into the front of a slice, and answers how many. 0 for a slice that is not
    /// empty is the end of the input.
    fn read(&mut self, into: &mut [u8]) -> Result<usize, Failed>
        ensures within { IfOk result (λ count. count ≤ length into.old) }
        ensures taken { IfOk result
            (λ count. Consumes (left self.old) (left self.new) (take count into.new)) }
        ensures end { IfOk result (λ count. count ≡ 0 → 0 < length into.old → IsAtEnd (left self.old)) }
        ensures err { OnErr result (left self.new ≡ left self.old) }
        ensures cause { FailsByCount (faults self.old) (faults self.new) result };
}

/// Output in pieces.
pub trait Sink {
    // The bytes that were written, where the sink tells them.
    ghost contents: { Self → Option (List ℕ) };

    // How many writes failed. Nothing else changes the count, which stands still at the greatest u64.
    ghost faults: { Self → ℕ };

    /// Takes a front of a slice, and answers how long it is, which is not 0 for a slice that is not
    /// empty.
    fn write(&mut self, bytes: &[u8]) -> Result<usize, Failed>
        ensures within { IfOk result (λ count. count ≤ length bytes.now) }
        ensures some { IfOk result (λ count. 0 < length bytes.now → 0 < count) }
        ensures taken { IfOk result
            (λ count. Appends (contents self.old) (contents self.new) (take count bytes.now)) }
        ensures err { OnErr result (contents self.new ≡ contents self.old) }
        ensures cause { FailsByCount (faults self.old) (faults self.new) result };
}
