//! The interface of a weight kind.
ghost use Rattle.std.specs.Prelude.{◌≡◌, ℕ, List, length, None, Option, ◌≢◌};

use crate::order::Ordered;

/// A weight kind: an order with its laws, and how a line of text spells one of its weights.
pub trait Weight: Ordered {
    /// How many numbers one weight takes in a line.
    const NUMBERS: usize;

    /// The weight that these numbers of a line make, if any.
    ghost made: { List ℕ → Option Self };

    /// The constant, for clauses.
    ghost NUMBERS: { ℕ };

    /// The weight that these numbers make, of which there are as many as the kind takes.
    fn from_numbers(xs: &[u32]) -> Option<Self>
        requires { length xs.now ≡ NUMBERS }
        ensures { result ≡ made xs.now };

    ghost counted: { (xs : List ℕ) → (length xs ≢ NUMBERS) → made xs ≡ None };
}
