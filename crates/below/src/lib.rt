// A number below a limit that stands in its type, such as the number of a page or of a bit.
#![tactic(auto)]

ghost use Rattle.std.specs.Prelude.{◌≡◌, ◌<◌};

use std::marker::Model;

// In a clause it is the number itself.
#[derive(Clone, Copy, Debug, PartialEq, Eq)]
pub struct Below<const LIMIT: usize> {
    number: usize,
}

impl<const LIMIT: usize> Model for Below<LIMIT> {
    ghost use Rattle.std.specs.Prelude.{ℕ, ◌<◌};

    ghost Value = { ℕ };

    ghost view = { λ n. n.number };

    ghost invariant = { λ n. n.number < LIMIT };

    ghost inverse = { λ n. record { number = n } };
}

impl<const LIMIT: usize> Below<LIMIT> {
    pub fn new(number: usize) -> Self
        requires { number < LIMIT }
        ensures { result ≡ number }
    {
        Below { number }
    }

    pub fn number(self) -> usize
        ensures value { result ≡ self.entry }
        ensures within { result < LIMIT }
    {
        self.number
    }
}
