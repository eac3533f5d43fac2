//! The statements of a run that memory refused.
use pdl_machine::MOST_REFUSED;
use std::marker::Model;

/// The numbers of the statements that memory refused, in the order in which they came. It stands in
/// place and takes no memory.
#[derive(Drop)]
pub struct Refused {
    numbers: [u64; MOST_REFUSED],
    count: usize,
}

impl Model for Refused {
    ghost use Rattle.std.specs.Prelude.{ℕ, List, take, ◌≤◌};
    ghost use Rattle.pdl_machine.specs.declared.limits.TheConstants.{MOST_REFUSED};

    ghost Value = { List ℕ };

    ghost view = { λ refused. take refused.count refused.numbers };

    ghost invariant = { λ refused. refused.count ≤ MOST_REFUSED };
}

impl Refused {
    ghost use Rattle.std.specs.Prelude.{◌≡◌, ◌≤◌, [], ◌∷◌, ◌++◌, length, nat_lt, nat_le, if◌then◌else◌};
    ghost use Rattle.pdl_machine.specs.Run.{refused_limit};

    /// No statement.
    pub fn new() -> Refused
        ensures { result ≡ [] }
    {
        Refused {
            numbers: [0; MOST_REFUSED],
            count: 0,
        }
    }

    /// Their numbers, at most `MOST_REFUSED`.
    pub fn numbers(&self) -> &[u64]
        ensures same { result.now ≡ self.now }
        ensures few { length result.now ≤ refused_limit }
    {
        &self.numbers[..self.count]
    }

    // Adds a number, where there is room.
    pub(crate) fn add(&mut self, number: u64)
        ensures { self.new ≡
            (if nat_lt (length self.old) refused_limit then self.old ++ number ∷ []
            else self.old) }
    {
        if self.count < MOST_REFUSED {
            self.numbers[self.count] = number;
            self.count += 1;
        }
    }

    // Whether there is no room for more.
    pub(crate) fn is_full(&self) -> bool
        ensures { result ≡ nat_le refused_limit (length self.now) }
    {
        MOST_REFUSED <= self.count
    }

    // Takes over the numbers of another list.
    pub(crate) fn take_over(&mut self, other: &Refused)
        ensures { self.new ≡ other.now }
    {
        self.numbers = other.numbers;
        self.count = other.count;
    }
}
