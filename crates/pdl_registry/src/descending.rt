//! Numbers as keys of an ordered map, the highest first.
ghost use Rattle.std.specs.Prelude.{◌≡◌, ◌≤◌, Some, nat_eq};
ghost use Rattle.std.proofs.Common.{◌∙◌, refl};
ghost use Rattle.std.specs.Cmp.{back_total, nat_cmp_total, nat_eq_equiv, partial_equiv_from_equiv, po, unsigned_ties};
ghost use Rattle.std.specs.Ordering.{flip_args, nat_cmp};

use std::cmp::Ordering;
use std::marker::Model;

/// A number as a key of an ordered map in which the highest stands first. A look-up passes the keys
/// of the map's nodes one by one, and the highest numbers, the newest, are asked for most.
#[derive(Clone, Copy)]
pub struct Descending {
    number: u64,
}

impl Model for Descending {
    ghost use Rattle.std.specs.Prelude.{ℕ};

    ghost Value = { ℕ };

    ghost view = { λ d. d.number };

    ghost inverse = { λ n. record { number = n } };
}

impl Descending {
    /// A number as a key.
    pub fn of(number: u64) -> Descending
        ensures { result ≡ number }
    {
        Descending { number }
    }

    /// The number that the key stands for.
    pub fn number(&self) -> u64
        ensures { result ≡ self.now }
    {
        self.number
    }

    /// The order of a key to another that it doesn't stand behind. It stays a call: in line its
    /// comparison would be joined with the one before it, and a look-up, which asks this once in
    /// each of the map's nodes, would make both for every key that it passes.
    #[cold]
    #[inline(never)]
    fn up_to(&self, other: &Descending) -> Ordering
        requires { other.now ≤ self.now }
        ensures { result ≡ nat_cmp other.now self.now }
    {
        if self.number == other.number {
            Ordering::Equal
        } else {
            Ordering::Less
        }
    }
}

impl PartialEq for Descending {
    ghost eq = { nat_eq };

    ghost laws = { partial_equiv_from_equiv nat_eq_equiv };

    fn eq(&self, other: &Descending) -> bool {
        self.number == other.number
    }
}

impl Eq for Descending {
    ghost laws = { nat_eq_equiv };
}

impl PartialOrd for Descending {
    ghost partial_cmp = { λ x y. Some (flip_args nat_cmp x y) };

    ghost laws = { po (back_total nat_cmp_total)
        (λ x y. nat_eq_equiv.symm x y ∙ unsigned_ties y x) };

    fn partial_cmp(&self, other: &Descending) -> Option<Ordering> {
        Some(self.cmp(other))
    }
}

impl Ord for Descending {
    ghost cmp = { flip_args nat_cmp };

    ghost total = { back_total nat_cmp_total };

    ghost matches_partial_cmp = { λ x y. refl };

    ghost matches_eq = { λ x y. nat_eq_equiv.symm x y ∙ unsigned_ties y x };

    fn cmp(&self, other: &Descending) -> Ordering {
        if self.number < other.number {
            return Ordering::Greater;
        }
        self.up_to(other)
    }
}
