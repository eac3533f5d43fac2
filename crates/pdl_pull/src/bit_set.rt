//! Sets of numbers, one bit each.
ghost use Rattle.std.specs.Prelude.{◌≡◌, ◌<◌, IfOk, false, true, length, not, replicate, slice_index_or, slice_set};

use pdl_buf::NoMemory;
use std::alloc::Global;
use std::marker::Model;

/// A set of numbers below a count, one bit each.
#[derive(Drop)]
pub struct BitSet {
    words: Vec<u64>,
    count: u32,
}

/// For each number below the count, whether it is in the set.
impl Model for BitSet {
    ghost use Rattle.std.specs.Prelude.{Bool, List, length, ◌*◌, ◌≤◌};
    ghost use Rattle.pdl_pull.specs.Flags.{flags_of};

    ghost Value = { List Bool };

    ghost view = { λ s. flags_of s.words.items s.count };

    ghost invariant = { λ s. s.count ≤ 64 * length s.words.items };
}

impl BitSet {
    /// The empty set of numbers below a count.
    pub fn new(alloc: Global, count: u32) -> Result<BitSet, NoMemory>
        ensures { IfOk result (λ s. s ≡ replicate count false) }
    {
        let words = vec![in alloc; 0; count as usize / 64 + 1]?;
        Ok(BitSet { words, count })
    }

    /// Puts a number into the set. Answers whether it wasn't in it.
    pub fn insert(&mut self, number: u32) -> bool
        requires { number < length self.old }
        ensures new { result ≡ not (slice_index_or self.old number false) }
        ensures after { self.new ≡ slice_set self.old number true }
    {
        let at = number as usize / 64;
        let bit = 1u64 << (number % 64);
        let word = self.words[at];
        self.words[at] = word | bit;
        word & bit == 0
    }
}
