//! Where values go that are put into a buffer.
ghost use Rattle.std.specs.Prelude.{◌≡◌, ℕ, ◌<◌, Option};

/// A place for each of so many positions, or none: values are put there in the order of positions.
pub trait Route {
    /// How many positions there are.
    ghost count: { Self → ℕ };

    ghost goes_to: { Self → ℕ → Option ℕ };

    /// Where the value of a position goes, if anywhere.
    fn place(&self, position: u32) -> Option<u32>
        requires { position < count self.now }
        ensures { result ≡ goes_to self.now position };
}
