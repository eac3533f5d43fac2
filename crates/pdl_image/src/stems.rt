//! The stem of a dump's own names.
ghost use Rattle.std.specs.Prelude.{◌≡◌, ◌++◌, [], IfOk, OnOk, OnErr};
ghost use Rattle.std.specs.List.{cons_option};
ghost use Rattle.pdl_image.specs.Stems.{is_in, least_free, stem, stem_in, underscores};

use pdl_elem::Name;
use std::alloc::{AllocError, Global};
use std::marker::Model;

/// The stems that bound names begin with, seen as their counts of underscores in the order of the
/// names.
#[derive(Debug, Drop)]
pub struct Stems {
    counts: Vec<u64>,
}

impl Model for Stems {
    ghost use Rattle.std.specs.Prelude.{List, ℕ};

    ghost Value = { List ℕ };

    ghost view = { λ s. s.counts.items };
}

impl Stems {
    /// No name was seen.
    pub fn new(alloc: Global) -> Stems
        ensures { result ≡ [] }
    {
        Stems {
            counts: Vec::new(alloc),
        }
    }

    /// Sees a bound name.
    pub fn see(&mut self, name: &Name) -> Result<(), AllocError>
        ensures ok { OnOk result (self.new ≡ self.old ++ cons_option (stem_in name.now) []) }
        ensures err { OnErr result (self.new ≡ self.old) }
    {
        if let Some(count) = stem_in(name.bytes()) {
            self.counts.push(count)?;
        }
        Ok(())
    }

    /// The stem of the fewest underscores that no name begins with.
    pub fn free(&self, alloc: Global) -> Result<Name, AllocError>
        ensures { IfOk result (λ name. name ≡ stem (least_free self.now)) }
    {
        Ok(Name::new(stem(alloc, least_free(&self.counts))?))
    }
}

/// How many underscores stand before a `d` where the bytes begin with these.
fn underscores(bytes: &[u8]) -> Option<u64>
    ensures { result ≡ underscores bytes.now }
{
    for (count, byte) in bytes.iter().enumerate() {
        if *byte == b'd' {
            return Some(count as u64);
        }
        if *byte != b'_' {
            return None;
        }
    }
    None
}

/// How many underscores the stem has that a name begins with, if it begins with one.
fn stem_in(name: &[u8]) -> Option<u64>
    ensures { result ≡ stem_in name.now }
{
    match name {
        [b'$', rest @ ..] => underscores(rest),
        _ => None,
    }
}

/// Whether a count is in a list.
fn is_in(counts: &[u64], k: u64) -> bool
    ensures { result ≡ is_in counts.now k }
{
    counts.iter().any(|count| *count == k)
}

/// The least count that isn't in a list.
fn least_free(counts: &[u64]) -> u64
    ensures { result ≡ least_free counts.now }
{
    for k in 0..counts.len() {
        if !is_in(counts, k as u64) {
            return k as u64;
        }
    }
    counts.len() as u64
}

/// The stem of so many underscores.
fn stem(alloc: Global, count: u64) -> Result<Vec<u8>, AllocError>
    ensures { IfOk result (λ bytes. bytes.items ≡ stem count) }
{
    let mut bytes = Vec::from_slice(alloc, b"$")?;
    for _ in 0..count {
        bytes.push(b'_')?;
    }
    bytes.push(b'd')?;
    Ok(bytes)
}
