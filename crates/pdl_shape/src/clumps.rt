//! Dimensions that are joined to one.
ghost use Rattle.std.specs.Prelude.{◌≡◌, ◌≤◌, IfSome};
ghost use Rattle.pdl_shape.specs.Clump.{clump_count};

/// How many of `dims` dimensions a clump joins: `count` of them, or all for -1 (PDL::Core, clump).
/// `None` where `count` isn't 1 to `dims` or -1.
pub fn clump_count(count: i64, dims: usize) -> Option<usize>
    ensures count { result ≡ clump_count count dims }
    ensures bound { IfSome result (λ joined. joined ≤ dims) }
{
    if count >= 0 {
        let count = count as usize;
        if 1 <= count && count <= dims {
            Some(count)
        } else {
            None
        }
    } else if count == -1 {
        Some(dims)
    } else {
        None
    }
}
