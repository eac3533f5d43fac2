//! Tables of texts.
ghost use Rattle.std.specs.Prelude.{◌≡◌, map};
ghost use Rattle.pdl_elem.specs.Tables.{found_in};

/// What a table has for a text: what stands beside the first text that is equal to it.
pub fn found_in<T: Copy>(table: &[(&[u8], T)], text: &[u8]) -> Option<T>
    ensures { result ≡ found_in (map (λ entry. (entry.0.now, entry.1)) table.now) text.now }
{
    for (entry, meaning) in table {
        if text == *entry {
            return Some(*meaning);
        }
    }
    None
}
