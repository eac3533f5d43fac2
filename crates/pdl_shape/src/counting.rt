//! Numbers that count from the end.
ghost use Rattle.std.specs.Prelude.{◌≡◌, ◌<◌, IfSome};
ghost use Rattle.pdl_shape.specs.Counting.{from_end};

/// The one of `count` places that `number` stands for, where a number below 0 counts from the end
/// (PDL::Slices). `None` where there is no such place.
pub fn from_end(number: i64, count: usize) -> Option<usize>
    ensures place { result ≡ from_end number count }
    ensures bound { IfSome result (λ place. place < count) }
{
    if number >= 0 {
        let place = number as usize;
        if place < count { Some(place) } else { None }
    } else {
        let back = number.unsigned_abs() as usize;
        if back <= count {
            Some(count - back)
        } else {
            None
        }
    }
}
