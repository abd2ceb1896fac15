//! Lists without spare room.

ghost use Rattle.std.specs.Prelude.{◌≡◌};

/// The list, with no more room than its items take.
pub fn without_spare<T: Drop>(list: Vec<T>) -> Vec<T>
    ensures { result.items ≡ list.items }
{
    let mut list = list;
    list.shrink_to_fit();
    list
}
