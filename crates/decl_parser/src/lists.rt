// Parts of lists.

ghost use Rattle.std.specs.Prelude.{◌≡◌, ◌<◌, ◌++◌, ◌∷◌, [], OnOk, drop, take};
ghost use Rattle.std.specs.Vec.{vec_capacity, vec_len};

use std::alloc::AllocError;

/// What stands behind so many.
pub fn behind<T>(list: &[T], count: usize) -> &[T]
    ensures { result.now ≡ drop count list.now }
{
    let count = list.len().min(count);
    &list[count..]
}

/// The first so many.
pub fn upto<T>(list: &[T], count: usize) -> &[T]
    ensures { result.now ≡ take count list.now }
{
    let count = list.len().min(count);
    &list[..count]
}

/// One more at the end. A list of one has room for no more.
pub fn add<T: Drop>(list: &mut Vec<T>, value: T) -> Result<(), AllocError>
    ensures { OnOk result (list.new.items ≡ list.old.items ++ value ∷ []) }
{
    make_room(list)?;
    list.push_reserved(value);
    Ok(())
}

/// Room for one more.
fn make_room<T: Drop>(list: &mut Vec<T>) -> Result<(), AllocError>
    ensures items { list.new.items ≡ list.old.items }
    ensures room { OnOk result (vec_len list.new < vec_capacity list.new) }
{
    if list.is_empty() {
        list.reserve_exact(1)
    } else {
        list.reserve(1)
    }
}
