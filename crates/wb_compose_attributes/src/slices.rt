//! Which part of a list is lent?

ghost use Rattle.std.specs.Prelude.{◌≡◌, drop, take};

/// The first so many.
pub fn leading<T>(list: &[T], count: usize) -> &[T]
    ensures { result.now ≡ take count list.now }
{
    if count <= list.len() {
        list.split_at(count).0
    } else {
        list
    }
}

/// What comes after so many.
pub fn behind<T>(list: &[T], count: usize) -> &[T]
    ensures { result.now ≡ drop count list.now }
{
    if count <= list.len() {
        list.split_at(count).1
    } else {
        list.split_at(list.len()).1
    }
}
