//! Lists that are used up.

ghost use Rattle.std.specs.Prelude.{◌≡◌, [], ◌∷◌, reverse, MatchOption};

/// Takes out the last item. Where the list has much room to spare then, it gives that back.
pub fn take_last<T: Drop>(items: &mut Vec<T>) -> Option<T>
    ensures { MatchOption result (reverse items.old.items ≡ [])
        (λ x. reverse items.old.items ≡ x ∷ reverse items.new.items) }
{
    let last = items.pop()?;
    if items.len() < items.capacity() / 8 * 7 {
        items.shrink_to_fit();
    }
    Some(last)
}
