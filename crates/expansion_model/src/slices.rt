// Parts of lists.
ghost use Rattle.std.specs.Prelude.{◌≡◌, ◌++◌, ◌∷◌, [], IfOk, take, drop, slice_range};
ghost use Rattle.expansion_model.specs.Macros.{text_at};

use std::alloc::AllocError;
use swift_base::Span;

// The first n elements, or all where there are fewer.
pub fn front<T>(items: &[T], n: usize) -> &[T]
    ensures { result.now ≡ take n items.now }
{
    if n < items.len() {
        let (front, _) = items.split_at(n);
        return front;
    }
    items
}

// What stands behind the first n elements.
pub fn behind<T>(items: &[T], n: usize) -> &[T]
    ensures { result.now ≡ drop n items.now }
{
    let (_, behind) = items.split_at(n.min(items.len()));
    behind
}

/// The bytes of a place, as far as the text has them.
pub fn text_at(text: &[u8], span: Span) -> &[u8]
    ensures { result.now ≡ text_at text.now span }
{
    front(
        behind(text, span.start as usize),
        span.end.saturating_sub(span.start) as usize,
    )
}

pub fn add<T: Drop>(list: &mut Vec<T>, item: T) -> Result<(), AllocError>
    ensures { IfOk result (λ _. list.new.items ≡ list.old.items ++ item ∷ []) }
{
    list.push(item)?;
    Ok(())
}
