// Parts of lists.
ghost use Rattle.std.specs.Prelude.{◌≡◌, ◌++◌, ◌∷◌, [], IfOk, take, drop, slice_range};
ghost use Rattle.expansion_model.specs.Macros.{text_at};

use std::alloc::AllocError;
use swift_base::Span;

// The first n elements, or all where there are fewer.
pub fn front<T>(items: &[T], n: usize) -> &[T]
    ensures { result.now ≡ take n items.now }
{
    if n < items.len() {
        let (front, _) = items.split_at(n);
        return front;
    }
    items
}

// What stands behind the first n elements.
pub fn behind<T>(items: &[T], n: usize) -> &[T]
    ensures { result.now ≡ drop n items.now }
{
    let (_, behind) = items.split_at(n.min(items.len()));
    behind
}

/// The bytes from one place to another, as far as the text has them.
pub fn part(text: &[u8], start: u32, end: u32) -> &[u8]
    ensures { result.now ≡ slice_range text.now start end }
{
    front(
        behind(text, start as usize),
        end.saturating_sub(start) as usize,
    )
}

/// The bytes of a place.
pub fn text_at(text: &[u8], span: Span) -> &[u8]
    ensures { result.now ≡ text_at text.now span }
{
    part(text, span.start, span.end)
}

pub fn add<T: Drop>(list: &mut Vec<T>, item: T) -> Result<(), AllocError>
    ensures { IfOk result (λ _. list.new.items ≡ list.old.items ++ item ∷ []) }
{
    list.push(item)?;
    Ok(())
}
