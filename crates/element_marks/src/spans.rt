// The parts of the text that elements are.

ghost use Rattle.std.specs.Prelude.{◌≡◌};
ghost use Rattle.element_marks.specs.Spans.{behind_first, between, name_of, span_of, whole};

use crate::mark::Mark;
use crate::sorts::is_quoted;
use swift_base::Span;

/// From the first byte of the element to its last.
pub fn span_of(mark: &Mark) -> Span
    ensures { result ≡ span_of mark.now }
{
    Span {
        start: mark.start,
        end: mark.end,
    }
}

/// Behind the first byte of the element.
pub fn behind_first(mark: &Mark) -> Span
    ensures { result ≡ behind_first mark.now }
{
    Span {
        start: mark.start.saturating_add(1).min(mark.end),
        end: mark.end,
    }
}

/// Between the first byte of the element and its last.
pub fn between(mark: &Mark) -> Span
    ensures { result ≡ between mark.now }
{
    Span {
        start: mark.start.saturating_add(1).min(mark.end),
        end: mark.end.saturating_sub(1),
    }
}

/// A name's own text: what stands between the backquotes, where there are any.
pub fn name_of(mark: &Mark) -> Span
    ensures { result ≡ name_of mark.now }
{
    if is_quoted(mark) {
        between(mark)
    } else {
        span_of(mark)
    }
}

/// From the first element to the last.
pub fn whole(marks: &[Mark]) -> Option<Span>
    ensures { result ≡ whole marks.now }
{
    let first = marks.first()?;
    let last = marks.last()?;
    Some(Span {
        start: first.start,
        end: last.end,
    })
}
