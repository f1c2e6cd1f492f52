// Parts of a text, as far as it has them.
ghost use Rattle.std.specs.Prelude.{◌≡◌, take, drop, slice_range};

fn front(text: &[u8], n: usize) -> &[u8]
    ensures { result.now ≡ take n text.now }
{
    if n < text.len() {
        let (front, _) = text.split_at(n);
        return front;
    }
    text
}

fn behind(text: &[u8], n: usize) -> &[u8]
    ensures { result.now ≡ drop n text.now }
{
    let (_, behind) = text.split_at(n.min(text.len()));
    behind
}

pub fn between(text: &[u8], start: usize, end: usize) -> &[u8]
    ensures { result.now ≡ slice_range text.now start end }
{
    front(behind(text, start), end.saturating_sub(start))
}
