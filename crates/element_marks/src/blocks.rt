// Where the blocks of a declaration begin.

ghost use Rattle.std.specs.Prelude.{◌≡◌, ◌==◌, true};
ghost use Rattle.std.specs.Bool.{Decides};
ghost use Rattle.std.specs.List.{list_any};
ghost use Rattle.std.specs.List.Sorted.{IsNonDecreasing};

/// The places where braces begin that are blocks of a declaration, in bytes from 0.
#[derive(Clone, Copy)]
pub struct Blocks<'a> {
    pub starts: &'a [u32],
    /// Whether the places are known to rise, so that one is found by halves.
    pub rises: bool,
    ghost rising: { rises ≡ true → IsNonDecreasing starts.now },
}

impl<'a> Blocks<'a> {
    /// Looks once whether the places rise.
    pub fn new(starts: &'a [u32]) -> Blocks<'a>
        ensures starts { result.starts.now ≡ starts.now }
        ensures rises { Decides result.rises (IsNonDecreasing starts.now) }
    {
        Blocks {
            starts,
            rises: starts.is_sorted(),
        }
    }

    /// Whether a block begins at the place.
    pub fn holds(self, start: u32) -> bool
        ensures { result ≡ list_any (λ block. block == start) self.entry.starts.now }
    {
        if self.rises {
            return self.starts.binary_search(&start).is_ok();
        }
        self.starts.contains(&start)
    }
}
