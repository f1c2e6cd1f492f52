// Lines and columns of a text.
ghost use Rattle.std.specs.Prelude.{◌≡◌, ◌<◌, ◌-◌, ◌^◌, length};
ghost use Rattle.expansion_model.specs.Requests.{place_of, IsPlaceIn};

/// An offset in bytes from 0, with its line and its column in bytes from 1.
#[derive(Clone, Copy, PartialEq, Eq, Debug)]
pub struct Place {
    pub at: u32,
    pub line: u32,
    pub column: u32,
}

/// The place of the first byte of any text.
pub const FIRST_PLACE: Place = Place {
    at: 0,
    line: 1,
    column: 1,
};

/// The place of an offset, counted on from an earlier place of the same text.
#[tactic(auto, unfolding(crate::specs::Requests::place_of))]
pub fn place_from(text: &[u8], from: Place, offset: u32) -> Place
    requires short { length text.now < 2 ^ 32 - 1 }
    requires from { IsPlaceIn text.now from }
    ensures { result ≡ place_of text.now offset }
{
    let end = text.len().min(offset as usize);
    let start = if from.at as usize > end {
        FIRST_PLACE
    } else {
        from
    };
    let (mut at, mut line, mut column) = (start.at as usize, start.line, start.column);
    'bytes: while at < end {
        if text[at] == b'\n' {
            line += 1;
            column = 1;
        } else {
            column += 1;
        }
        at += 1;
    }
    Place {
        at: offset,
        line,
        column,
    }
}
