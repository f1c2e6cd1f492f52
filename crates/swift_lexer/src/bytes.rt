// The table of brackets.

ghost use Rattle.std.specs.Prelude.{◌≡◌};
ghost use Rattle.swift_lexer.specs.Bytes.{is_bracket_pair};

pub const BRACKETS: [(u8, u8); 3] = [(b'(', b')'), (b'[', b']'), (b'{', b'}')];

/// Whether the two bytes are brackets of one kind, a left one and a right one.
pub fn is_bracket_pair(left: u8, right: u8) -> bool
    ensures { result ≡ is_bracket_pair left right }
{
    BRACKETS.contains(&(left, right))
}
