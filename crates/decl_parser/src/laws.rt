// Laws of outlines: a call of each brings it in as a fact.

ghost use Rattle.decl_parser.specs.Laws.{AcceptedTextsTile, OneOutline, OutlineKeepsTheText, SomeOutline, SpansInOrder};

/// A text has one outline for a shape or is refused with one fault.
pub fn one_outline()
    ensures { OneOutline }
{}

/// A text is accepted or refused, whatever the shape.
pub fn some_outline()
    ensures { SomeOutline }
{}

/// An outline holds the text that was read, and the shape as which it was read.
pub fn outline_keeps_the_text()
    ensures { OutlineKeepsTheText }
{}

/// The tokens of an accepted text and their trivia, joined, are the text.
pub fn accepted_texts_tile()
    ensures { AcceptedTextsTile }
{}

/// All that an outline holds lies in its text in order: declarations, their blocks and members, and the names,
/// bindings, types, attributes and macro uses of each. A declaration's own attributes and its macro uses are
/// apart; the attributes end before its block, and the uses before its members.
pub fn spans_in_order()
    ensures { SpansInOrder }
{}
