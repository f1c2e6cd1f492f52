// Laws of edits.
ghost use Rattle.result_splice.specs.Laws.{PiecesAreTheText, KeepsTheRest, MakesEdits};

/// The pieces' bytes, joined, are the edited text.
pub fn pieces_are_the_text()
    ensures { PiecesAreTheText }
{}

/// Where edits can be made, what is kept and what they replace is the text, each byte once and in order.
pub fn bytes_outside_edits_are_kept()
    ensures { KeepsTheRest }
{}

/// Edits that can be made are made.
pub fn edits_are_made()
    ensures { MakesEdits }
{}
