// Laws of replies.
ghost use Rattle.result_reader.specs.Laws.{KeepsTheOutline, DeclaresItsNames};

/// A reply that is read has the outline of its text, in which there is no fault.
pub fn outline_is_the_replys()
    ensures { KeepsTheOutline }
{}

/// A reply of declarations that is read declares only names that its macro may make.
pub fn names_are_the_macros()
    ensures { DeclaresItsNames }
{}
