// Laws of the macros of outlines.
ghost use Rattle.macro_decls.specs.Laws.{EachMacroDeclared, EachRoleDeclared};

/// A table has each macro of its outlines in order, with the role of each attribute that gives one.
pub fn every_macro_is_declared()
    ensures names { EachMacroDeclared }
    ensures roles { EachRoleDeclared }
{}
