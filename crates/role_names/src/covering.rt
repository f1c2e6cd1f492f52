// Which names a list covers.
ghost use Rattle.std.specs.Prelude.{◌≡◌, ◌++◌, Decides};
ghost use Rattle.std.specs.Option.{option_copied};
ghost use Rattle.role_names.specs.Covered.{IsCoveredBy, IsCoveredByList};
ghost use Rattle.role_names.specs.Decided.{ListIsDecided, UniqueIsDecided, IsDecided};

use crate::rule::{NameList, NameRule};

/// Whether one of the five rules covers the name; `attached` is the name of the attached declaration, where that has
/// exactly one.
pub fn covers(list: &NameList, attached: Option<&[u8]>, name: &[u8]) -> bool
    ensures { Decides result (IsCoveredByList list.now.rules (option_copied attached.entry) name.now) }
{
    list.rules
        .items()
        .iter()
        .any(|rule| is_covered_by(rule, attached, name))
}

fn is_covered_by(rule: &NameRule, attached: Option<&[u8]>, name: &[u8]) -> bool
    ensures { Decides result (IsCoveredBy (option_copied attached.entry) name.now rule.now) }
{
    match (rule, attached) {
        (NameRule::Named(own), _) => own.bytes() == name,
        (NameRule::Overloaded, Some(attached)) => attached == name,
        (NameRule::Prefixed(prefix), Some(attached)) => is_joined(name, prefix.bytes(), attached),
        (NameRule::Suffixed(suffix), Some(attached)) => is_joined(name, attached, suffix.bytes()),
        (NameRule::Arbitrary, _) => true,
        (_, None) => false,
    }
}

// Whether the name is the front with the back behind it.
fn is_joined(name: &[u8], front: &[u8], back: &[u8]) -> bool
    ensures { Decides result (name.now ≡ front.now ++ back.now) }
{
    match name.strip_prefix(front) {
        Some(rest) => rest == back,
        None => false,
    }
}

/// The Boolean definitions of covered and of unique names hold exactly where the relations do.
pub fn covered_names_are_decided()
    ensures by_list { ListIsDecided }
    ensures unique { UniqueIsDecided }
    ensures either { IsDecided }
{}
