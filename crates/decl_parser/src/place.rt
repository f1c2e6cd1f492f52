// Where a declaration stands.

ghost use Rattle.std.specs.Prelude.{◌≡◌};
ghost use Rattle.decl_parser.specs.Places.{has_place};

use swift_tree::Kind;

/// Where a declaration stands, as far as its kind has to have a place there.
#[derive(Clone, Copy, PartialEq, Eq, Debug)]
pub enum Place {
    File,
    Members,
    /// In a fragment, where each kind has a place.
    Anywhere,
}

/// Whether a declaration of the kind has a place there.
pub fn has_place(place: Place, kind: Kind) -> bool
    ensures { result ≡ has_place place kind }
{
    match place {
        Place::File => !matches!(
            kind,
            Kind::Init | Kind::Deinit | Kind::Subscript | Kind::Case | Kind::Associatedtype
        ),
        Place::Members => !matches!(
            kind,
            Kind::Import | Kind::Operator | Kind::Precedencegroup | Kind::Extension | Kind::Macro
        ),
        Place::Anywhere => true,
    }
}
