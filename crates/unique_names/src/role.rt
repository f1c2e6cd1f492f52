// The roles in which a macro is asked, and their one table.
ghost use Rattle.std.specs.Prelude.{◌≡◌};
ghost use Rattle.unique_names.specs.Roles.{letter_of, text_of, among, role_of};
ghost use Rattle.unique_names.specs.Laws.{TextsTellRoles, RolesAreSpelled};

/// What a macro is asked for at a place (SE-0382, SE-0389, SE-0397, SE-0402).
#[derive(Clone, Copy, Debug, PartialEq, Eq, PartialOrd, Ord, Hash)]
pub enum Role {
    Expression,
    Declaration,
    Accessor,
    MemberAttribute,
    Member,
    Peer,
    Extension,
}

/// A row for each role, in the order of the roles: its letter in a discriminator, and its text in a message.
pub const ROLES: [(Role, u8, &str); 7] = [
    (Role::Expression, b'e', "expression"),
    (Role::Declaration, b'd', "declaration"),
    (Role::Accessor, b'a', "accessor"),
    (Role::MemberAttribute, b't', "memberAttribute"),
    (Role::Member, b'm', "member"),
    (Role::Peer, b'p', "peer"),
    (Role::Extension, b'x', "extension"),
];

impl Role {
    pub fn letter(self) -> u8
        ensures { result ≡ letter_of self }
    {
        ROLES[self as usize].1
    }

    pub fn text(self) -> &'static str
        ensures { result.now ≡ text_of self }
    {
        ROLES[self as usize].2
    }

    /// The role of this text, if it is one's.
    pub fn of_text(text: &str) -> Option<Role>
        ensures { result ≡ role_of text.now }
    {
        find_role(&ROLES, text)
    }
}

// The role of the first of these rows that has this text.
fn find_role(rows: &[(Role, u8, &str)], text: &str) -> Option<Role>
    ensures { result ≡ among (λ row. row.0) (λ row. row.2.now) rows.now text.now }
{
    let (row, rest) = rows.split_first()?;
    if row.2 == text {
        Some(row.0)
    } else {
        find_role(rest, text)
    }
}

/// The text of a role is read as that role.
pub fn texts_tell_roles()
    ensures { TextsTellRoles }
{}

/// The letter and the text of each role are those of the format.
pub fn roles_are_spelled()
    ensures { RolesAreSpelled }
{}
