// One step of a key.
use crate::role::Role;

/// A request in its buffer: the byte offset from 0 of its `#` or `@`, its role, and the number from 0 of the member
/// among the type's items for `MemberAttribute`, 0 elsewhere.
#[derive(Clone, Copy, Debug, PartialEq, Eq, PartialOrd, Ord, Hash)]
pub struct KeyStep {
    pub offset: u32,
    pub role: Role,
    pub member: u32,
}
