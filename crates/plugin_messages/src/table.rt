// The labels of each object of a message: one table for the definitions, the reader and the writer.
ghost use Rattle.std.specs.Prelude.{◌≡◌, map};
ghost use Rattle.plugin_messages.specs.Rows.{rows_of};

use crate::labels::{
    ATTRIBUTE_SYNTAX, CAPABILITY, COLUMN, CONFORMANCE_LIST_SYNTAX, DECL_SYNTAX, DIAGNOSTICS,
    DISCRIMINATOR, EXPANDED_SOURCE, EXTENDED_TYPE_SYNTAX, FILE_ID, FILE_NAME, FIX_ITS, HIGHLIGHTS,
    KIND, LIBRARY_PATH, LINE, LOADED, LOCATION, MACRO, MACRO_ROLE, MESSAGE, MODULE_NAME, NAME,
    NOTES, OFFSET, PARENT_DECL_SYNTAX, POSITION, PROTOCOL_VERSION, SEVERITY, SOURCE, SYNTAX,
    TYPE_NAME,
};
use crate::table::Presence::{Optional, Required};
use crate::table::Sort::{
    Array, Flag, Kind, Object, Objects, Offset, Role, Severity, Small, Text, Version,
};

/// What stands at a label.
#[derive(Clone, Copy, Debug, PartialEq, Eq)]
pub enum Sort {
    Text,
    Flag,
    /// A whole number below 2 ^ 32.
    Small,
    /// A whole number below 2 ^ 63.
    Offset,
    /// A whole number from -2 ^ 63 to 2 ^ 63 - 1.
    Version,
    /// The text of a role, a kind of syntax or a severity.
    Role,
    Kind,
    Severity,
    /// An array, whatever its items.
    Array,
    Object(Shape),
    /// An array of objects.
    Objects(Shape),
}

/// Whether a label has to be there.
#[derive(Clone, Copy, Debug, PartialEq, Eq)]
pub enum Presence {
    Required,
    Optional,
}

/// The objects of messages: the labels of each case, and what stands inside.
#[derive(Clone, Copy, Debug, PartialEq, Eq)]
pub enum Shape {
    Greeting,
    Capability,
    Freestanding,
    Attached,
    Load,
    Reply,
    Loading,
    Macro,
    Syntax,
    Location,
    Diagnostic,
    Note,
    Position,
}

/// How many objects stand in one another at most in the labels of a case: a diagnostic, a note and its position.
pub const DEEPEST: usize = 3;

/// A label, what stands there, and whether it has to.
pub type Row = (&'static str, Sort, Presence);

// The rows of each object, in the order in which they are read.
pub const GREETING_ROWS: &[Row] = &[(CAPABILITY, Object(Shape::Capability), Required)];

pub const CAPABILITY_ROWS: &[Row] = &[(PROTOCOL_VERSION, Version, Required)];

pub const FREESTANDING_ROWS: &[Row] = &[
    (MACRO, Object(Shape::Macro), Required),
    (MACRO_ROLE, Role, Required),
    (DISCRIMINATOR, Text, Required),
    (SYNTAX, Object(Shape::Syntax), Required),
];

pub const ATTACHED_ROWS: &[Row] = &[
    (MACRO, Object(Shape::Macro), Required),
    (MACRO_ROLE, Role, Required),
    (DISCRIMINATOR, Text, Required),
    (ATTRIBUTE_SYNTAX, Object(Shape::Syntax), Required),
    (DECL_SYNTAX, Object(Shape::Syntax), Required),
    (PARENT_DECL_SYNTAX, Object(Shape::Syntax), Optional),
    (EXTENDED_TYPE_SYNTAX, Object(Shape::Syntax), Optional),
    (CONFORMANCE_LIST_SYNTAX, Object(Shape::Syntax), Optional),
];

pub const LOAD_ROWS: &[Row] = &[
    (LIBRARY_PATH, Text, Required),
    (MODULE_NAME, Text, Required),
];

pub const REPLY_ROWS: &[Row] = &[
    (EXPANDED_SOURCE, Text, Optional),
    (DIAGNOSTICS, Objects(Shape::Diagnostic), Required),
];

pub const LOADING_ROWS: &[Row] = &[
    (LOADED, Flag, Required),
    (DIAGNOSTICS, Objects(Shape::Diagnostic), Required),
];

pub const MACRO_ROWS: &[Row] = &[
    (MODULE_NAME, Text, Required),
    (TYPE_NAME, Text, Required),
    (NAME, Text, Required),
];

pub const SYNTAX_ROWS: &[Row] = &[
    (KIND, Kind, Required),
    (SOURCE, Text, Required),
    (LOCATION, Object(Shape::Location), Optional),
];

pub const LOCATION_ROWS: &[Row] = &[
    (FILE_ID, Text, Required),
    (FILE_NAME, Text, Required),
    (OFFSET, Small, Required),
    (LINE, Small, Required),
    (COLUMN, Small, Required),
];

pub const DIAGNOSTIC_ROWS: &[Row] = &[
    (MESSAGE, Text, Required),
    (SEVERITY, Severity, Required),
    (POSITION, Object(Shape::Position), Required),
    (HIGHLIGHTS, Array, Required),
    (NOTES, Objects(Shape::Note), Required),
    (FIX_ITS, Array, Required),
];

pub const NOTE_ROWS: &[Row] = &[
    (MESSAGE, Text, Required),
    (POSITION, Object(Shape::Position), Required),
];

pub const POSITION_ROWS: &[Row] = &[(FILE_NAME, Text, Required), (OFFSET, Offset, Required)];

/// The rows of an object, in the order in which they are read.
#[tactic(auto, unfolding(crate::specs::Rows::rows_of))]
pub(crate) fn rows_of(shape: Shape) -> &'static [Row]
    ensures { map (λ row. (row.0.now, row.1, row.2)) result.now ≡ rows_of shape }
{
    match shape {
        Shape::Greeting => GREETING_ROWS,
        Shape::Capability => CAPABILITY_ROWS,
        Shape::Freestanding => FREESTANDING_ROWS,
        Shape::Attached => ATTACHED_ROWS,
        Shape::Load => LOAD_ROWS,
        Shape::Reply => REPLY_ROWS,
        Shape::Loading => LOADING_ROWS,
        Shape::Macro => MACRO_ROWS,
        Shape::Syntax => SYNTAX_ROWS,
        Shape::Location => LOCATION_ROWS,
        Shape::Diagnostic => DIAGNOSTIC_ROWS,
        Shape::Note => NOTE_ROWS,
        Shape::Position => POSITION_ROWS,
    }
}
