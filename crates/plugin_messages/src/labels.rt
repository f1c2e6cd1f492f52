//! The cases and labels of the messages, once for the definitions, the readers and the writers.

// Cases of the host, then of the plug-in.
pub const GET_CAPABILITY: &str = "getCapability";

pub const EXPAND_FREESTANDING_MACRO: &str = "expandFreestandingMacro";

pub const EXPAND_ATTACHED_MACRO: &str = "expandAttachedMacro";

pub const LOAD_PLUGIN_LIBRARY: &str = "loadPluginLibrary";

pub const GET_CAPABILITY_RESULT: &str = "getCapabilityResult";

pub const EXPAND_MACRO_RESULT: &str = "expandMacroResult";

pub const LOAD_PLUGIN_LIBRARY_RESULT: &str = "loadPluginLibraryResult";

// Labels of the cases.
pub const CAPABILITY: &str = "capability";

pub const PROTOCOL_VERSION: &str = "protocolVersion";

pub const MACRO: &str = "macro";

pub const MACRO_ROLE: &str = "macroRole";

pub const DISCRIMINATOR: &str = "discriminator";

pub const SYNTAX: &str = "syntax";

pub const ATTRIBUTE_SYNTAX: &str = "attributeSyntax";

pub const DECL_SYNTAX: &str = "declSyntax";

pub const PARENT_DECL_SYNTAX: &str = "parentDeclSyntax";

pub const EXTENDED_TYPE_SYNTAX: &str = "extendedTypeSyntax";

pub const CONFORMANCE_LIST_SYNTAX: &str = "conformanceListSyntax";

pub const LIBRARY_PATH: &str = "libraryPath";

pub const EXPANDED_SOURCE: &str = "expandedSource";

pub const LOADED: &str = "loaded";

pub const DIAGNOSTICS: &str = "diagnostics";

// Labels of a macro, a syntax, a location, a diagnostic and a position.
pub const MODULE_NAME: &str = "moduleName";

pub const TYPE_NAME: &str = "typeName";

pub const NAME: &str = "name";

pub const KIND: &str = "kind";

pub const SOURCE: &str = "source";

pub const LOCATION: &str = "location";

pub const FILE_ID: &str = "fileID";

pub const FILE_NAME: &str = "fileName";

pub const OFFSET: &str = "offset";

pub const LINE: &str = "line";

pub const COLUMN: &str = "column";

pub const MESSAGE: &str = "message";

pub const SEVERITY: &str = "severity";

pub const POSITION: &str = "position";

pub const HIGHLIGHTS: &str = "highlights";

pub const NOTES: &str = "notes";

pub const FIX_ITS: &str = "fixIts";
