// What the lines of faults say.
ghost use Rattle.std.specs.Prelude.{◌≡◌, IfOk};
ghost use Rattle.expansion_model.specs.declared.message.MessageText.TheVariants as says;
ghost use Rattle.expand_top.specs.Faults.{fault_text, quoting, macro_fault_text, site_fault_text, no_reply_text, message_text, limit_text};

use decl_parser::ParseKind;
use expansion_model::{LimitKind, MessageText, SiteKind};
use macro_decls::MacroKind;
use std::alloc::{AllocError, Global};

/// One row a kind of fault.
pub fn fault_text(kind: ParseKind) -> &'static [u8]
    ensures { result.now ≡ fault_text kind }
{
    match kind {
        ParseKind::SourceTooLarge => b"the text is longer than 4194304 bytes",
        ParseKind::NotUtf8 => b"the text is not UTF-8",
        ParseKind::BadCharacter => b"this character has no place here",
        ParseKind::OpenString => b"the string does not end",
        ParseKind::OpenComment => b"the comment does not end",
        ParseKind::ExtendedRegex => b"regex literals with # are left out",
        ParseKind::UseInInterpolation => b"a macro use in an interpolation is left out",
        ParseKind::Unopened => b"this bracket was not opened",
        ParseKind::Unclosed => b"this bracket is not closed",
        ParseKind::Mismatched => b"this bracket closes another kind",
        ParseKind::TooDeep => b"brackets are nested deeper than 200",
        ParseKind::ReservedWord => b"names that begin with $sX are reserved",
        ParseKind::NotADeclaration => b"a declaration was expected",
        ParseKind::BuiltinItem => b"this # word is left out at declaration level",
        ParseKind::AttributedUse => b"attributes and modifiers before a use are left out",
        ParseKind::MissingName => b"a name was expected",
        ParseKind::MissingBlock => b"a block was expected",
        ParseKind::BadBinding => b"a binding was expected",
        ParseKind::DanglingJoiner => b"the declaration does not end here",
        ParseKind::NotAnAttribute => b"an attribute was expected",
        ParseKind::NotAnAccessor => b"an accessor was expected",
        ParseKind::NotAnExpression => b"an expression was expected",
        ParseKind::Empty => b"the reply is empty",
    }
}

// A name in quotes between two texts.
fn quoting(alloc: Global, before: &[u8], name: &[u8], behind: &[u8]) -> Result<Vec<u8>, AllocError>
    ensures { IfOk result (λ v. v.items ≡ quoting before.now name.now behind.now) }
{
    let mut text = Vec::from_slice(alloc, before)?;
    text.extend_from_slice(name)?;
    text.extend_from_slice(behind)?;
    Ok(text)
}

/// One row a kind of fault of a macro's declaration, by the macro's name.
pub fn macro_fault_text(alloc: Global, kind: MacroKind, name: &[u8]) -> Result<Vec<u8>, AllocError>
    ensures { IfOk result (λ v. v.items ≡ macro_fault_text kind name.now) }
{
    match kind {
        MacroKind::Duplicate => quoting(alloc, b"macro '", name, b"' is declared twice"),
        MacroKind::NoRole => quoting(alloc, b"macro '", name, b"' has no role"),
        MacroKind::BadRole => Vec::from_slice(alloc, b"this role is left out or repeated"),
        MacroKind::BothFreestanding => {
            quoting(alloc, b"macro '", name, b"' has two freestanding roles")
        }
        MacroKind::BadNames => Vec::from_slice(alloc, b"this list of names is not understood"),
        MacroKind::BadConformances => {
            Vec::from_slice(alloc, b"this list of conformances is not understood")
        }
        MacroKind::NotExternal => quoting(alloc, b"macro '", name, b"' is not an external macro"),
    }
}

// One row a kind of fault of a site, by the macro's name, or the module's.
fn site_fault_text(alloc: Global, kind: SiteKind, name: &[u8]) -> Result<Vec<u8>, AllocError>
    ensures { IfOk result (λ v. v.items ≡ site_fault_text kind name.now) }
{
    match kind {
        SiteKind::UnknownMacro => quoting(alloc, b"no macro named '", name, b"'"),
        SiteKind::LocalAttached => quoting(
            alloc,
            b"macro '",
            name,
            b"' is attached in a local place",
        ),
        SiteKind::WrongRole => quoting(alloc, b"macro '", name, b"' has no role for this place"),
        SiteKind::NotOneBinding => {
            Vec::from_slice(alloc, b"an accessor macro needs a variable with one name")
        }
        SiteKind::AccessorOnBody => {
            Vec::from_slice(
                alloc,
                b"an accessor macro needs a variable without a getter block",
            )
        }
        SiteKind::NoPlugin => quoting(alloc, b"no plug-in for module '", name, b"'"),
        SiteKind::Recursive => quoting(
            alloc,
            b"macro '",
            name,
            b"' expands to itself in the same role",
        ),
    }
}

// Of a request whose plug-in has this module.
fn no_reply_text(alloc: Global, module_name: &[u8]) -> Result<Vec<u8>, AllocError>
    ensures { IfOk result (λ v. v.items ≡ no_reply_text module_name.now) }
{
    quoting(alloc, b"plug-in '", module_name, b"' gave no reply")
}

const NOT_BUILT: &[u8] = b"this form is not built yet";

fn uncovered_text(alloc: Global, name: &[u8], macro_name: &[u8]) -> Result<Vec<u8>, AllocError>
    ensures { IfOk result (λ v. v.items ≡ message_text (says.Uncovered name.now macro_name.now)) }
{
    let behind = quoting(alloc, b"' is not in the list of macro '", macro_name, b"'")?;
    quoting(alloc, b"the name '", name, &behind)
}

/// One row a kind of message.
pub fn message_text(alloc: Global, text: &MessageText) -> Result<Vec<u8>, AllocError>
    ensures { IfOk result (λ v. v.items ≡ message_text text.now) }
{
    match text {
        MessageText::Parse(kind) => Vec::from_slice(alloc, fault_text(*kind)),
        MessageText::Site { kind, name } => site_fault_text(alloc, *kind, name.bytes()),
        MessageText::NotBuilt => Vec::from_slice(alloc, NOT_BUILT),
        MessageText::NoReply { module_name } => no_reply_text(alloc, module_name.bytes()),
        MessageText::NoText { macro_name } => {
            quoting(alloc, b"macro '", macro_name.bytes(), b"' gave no text")
        }
        MessageText::ForbiddenKind { macro_name } => quoting(
            alloc,
            b"macro '",
            macro_name.bytes(),
            b"' may not make this declaration here",
        ),
        MessageText::FileScopeArbitrary => {
            Vec::from_slice(alloc, b"arbitrary names are not allowed at file scope")
        }
        MessageText::Uncovered { name, macro_name } => {
            uncovered_text(alloc, name.bytes(), macro_name.bytes())
        }
    }
}

/// One row a limit.
pub fn limit_text(kind: LimitKind) -> &'static [u8]
    ensures { result.now ≡ limit_text kind }
{
    match kind {
        LimitKind::Requests => b"the file needs more than 65536 expansions",
        LimitKind::Bytes => b"the plug-ins sent more than 67108864 bytes",
    }
}
