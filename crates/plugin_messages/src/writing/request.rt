// What the host sends, as JSON.
ghost use Rattle.std.specs.Prelude.{◌≡◌, map, IfOk, option_map};
ghost use Rattle.std.specs.Str.{IsUtf8};
ghost use Rattle.serde_json.specs.View.{view};
ghost use Rattle.plugin_messages.specs.Writable.{WhereSome, IsLocationWritable, IsSyntaxWritable, IsMacroWritable, ArePartsWritable, IsHostWritable};
ghost use Rattle.plugin_messages.specs.Written.{location_data, syntax_data, macro_data};
ghost use Rattle.plugin_messages.specs.RequestBytes.{parts_case, parts_shape, expand_data, load_data, host_data};

use crate::labels;
use crate::message::HostMessage;
use crate::request::{Location, MacroRef, Parts, Syntax};
use crate::table::Shape;
use crate::writing::fields::{capability, case, object, text, word};
use serde_json::Value;
use std::alloc::{AllocError, Global};
use swift_base::Text;
use unique_names::Role;

fn location(alloc: Global, location: &Location) -> Result<Value, AllocError>
    requires { IsLocationWritable location.now }
    ensures { IfOk result (λ v. view v ≡ location_data location.now) }
{
    let values = vec![in alloc;
        Some(text(alloc, &location.file_id)?),
        Some(text(alloc, &location.file_name)?),
        Some(Value::from(location.offset)),
        Some(Value::from(location.line)),
        Some(Value::from(location.column)),
    ]?;
    object(alloc, Shape::Location, values)
}

fn location_if(alloc: Global, found: &Option<Location>) -> Result<Option<Value>, AllocError>
    requires { WhereSome IsLocationWritable found.now }
    ensures { IfOk result (λ v. option_map view v ≡ option_map location_data found.now) }
{
    match found {
        Some(found) => Ok(Some(location(alloc, found)?)),
        None => Ok(None),
    }
}

fn syntax(alloc: Global, syntax: &Syntax) -> Result<Value, AllocError>
    requires { IsSyntaxWritable syntax.now }
    ensures { IfOk result (λ v. view v ≡ syntax_data syntax.now) }
{
    let values = vec![in alloc;
        Some(word(alloc, syntax.kind.text())?),
        Some(text(alloc, &syntax.source)?),
        location_if(alloc, &syntax.location)?,
    ]?;
    object(alloc, Shape::Syntax, values)
}

fn syntax_if(alloc: Global, found: &Option<Syntax>) -> Result<Option<Value>, AllocError>
    requires { WhereSome IsSyntaxWritable found.now }
    ensures { IfOk result (λ v. option_map view v ≡ option_map syntax_data found.now) }
{
    match found {
        Some(found) => Ok(Some(syntax(alloc, found)?)),
        None => Ok(None),
    }
}

fn macro_ref(alloc: Global, target: &MacroRef) -> Result<Value, AllocError>
    requires { IsMacroWritable target.now }
    ensures { IfOk result (λ v. view v ≡ macro_data target.now) }
{
    let values = vec![in alloc;
        Some(text(alloc, &target.module)?),
        Some(text(alloc, &target.type_name)?),
        Some(text(alloc, &target.name)?),
    ]?;
    object(alloc, Shape::Macro, values)
}

fn expansion(
    alloc: Global,
    target: &MacroRef,
    role: Role,
    discriminator: &Text,
    parts: &Parts,
) -> Result<Value, AllocError>
    requires target { IsMacroWritable target.now }
    requires discriminator { IsUtf8 discriminator.now }
    requires parts { ArePartsWritable parts.now }
    ensures { IfOk result (λ v. view v ≡ expand_data target.now role discriminator.now parts.now) }
{
    let target = Some(macro_ref(alloc, target)?);
    let role = Some(word(alloc, role.text())?);
    let discriminator = Some(text(alloc, discriminator)?);
    match parts {
        Parts::Freestanding { syntax: part } => {
            let values = vec![in alloc; target, role, discriminator, Some(syntax(alloc, part)?)]?;
            object(alloc, Shape::Freestanding, values)
        }
        Parts::Attached {
            attribute,
            decl,
            parent,
            extended,
            conformances,
        } => {
            let values = vec![in alloc;
                target,
                role,
                discriminator,
                Some(syntax(alloc, attribute)?),
                Some(syntax(alloc, decl)?),
                syntax_if(alloc, parent)?,
                syntax_if(alloc, extended)?,
                syntax_if(alloc, conformances)?,
            ]?;
            object(alloc, Shape::Attached, values)
        }
    }
}

fn load(alloc: Global, path: &Text, module: &Text) -> Result<Value, AllocError>
    requires path { IsUtf8 path.now }
    requires module_name { IsUtf8 module.now }
    ensures { IfOk result (λ v. view v ≡ load_data path.now module.now) }
{
    let values = vec![in alloc; Some(text(alloc, path)?), Some(text(alloc, module)?)]?;
    object(alloc, Shape::Load, values)
}

#[tactic(auto, unfolding(crate::specs::RequestBytes::host_data))]
pub(crate) fn host_value(alloc: Global, message: &HostMessage) -> Result<Value, AllocError>
    requires { IsHostWritable message.now }
    ensures { IfOk result (λ v. view v ≡ host_data message.now) }
{
    match message {
        HostMessage::GetCapability { version } => case(
            alloc,
            labels::GET_CAPABILITY,
            capability(alloc, *version)?,
        ),
        HostMessage::Expand {
            target,
            role,
            discriminator,
            parts,
        } => case(
            alloc,
            parts_case(parts),
            expansion(alloc, target, *role, discriminator, parts)?,
        ),
        HostMessage::LoadLibrary { path, module } => case(
            alloc,
            labels::LOAD_PLUGIN_LIBRARY,
            load(alloc, path, module)?,
        ),
    }
}

fn parts_case(parts: &Parts) -> &'static str
    ensures { result.now ≡ parts_case parts.now }
{
    match parts {
        Parts::Freestanding { .. } => labels::EXPAND_FREESTANDING_MACRO,
        Parts::Attached { .. } => labels::EXPAND_ATTACHED_MACRO,
    }
}
