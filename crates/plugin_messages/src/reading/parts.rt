// The parts of a request, whose labels passed their check.
ghost use Rattle.std.specs.Prelude.{◌≡◌, IfOk, option_map};
ghost use Rattle.serde_json.specs.View.{view};
ghost use Rattle.plugin_messages.specs.Writable.{WhereSome, IsLocationWritable, IsSyntaxWritable, IsMacroWritable, ArePartsWritable};
ghost use Rattle.plugin_messages.specs.Fields.{present};
ghost use Rattle.plugin_messages.specs.RequestParts.{location_of, syntax_of, macro_of, freestanding_of, attached_of};

use crate::labels;
use crate::reading::fields::{inside, kind_at, present, small_at, text_at};
use crate::request::{Location, MacroRef, Parts, Syntax};
use serde_json::Value;
use std::alloc::{AllocError, Global};

#[tactic(auto, unfolding(crate::specs::RequestParts::location_of))]
fn location(alloc: Global, value: &Value) -> Result<Location, AllocError>
    ensures location { IfOk result (λ l. l ≡ location_of (view value.now)) }
    ensures writable { IfOk result IsLocationWritable }
{
    Ok(Location {
        file_id: text_at(alloc, value, labels::FILE_ID)?,
        file_name: text_at(alloc, value, labels::FILE_NAME)?,
        offset: small_at(value, labels::OFFSET),
        line: small_at(value, labels::LINE),
        column: small_at(value, labels::COLUMN),
    })
}

fn location_if(alloc: Global, value: &Value, label: &str) -> Result<Option<Location>, AllocError>
    ensures location { IfOk result (λ l. l ≡ option_map location_of (present label.now (view value.now))) }
    ensures writable { IfOk result (WhereSome IsLocationWritable) }
{
    match present(value, label) {
        Some(found) => Ok(Some(location(alloc, found)?)),
        None => Ok(None),
    }
}

#[tactic(auto, unfolding(crate::specs::RequestParts::syntax_of))]
fn syntax(alloc: Global, value: &Value) -> Result<Syntax, AllocError>
    ensures syntax { IfOk result (λ s. s ≡ syntax_of (view value.now)) }
    ensures writable { IfOk result IsSyntaxWritable }
{
    Ok(Syntax {
        kind: kind_at(value, labels::KIND),
        source: text_at(alloc, value, labels::SOURCE)?,
        location: location_if(alloc, value, labels::LOCATION)?,
    })
}

fn syntax_if(alloc: Global, value: &Value, label: &str) -> Result<Option<Syntax>, AllocError>
    ensures syntax { IfOk result (λ s. s ≡ option_map syntax_of (present label.now (view value.now))) }
    ensures writable { IfOk result (WhereSome IsSyntaxWritable) }
{
    match present(value, label) {
        Some(found) => Ok(Some(syntax(alloc, found)?)),
        None => Ok(None),
    }
}

#[tactic(auto, unfolding(crate::specs::RequestParts::macro_of))]
pub(crate) fn macro_ref(alloc: Global, value: &Value) -> Result<MacroRef, AllocError>
    ensures target { IfOk result (λ m. m ≡ macro_of (view value.now)) }
    ensures writable { IfOk result IsMacroWritable }
{
    Ok(MacroRef {
        module: text_at(alloc, value, labels::MODULE_NAME)?,
        type_name: text_at(alloc, value, labels::TYPE_NAME)?,
        name: text_at(alloc, value, labels::NAME)?,
    })
}

#[tactic(auto, unfolding(crate::specs::RequestParts::freestanding_of))]
pub(crate) fn freestanding(alloc: Global, value: &Value) -> Result<Parts, AllocError>
    ensures parts { IfOk result (λ p. p ≡ freestanding_of (view value.now)) }
    ensures writable { IfOk result ArePartsWritable }
{
    Ok(Parts::Freestanding {
        syntax: syntax(alloc, inside(value, labels::SYNTAX))?,
    })
}

#[tactic(auto, unfolding(crate::specs::RequestParts::attached_of))]
pub(crate) fn attached(alloc: Global, value: &Value) -> Result<Parts, AllocError>
    ensures parts { IfOk result (λ p. p ≡ attached_of (view value.now)) }
    ensures writable { IfOk result ArePartsWritable }
{
    Ok(Parts::Attached {
        attribute: syntax(alloc, inside(value, labels::ATTRIBUTE_SYNTAX))?,
        decl: syntax(alloc, inside(value, labels::DECL_SYNTAX))?,
        parent: syntax_if(alloc, value, labels::PARENT_DECL_SYNTAX)?,
        extended: syntax_if(alloc, value, labels::EXTENDED_TYPE_SYNTAX)?,
        conformances: syntax_if(alloc, value, labels::CONFORMANCE_LIST_SYNTAX)?,
    })
}
