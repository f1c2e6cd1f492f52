// The JSON values that messages are made of.
ghost use Rattle.std.specs.Prelude.{◌≡◌, [], ◌∷◌, ◌++◌, map, IfOk, option_map};
ghost use Rattle.std.specs.Str.{IsUtf8};
ghost use Rattle.serde_json.specs.Data.{string};
ghost use Rattle.serde_json.specs.View.{view, members_view};
ghost use Rattle.plugin_messages.specs.Written.{put_if, object_data, case_data, capability_data};

use crate::table::{Shape, rows_of};
use serde_json::{Map, Value};
use std::alloc::{AllocError, Global};
use swift_base::Text;

pub(crate) fn text(alloc: Global, text: &Text) -> Result<Value, AllocError>
    requires { IsUtf8 text.now }
    ensures { IfOk result (λ v. view v ≡ string text.now) }
{
    match str::from_utf8(text.bytes()) {
        Ok(text) => word(alloc, text),
        Err(_) => unreachable!(),
    }
}

pub(crate) fn word(alloc: Global, word: &str) -> Result<Value, AllocError>
    ensures { IfOk result (λ v. view v ≡ string word.now) }
{
    Ok(Value::String(String::from_str(alloc, word)?))
}

/// One field more, in the order of the keys' bytes.
pub(crate) fn put(
    fields: &mut Map<String, Value>,
    alloc: Global,
    label: &str,
    value: Value,
) -> Result<(), AllocError>
    ensures { IfOk result (λ _. members_view fields.new.entries ≡ put_if label.now (Some (view value)) (members_view fields.old.entries)) }
{
    serde_json::put(fields, alloc, label, value)
}

/// The field, where it has a value.
pub(crate) fn put_optional(
    fields: &mut Map<String, Value>,
    alloc: Global,
    label: &str,
    value: Option<Value>,
) -> Result<(), AllocError>
    ensures { IfOk result (λ _. members_view fields.new.entries ≡ put_if label.now (option_map view value) (members_view fields.old.entries)) }
{
    match value {
        Some(value) => put(fields, alloc, label, value),
        None => Ok(()),
    }
}

/// The value of a case: its name, and the object of its labels.
#[tactic(auto, unfolding(crate::specs::Written::case_data))]
pub(crate) fn case(alloc: Global, name: &str, labels: Value) -> Result<Value, AllocError>
    ensures { IfOk result (λ v. view v ≡ case_data name.now (view labels)) }
{
    let mut fields = Map::new(alloc);
    put(&mut fields, alloc, name, labels)?;
    Ok(Value::Object(fields))
}

/// The object of these values, in the order of its rows.
#[tactic(auto, unfolding(crate::specs::Written::object_data))]
pub(crate) fn object(
    alloc: Global,
    shape: Shape,
    values: Vec<Option<Value>>,
) -> Result<Value, AllocError>
    ensures { IfOk result (λ v. view v ≡ object_data shape (map (option_map view) values.items)) }
{
    let mut fields = Map::new(alloc);
    let rows = rows_of(shape);
    let mut index: usize = 0;
    'values: for value in values {
        if index >= rows.len() {
            return Ok(Value::Object(fields));
        }
        put_optional(&mut fields, alloc, rows[index].0, value)?;
        index += 1;
    }
    Ok(Value::Object(fields))
}

/// The labels with which a side announces its version.
pub(crate) fn capability(alloc: Global, version: i64) -> Result<Value, AllocError>
    ensures { IfOk result (λ v. view v ≡ capability_data version) }
{
    let announced = object(
        alloc,
        Shape::Capability,
        vec![in alloc; Some(Value::from(version))]?,
    )?;
    object(alloc, Shape::Greeting, vec![in alloc; Some(announced)]?)
}

pub(crate) fn push(items: &mut Vec<Value>, item: Value) -> Result<(), AllocError>
    ensures { IfOk result (λ _. items.new.items ≡ items.old.items ++ item ∷ []) }
{
    items.push(item)?;
    Ok(())
}
