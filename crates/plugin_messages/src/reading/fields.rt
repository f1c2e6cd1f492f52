// A field of an object, by its label.
ghost use Rattle.std.specs.Prelude.{◌≡◌, ◌^◌, ◌<◌, map, IfOk, IfSome, option_map, option_and_then};
ghost use Rattle.std.specs.Str.{IsUtf8};
ghost use Rattle.serde_json.specs.Find.{as_str, as_array};
ghost use Rattle.serde_json.specs.View.{view, items_view};
ghost use Rattle.plugin_messages.specs.declared.message.Reason.TheVariants.{BadField};
ghost use Rattle.plugin_messages.specs.Answers.{AnswersAs, Refuses};
ghost use Rattle.unique_names.specs.Roles.{among};
ghost use Rattle.plugin_messages.specs.Writable.{WhereSome};
ghost use Rattle.plugin_messages.specs.Fields.{present, or_bad, whole_below, version_in, role_in, kind_in, severity_in, as_record};
ghost use Rattle.plugin_messages.specs.Taken.{text_at, text_if, flag_at, small_at, offset_at, version_at, role_at, kind_at, severity_at, inside, items_at};

use crate::message::{Reason, Refusal, SEVERITIES, Severity};
use crate::request::{KINDS, SyntaxKind};
use serde_json::Value;
use std::alloc::{AllocError, Global};
use swift_base::Text;
use unique_names::Role;

/// The field, where it is there and isn't null.
#[tactic(auto, unfolding(crate::specs::Fields::present))]
pub(crate) fn present<'a>(value: &'a Value, label: &str) -> Option<&'a Value>
    ensures { option_map (λ v. view v.now) result ≡ present label.now (view value.now) }
{
    let found = value.get(label)?;
    if found.is_null() { None } else { Some(found) }
}

pub(crate) fn bad_field(alloc: Global, label: &str) -> Refusal<Reason>
    ensures { Refuses result (BadField label.now) }
{
    match Text::from_bytes(alloc, label.as_bytes()) {
        Ok(label) => Refusal::Fault(Reason::BadField(label)),
        Err(_) => Refusal::Memory,
    }
}

/// The value, where it is an object.
pub(crate) fn record<'a>(
    alloc: Global,
    value: &'a Value,
    label: &str,
) -> Result<&'a Value, Refusal<Reason>>
    ensures { AnswersAs (λ v. view v.now) result (or_bad label.now (as_record (view value.now))) }
{
    if value.is_object() {
        Ok(value)
    } else {
        Err(bad_field(alloc, label))
    }
}

// ---- what a value spells

/// A whole number below 2 ^ 32.
#[tactic(auto, unfolding(crate::specs::Fields::whole_below))]
pub(crate) fn small_in(value: &Value) -> Option<u32>
    ensures { result ≡ whole_below (2 ^ 32) (view value.now) }
{
    let number = value.as_u64()?;
    if number < 4_294_967_296 {
        Some(number as u32)
    } else {
        None
    }
}

/// A whole number below 2 ^ 63.
#[tactic(auto, unfolding(crate::specs::Fields::whole_below))]
pub(crate) fn offset_in(value: &Value) -> Option<u64>
    ensures offset { result ≡ whole_below (2 ^ 63) (view value.now) }
    ensures below { IfSome result (λ n. n < 2 ^ 63) }
{
    let number = value.as_u64()?;
    if number < 9_223_372_036_854_775_808 {
        Some(number)
    } else {
        None
    }
}

#[tactic(auto, unfolding(crate::specs::Fields::version_in))]
pub(crate) fn version_in(value: &Value) -> Option<i64>
    ensures { result ≡ version_in (view value.now) }
{
    value.as_i64()
}

#[tactic(auto, unfolding(crate::specs::Fields::role_in))]
pub(crate) fn role_in(value: &Value) -> Option<Role>
    ensures { result ≡ role_in (view value.now) }
{
    Role::of_text(value.as_str()?)
}

#[tactic(auto, unfolding(crate::specs::Fields::kind_in))]
pub(crate) fn kind_in(value: &Value) -> Option<SyntaxKind>
    ensures { result ≡ kind_in (view value.now) }
{
    named(&KINDS, value.as_str()?)
}

#[tactic(auto, unfolding(crate::specs::Fields::severity_in))]
pub(crate) fn severity_in(value: &Value) -> Option<Severity>
    ensures { result ≡ severity_in (view value.now) }
{
    named(&SEVERITIES, value.as_str()?)
}

// What the first of these rows that has this text is for.
fn named<T: Copy>(rows: &[(T, &str)], text: &str) -> Option<T>
    ensures { result ≡ among (λ row. row.0) (λ row. row.1.now) rows.now text.now }
{
    let (row, rest) = rows.split_first()?;
    if row.1 == text {
        Some(row.0)
    } else {
        named(rest, text)
    }
}

// ---- the value at a label, where the check of the object passed

fn text_in<'a>(value: &'a Value, label: &str) -> Option<&'a str>
    ensures { option_map (λ s. s.now) result ≡ option_and_then as_str (present label.now (view value.now)) }
{
    present(value, label)?.as_str()
}

#[tactic(auto, unfolding(crate::specs::Taken::taken))]
pub(crate) fn text_at(alloc: Global, value: &Value, label: &str) -> Result<Text, AllocError>
    ensures text { IfOk result (λ t. t ≡ text_at label.now (view value.now)) }
    ensures utf8 { IfOk result IsUtf8 }
{
    match text_in(value, label) {
        Some(text) => Text::from_bytes(alloc, text.as_bytes()),
        None => Text::from_bytes(alloc, "".as_bytes()),
    }
}

#[tactic(auto, unfolding(crate::specs::Taken::text_if))]
pub(crate) fn text_if(alloc: Global, value: &Value, label: &str) -> Result<Option<Text>, AllocError>
    ensures text { IfOk result (λ t. t ≡ text_if label.now (view value.now)) }
    ensures utf8 { IfOk result (WhereSome IsUtf8) }
{
    match text_in(value, label) {
        Some(text) => Ok(Some(Text::from_bytes(alloc, text.as_bytes())?)),
        None => Ok(None),
    }
}

#[tactic(auto, unfolding(crate::specs::Taken::taken))]
pub(crate) fn flag_at(value: &Value, label: &str) -> bool
    ensures { result ≡ flag_at label.now (view value.now) }
{
    match present(value, label) {
        Some(found) => found.as_bool().unwrap_or(false),
        None => false,
    }
}

#[tactic(auto, unfolding(crate::specs::Taken::taken))]
pub(crate) fn small_at(value: &Value, label: &str) -> u32
    ensures { result ≡ small_at label.now (view value.now) }
{
    match present(value, label) {
        Some(found) => small_in(found).unwrap_or(0),
        None => 0,
    }
}

#[tactic(auto, unfolding(crate::specs::Taken::taken))]
pub(crate) fn offset_at(value: &Value, label: &str) -> u64
    ensures offset { result ≡ offset_at label.now (view value.now) }
    ensures below { result < 2 ^ 63 }
{
    match present(value, label) {
        Some(found) => offset_in(found).unwrap_or(0),
        None => 0,
    }
}

#[tactic(auto, unfolding(crate::specs::Taken::taken))]
pub(crate) fn version_at(value: &Value, label: &str) -> i64
    ensures { result ≡ version_at label.now (view value.now) }
{
    match present(value, label) {
        Some(found) => version_in(found).unwrap_or(0),
        None => 0,
    }
}

#[tactic(auto, unfolding(crate::specs::Taken::taken))]
pub(crate) fn role_at(value: &Value, label: &str) -> Role
    ensures { result ≡ role_at label.now (view value.now) }
{
    match present(value, label) {
        Some(found) => role_in(found).unwrap_or(Role::Expression),
        None => Role::Expression,
    }
}

#[tactic(auto, unfolding(crate::specs::Taken::taken))]
pub(crate) fn kind_at(value: &Value, label: &str) -> SyntaxKind
    ensures { result ≡ kind_at label.now (view value.now) }
{
    match present(value, label) {
        Some(found) => kind_in(found).unwrap_or(SyntaxKind::Declaration),
        None => SyntaxKind::Declaration,
    }
}

#[tactic(auto, unfolding(crate::specs::Taken::taken))]
pub(crate) fn severity_at(value: &Value, label: &str) -> Severity
    ensures { result ≡ severity_at label.now (view value.now) }
{
    match present(value, label) {
        Some(found) => severity_in(found).unwrap_or(Severity::Error),
        None => Severity::Error,
    }
}

/// The object at a label.
#[tactic(auto, unfolding(crate::specs::Taken::inside))]
pub(crate) fn inside<'a>(value: &'a Value, label: &str) -> &'a Value
    ensures { view result.now ≡ inside label.now (view value.now) }
{
    match present(value, label) {
        Some(found) => found,
        None => value,
    }
}

fn array_in<'a>(value: &'a Value, label: &str) -> Option<&'a Vec<Value>>
    ensures { option_map (λ v. items_view v.now.items) result ≡ option_and_then as_array (present label.now (view value.now)) }
{
    present(value, label)?.as_array()
}

/// The items of the array at a label.
#[tactic(auto, unfolding(crate::specs::Taken::items_at, crate::specs::Taken::taken, crate::specs::Fields::list_of), using(crate::proofs::Checks::list_of_items_of))]
pub(crate) fn items_at<'a>(value: &'a Value, label: &str) -> &'a [Value]
    ensures { map view result.now ≡ items_at label.now (view value.now) }
{
    match array_in(value, label) {
        Some(items) => items.as_slice(),
        None => &[],
    }
}
