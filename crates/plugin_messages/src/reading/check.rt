// The check of an object against its rows: the first reason, in their order, inward before the next row.
ghost use Rattle.std.specs.Prelude.{◌≡◌, map};
ghost use Rattle.serde_json.specs.View.{view};
ghost use Rattle.plugin_messages.specs.Answers.{Answers};
ghost use Rattle.plugin_messages.specs.Fields.{present};
ghost use Rattle.plugin_messages.specs.Checked.{passed, all_checked, value_checked, absent_checked, found_checked, rows_checked, object_checked};
ghost use Rattle.plugin_messages.specs.Rows.{rows_of};

use crate::message::{Reason, Refusal};
use crate::reading::fields::{
    bad_field, kind_in, offset_in, present, record, role_in, severity_in, small_in, version_in,
};
use crate::table::{DEEPEST, Presence, Row, Shape, Sort, rows_of};
use serde_json::Value;
use std::alloc::Global;

/// The first reason against the labels of a case.
pub(crate) fn check(alloc: Global, shape: Shape, value: &Value) -> Result<(), Refusal<Reason>>
    ensures { Answers result (rows_checked (object_checked DEEPEST) (rows_of shape) (view value.now)) }
{
    check_rows(alloc, DEEPEST, rows_of(shape), value)
}

fn passed(alloc: Global, label: &str, holds: bool) -> Result<(), Refusal<Reason>>
    ensures { Answers result (passed label.now holds) }
{
    if holds {
        Ok(())
    } else {
        Err(bad_field(alloc, label))
    }
}

#[cycle(check)]
#[tactic(auto, unfolding(crate::specs::Checked::value_checked))]
fn check_value(
    alloc: Global,
    depth: usize,
    sort: Sort,
    label: &str,
    value: &Value,
) -> Result<(), Refusal<Reason>>
    ensures { Answers result (value_checked (object_checked depth) sort label.now (view value.now)) }
{
    match sort {
        Sort::Text => passed(alloc, label, value.as_str().is_some()),
        Sort::Flag => passed(alloc, label, value.as_bool().is_some()),
        Sort::Small => passed(alloc, label, small_in(value).is_some()),
        Sort::Offset => passed(alloc, label, offset_in(value).is_some()),
        Sort::Version => passed(alloc, label, version_in(value).is_some()),
        Sort::Role => passed(alloc, label, role_in(value).is_some()),
        Sort::Kind => passed(alloc, label, kind_in(value).is_some()),
        Sort::Severity => passed(alloc, label, severity_in(value).is_some()),
        Sort::Array => passed(alloc, label, value.as_array().is_some()),
        Sort::Object(shape) => check_object(alloc, depth, shape, label, value),
        Sort::Objects(shape) => match value.as_array() {
            Some(items) => check_items(alloc, depth, shape, label, items),
            None => Err(bad_field(alloc, label)),
        },
    }
}

#[cycle(check)]
fn check_items(
    alloc: Global,
    depth: usize,
    shape: Shape,
    label: &str,
    items: &[Value],
) -> Result<(), Refusal<Reason>>
    ensures { Answers result (all_checked (object_checked depth shape label.now) (map view items.now)) }
{
    'items: for item in items {
        check_object(alloc, depth, shape, label, item)?;
    }
    Ok(())
}

#[cycle(check)]
#[tactic(auto, unfolding(crate::specs::Checked::object_checked))]
fn check_object(
    alloc: Global,
    depth: usize,
    shape: Shape,
    label: &str,
    value: &Value,
) -> Result<(), Refusal<Reason>>
    ensures { Answers result (object_checked depth shape label.now (view value.now)) }
{
    let found = record(alloc, value, label)?;
    if depth == 0 {
        Ok(())
    } else {
        check_rows(alloc, depth - 1, rows_of(shape), found)
    }
}

/// The first reason against the labels of an object, in which objects stand in one another to this depth.
#[cycle(check)]
pub(crate) fn check_rows(
    alloc: Global,
    depth: usize,
    rows: &[Row],
    value: &Value,
) -> Result<(), Refusal<Reason>>
    ensures { Answers result (rows_checked (object_checked depth) (map (λ row. (row.0.now, row.1, row.2)) rows.now) (view value.now)) }
{
    'rows: for row in rows {
        check_row(alloc, depth, row.0, row.1, row.2, value)?;
    }
    Ok(())
}

#[cycle(check)]
fn check_row(
    alloc: Global,
    depth: usize,
    label: &str,
    sort: Sort,
    presence: Presence,
    value: &Value,
) -> Result<(), Refusal<Reason>>
    ensures { Answers result (found_checked (object_checked depth) (label.now, sort, presence) (present label.now (view value.now))) }
{
    match present(value, label) {
        Some(found) => check_value(alloc, depth, sort, label, found),
        None => absent(alloc, presence, label),
    }
}

fn absent(alloc: Global, presence: Presence, label: &str) -> Result<(), Refusal<Reason>>
    ensures { Answers result (absent_checked presence label.now) }
{
    match presence {
        Presence::Required => Err(bad_field(alloc, label)),
        Presence::Optional => Ok(()),
    }
}
