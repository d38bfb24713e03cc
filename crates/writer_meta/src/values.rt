//! What each value of a document may be, and what it stands for.
ghost use Rattle.std.specs.Prelude.{◌≡◌, false, option_map};
ghost use Rattle.std.specs.List.{list_all};
ghost use Rattle.serde_json.specs.View.{view};
ghost use Rattle.writer_meta.specs.Values.{is_printable, is_writer_name, has_backslash, is_component_name, has_double_from, is_path, is_freeze_timeout, class_value, name_value, level_value, usage_value, source_value, freeze_timeout_value, kind_value, path_value, component_name_value, selectable_value};

use serde_json::Value;
use tick_limits::DEFAULT_FREEZE;
use uuid::Uuid;
use vss_names::{ComponentType, Level, SourceKind, Usage};

const MOST_WRITER_NAME: usize = 128;

const MOST_COMPONENT_NAME: usize = 64;

const MOST_PATH: usize = 255;
/// No table has a greater number.
const MOST_NUMBER: u64 = 4;

fn is_printable(byte: u8) -> bool
    ensures { result ≡ is_printable byte }
{
    32 <= byte && byte <= 126
}

fn are_printable(bytes: &[u8]) -> bool
    ensures { result ≡ list_all is_printable bytes.now }
{
    bytes.iter().all(|byte| is_printable(*byte))
}

fn has_backslash(name: &[u8]) -> bool
    ensures { result ≡ has_backslash name.now }
{
    name.contains(&b'\\')
}

pub(crate) fn is_writer_name(name: &[u8]) -> bool
    ensures { result ≡ is_writer_name name.now }
{
    1 <= name.len() && name.len() <= MOST_WRITER_NAME && are_printable(name)
}

pub(crate) fn is_component_name(name: &[u8]) -> bool
    ensures { result ≡ is_component_name name.now }
{
    1 <= name.len()
        && name.len() <= MOST_COMPONENT_NAME
        && are_printable(name)
        && !has_backslash(name)
}

fn has_double_backslash(path: &[u8]) -> bool
    ensures { result ≡ has_double_from false path.now }
{
    let mut after = false;
    for byte in path {
        let is_backslash = *byte == b'\\';
        if after && is_backslash {
            return true;
        }
        after = is_backslash;
    }
    false
}

pub(crate) fn is_path(path: &[u8]) -> bool
    ensures { result ≡ is_path path.now }
{
    path.len() <= MOST_PATH
        && are_printable(path)
        && !path.starts_with(b"\\")
        && !path.ends_with(b"\\")
        && !has_double_backslash(path)
}

pub(crate) fn is_freeze_timeout(ticks: u32) -> bool
    ensures { result ≡ is_freeze_timeout ticks }
{
    1 <= ticks && ticks <= DEFAULT_FREEZE
}

pub(crate) fn class_of(value: &Value) -> Option<u128>
    ensures { result ≡ class_value (view value.now) }
{
    let text = value.as_str()?;
    match Uuid::parse_str(text) {
        Ok(class) => Some(class.as_u128()),
        Err(_) => None,
    }
}

pub(crate) fn name_of(value: &Value) -> Option<&[u8]>
    ensures { option_map (λ name. name.now) result ≡ name_value (view value.now) }
{
    let name = value.as_str()?.as_bytes();
    if is_writer_name(name) {
        Some(name)
    } else {
        None
    }
}

#[tactic(auto, using(crate::proofs::Lists::no_level_past))]
pub(crate) fn level_of(value: &Value) -> Option<Level>
    ensures { result ≡ level_value (view value.now) }
{
    let number = value.as_u64()?;
    if number > MOST_NUMBER {
        return None;
    }
    Level::of_number(number as u32)
}

#[tactic(auto, using(crate::proofs::Lists::no_usage_past))]
pub(crate) fn usage_of(value: &Value) -> Option<Usage>
    ensures { result ≡ usage_value (view value.now) }
{
    let number = value.as_u64()?;
    if number > MOST_NUMBER {
        return None;
    }
    Usage::of_number(number as u32)
}

#[tactic(auto, using(crate::proofs::Lists::no_source_kind_past))]
pub(crate) fn source_of(value: &Value) -> Option<SourceKind>
    ensures { result ≡ source_value (view value.now) }
{
    let number = value.as_u64()?;
    if number > MOST_NUMBER {
        return None;
    }
    SourceKind::of_number(number as u32)
}

pub(crate) fn freeze_timeout_of(value: &Value) -> Option<u32>
    ensures { result ≡ freeze_timeout_value (view value.now) }
{
    let ticks = value.as_u64()?;
    if 1 <= ticks && ticks <= u64::from(DEFAULT_FREEZE) {
        Some(ticks as u32)
    } else {
        None
    }
}

#[tactic(auto, using(crate::proofs::Lists::no_component_type_past))]
pub(crate) fn kind_of(value: &Value) -> Option<ComponentType>
    ensures { result ≡ kind_value (view value.now) }
{
    let number = value.as_u64()?;
    if number > MOST_NUMBER {
        return None;
    }
    ComponentType::of_number(number as u32)
}

pub(crate) fn path_of(value: &Value) -> Option<&[u8]>
    ensures { option_map (λ path. path.now) result ≡ path_value (view value.now) }
{
    let path = value.as_str()?.as_bytes();
    if is_path(path) { Some(path) } else { None }
}

pub(crate) fn component_name_of(value: &Value) -> Option<&[u8]>
    ensures { option_map (λ name. name.now) result ≡ component_name_value (view value.now) }
{
    let name = value.as_str()?.as_bytes();
    if is_component_name(name) {
        Some(name)
    } else {
        None
    }
}

pub(crate) fn selectable_of(value: &Value) -> Option<bool>
    ensures { result ≡ selectable_value (view value.now) }
{
    value.as_bool()
}
