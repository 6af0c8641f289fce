//! Metadata made by its constructors, its members and its refusals, with values typed in by hand.
use crate::samples::{is_written, says};
use serde_json::{Map, Value};
use std::alloc::{AllocError, Global};
use zarr_grids::{MetadataV3, PluginCreateError};

const REGULAR: &str = r#"{"name":"regular","configuration":{"chunk_shape":[2,2]}}"#;

const BYTES: &str = r#""bytes""#;

const CONFIGURED: &str = r#"{"configuration":{},"name":"x"}"#;

/// Whether metadata has a name, has to be understood, and has a configuration of one member.
fn has_one_member(alloc: Global, text: &str, name: &str) -> Result<bool, PluginCreateError> {
    let metadata = MetadataV3::from_text(alloc, text)?;
    match metadata.configuration() {
        Some(configuration) => Ok(
            configuration.len() == 1 && metadata.name() == name && metadata.must_understand(),
        ),
        None => Ok(false),
    }
}

#[test]
fn metadata_has_a_name_and_a_configuration(rt: HostRuntime) {
    assert!(rt; has_one_member(rt.alloc(), REGULAR, "regular") == Ok(true));
}

/// Whether metadata of a name is written as it, and after a change of the name as the other one.
fn is_named(
    alloc: Global,
    (name, text): (&str, &str),
    (other, changed): (&str, &str),
) -> Result<bool, AllocError> {
    let mut metadata = MetadataV3::new(String::from_str(alloc, name)?);
    if !is_written(alloc, &metadata, text)? {
        return Ok(false);
    }
    metadata.set_name(String::from_str(alloc, other)?);
    is_written(alloc, &metadata, changed)
}

#[test]
fn metadata_is_made_of_a_name(rt: HostRuntime) {
    let named = is_named(rt.alloc(), ("bytes", BYTES), ("vlen", r#""vlen""#));
    assert!(rt; matches!(named, Ok(true)));
}

/// Whether metadata of this name with no member is written as this text.
fn is_configured(alloc: Global, name: &str, want: &str) -> Result<bool, AllocError> {
    let name = String::from_str(alloc, name)?;
    let metadata = MetadataV3::new_with_configuration(name, Map::new(alloc));
    is_written(alloc, &metadata, want)
}

#[test]
fn metadata_is_made_of_a_name_and_a_configuration(rt: HostRuntime) {
    assert!(rt; matches!(is_configured(rt.alloc(), "x", CONFIGURED), Ok(true)));
}

/// The value that a text says.
fn value_of(alloc: Global, text: &str) -> Result<Value, PluginCreateError> {
    match Value::from_str(alloc, text) {
        Ok(value) => Ok(value),
        Err(_) => Err(PluginCreateError::Other),
    }
}

/// Whether the metadata that a value is has to be understood; `None` where it is none.
fn is_to_be_understood(alloc: Global, text: &str) -> Result<Option<bool>, PluginCreateError> {
    match MetadataV3::from_value(alloc, &value_of(alloc, text)?)? {
        Some(metadata) => Ok(Some(metadata.must_understand())),
        None => Ok(None),
    }
}

#[test]
fn metadata_is_read_of_a_value(rt: HostRuntime) {
    let read = is_to_be_understood(rt.alloc(), r#"{"name":"x","must_understand":false}"#);
    assert!(rt; read == Ok(Some(false)));
    assert!(rt; is_to_be_understood(rt.alloc(), "null") == Ok(None));
}

/// Refusals, and how they are said.
const SAID: [(PluginCreateError, &str); 5] = [
    (
        PluginCreateError::NameUnsupported,
        "the name is not supported",
    ),
    (
        PluginCreateError::MetadataInvalid,
        "the metadata is not valid",
    ),
    (PluginCreateError::TooDeep, "the metadata nests too deep"),
    (PluginCreateError::Memory, "out of memory"),
    (PluginCreateError::Other, "the metadata is refused"),
];

/// The words of the first of these refusals that is said in others.
fn first_unsaid<'x>(alloc: Global, rows: &[(PluginCreateError, &'x str)]) -> Option<&'x str> {
    for (error, want) in rows {
        if !matches!(says(alloc, error, want), Ok(true)) {
            return Some(want);
        }
    }
    None
}

#[test]
fn a_refusal_of_metadata_is_said(rt: HostRuntime) {
    assert!(rt; first_unsaid(rt.alloc(), &SAID) == None);
}
