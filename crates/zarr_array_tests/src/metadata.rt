//! How deep array documents may be. What else they say, and why they are refused, is in
//! calls/documents.calls.

use serde_json::{Map, Value, put};
use std::alloc::{AllocError, Global};
use zarr_array_metadata::{DocumentError, read_document};
use zarr_codecs_reverse::ReverseCodec;

/// Lists within lists, this many deep.
fn nested(alloc: Global, levels: u32) -> Result<Value, AllocError> {
    let mut value = Value::Null;
    for _ in 0..levels {
        value = in_list(alloc, value)?;
    }
    Ok(value)
}

/// A list of one value.
fn in_list(alloc: Global, value: Value) -> Result<Value, AllocError> {
    Ok(Value::Array(vec![in alloc; value]?))
}

/// Whether a document is too deep that has one member of this name, with so many lists within one
/// another.
fn is_too_deep(alloc: Global, name: &str, levels: u32) -> Result<bool, AllocError> {
    let mut members = Map::new(alloc);
    put(&mut members, alloc, name, nested(alloc, levels)?)?;
    let read = read_document::<ReverseCodec>(alloc, &Value::Object(members));
    Ok(matches!(read, Err(DocumentError::Depth)))
}

/// The document is an object, so 126 lists are 127 levels. Documents of so many levels are read in
/// calls/documents.calls; this one has none of the fields that it needs, and its depth is tested
/// first.
#[test]
fn a_document_is_at_most_127_levels_deep(rt: HostRuntime) {
    for name in ["attributes", "more"] {
        assert!(rt;
            matches!(is_too_deep(rt.alloc(), name, 126), Ok(false)),
            "{name}"
        );
        assert!(rt;
            matches!(is_too_deep(rt.alloc(), name, 127), Ok(true)),
            "{name}"
        );
    }
}
