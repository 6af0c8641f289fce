//! Chunk key encodings made by their constructors, with values typed in by hand. Encodings made of
//! metadata, and node paths, are in calls/keys.calls and in the scripts of `zarr_scarcity`.
use std::alloc::Global;
use zarr_grids::{
    ChunkKeyEncoding, ChunkKeyEncodingTraits, ChunkKeySeparator, DefaultChunkKeyEncoding,
    DefaultSuffixChunkKeyEncoding, PluginCreateError, V2ChunkKeyEncoding,
};

/// Whether an encoding gives the chunk (1, 2) this key.
fn encodes<K: ChunkKeyEncodingTraits>(alloc: Global, keys: &K, want: &str) -> bool {
    match keys.encode(alloc, &[1, 2]) {
        Ok(key) => key.as_str() == want,
        Err(_) => false,
    }
}

#[test]
fn any_encoding_names_chunks(rt: HostRuntime) {
    let v2 = V2ChunkKeyEncoding::new_slash();
    assert!(rt; encodes(rt.alloc(), &DefaultChunkKeyEncoding::new_dot(), "c.1.2"));
    assert!(rt; encodes(rt.alloc(), &v2, "1/2"));
    assert!(rt; encodes(rt.alloc(), &ChunkKeyEncoding::from(v2), "1/2"));
}

/// The encoding with dots and this suffix.
fn suffixed(alloc: Global, text: &str) -> Result<DefaultSuffixChunkKeyEncoding, PluginCreateError> {
    let suffix = String::from_str(alloc, text)?;
    match DefaultSuffixChunkKeyEncoding::new(ChunkKeySeparator::Dot, suffix) {
        Ok(keys) => Ok(keys),
        Err(_) => Err(PluginCreateError::Other),
    }
}

/// Whether the encoding with a suffix names a chunk, and is equal to its copy.
fn names_with_suffix(alloc: Global) -> Result<bool, PluginCreateError> {
    let keys = suffixed(alloc, "x")?;
    Ok(encodes(alloc, &keys, "c.1.2x") && keys.try_clone(alloc)? == keys)
}

#[test]
fn an_encoding_with_a_suffix_names_chunks(rt: HostRuntime) {
    assert!(rt; names_with_suffix(rt.alloc()) == Ok(true));
}
