//! What a store promises.
ghost use Rattle.std.specs.Prelude.{◌≡◌, ℕ, Bool, false, Some, IsTrue, IfOk, IfSome, OnOk, OnErr, option_map, length};
ghost use Rattle.std.specs.FinMap as map;
ghost use Rattle.zarr_array_meaning.specs.StoreMaps.{StoreMap, counted};
ghost use Rattle.zarr_array_storage.specs.Calls as call;
ghost use Rattle.zarr_array_storage.specs.Calls.{Call};
ghost use Rattle.zarr_array_storage.specs.Ranges.{any_past_end, parts_at, patched_at};
ghost use Rattle.zarr_codecs_traits.specs.Patches.{any_too_far, patches_of};
ghost use Rattle.zarr_array_storage.specs.Refusals.{OnByteRange, refused_after};
ghost use Rattle.zarr_array_storage.specs.Stores.{HasBytesAt, parts_bytes, parts_size, value_bytes, value_size};

use crate::error::StorageError;
use zarr_codecs_traits::{ByteRange, ValuePatch};
use zarr_grids_keys::StoreKey;

/// A store that can be read (Zarr storage specification, "Abstract store interface"). An honest
/// one holds what it accepts, and reading changes nothing in what any store holds. Each call but
/// `lend` takes the store as `&mut`, so that it can count its refused calls (this project's
/// profile).
///
/// A call answers `Memory` where memory ran out. An honest store answers `InvalidByteRange` only
/// where the call's description says so. With any other error one more call is counted as refused.
pub trait ReadableStorageTraits {
    /// The value at each key. Of a store that isn't honest it says nothing.
    ghost held: { Self → StoreMap };

    /// Whether its calls answer by what it holds.
    ghost is_honest: { Self → Bool };

    /// How many calls were refused, but for want of memory or for a wrong byte range. At 2^128 - 1
    /// each count stands still.
    ghost refused_calls: { Self → ℕ };

    /// How many bytes `get` and `get_partial` gave.
    ghost given_bytes: { Self → ℕ };

    /// How many of its writing calls were accepted.
    ghost accepted_writes: { Self → ℕ };

    /// Whether a call with this answer may lead from the one store to the other. By it a store that
    /// hands calls on says which call it made of the store behind it. Where a store says nothing
    /// more of its calls, each may.
    ghost calls: { Self → Call → Self → Type 0 } = { λ _ _ _. Unit {0} };

    /// The value at a key, or `None` where it has none.
    fn get(&mut self, key: &StoreKey) -> Result<Option<Vec<u8>>, StorageError>
        ensures value { IsTrue (is_honest self.old) →
            IfOk result (λ found. value_bytes found ≡ map.get (held self.old) key.now) }
        ensures held { held self.new ≡ held self.old }
        ensures honest { is_honest self.new ≡ is_honest self.old }
        ensures refused { refused_calls self.new ≡ refused_after (refused_calls self.old) result }
        ensures byte_range { IsTrue (is_honest self.old) → OnByteRange result ⊥ }
        ensures given { IfOk result (λ found.
            given_bytes self.new ≡ counted (given_bytes self.old) (value_size found)) }
        ensures none_given { OnErr result (given_bytes self.new ≡ given_bytes self.old) }
        ensures accepted { accepted_writes self.new ≡ accepted_writes self.old }
        ensures calls { calls self.old (call.get key.now result) self.new };

    /// The value at a key where the store keeps it, to be read without a copy. `None` says nothing:
    /// then use `get`. Nothing is counted, and nothing is refused.
    fn lend(&self, key: &StoreKey) -> Option<&[u8]>
        ensures { IsTrue (is_honest self.now) →
            IfSome result (λ value. map.get (held self.now) key.now ≡ Some value.now) }
    {
        None
    }

    /// The bytes of the value at a key in each range, or `None` where it has no value. It is
    /// refused with `InvalidByteRange` where a range ends past the end of the value.
    fn get_partial(
        &mut self,
        key: &StoreKey,
        ranges: &[ByteRange],
    ) -> Result<Option<Vec<Vec<u8>>>, StorageError>
        ensures parts { IsTrue (is_honest self.old) → IfOk result
            (λ found. parts_bytes found ≡ parts_at (held self.old) key.now ranges.now) }
        ensures in_range { IsTrue (is_honest self.old) →
            OnOk result (any_past_end (held self.old) key.now ranges.now ≡ false) }
        ensures held { held self.new ≡ held self.old }
        ensures honest { is_honest self.new ≡ is_honest self.old }
        ensures refused { refused_calls self.new ≡ refused_after (refused_calls self.old) result }
        ensures byte_range { IsTrue (is_honest self.old) →
            OnByteRange result (IsTrue (any_past_end (held self.old) key.now ranges.now)) }
        ensures given { IfOk result (λ found.
            given_bytes self.new ≡ counted (given_bytes self.old) (parts_size found)) }
        ensures none_given { OnErr result (given_bytes self.new ≡ given_bytes self.old) }
        ensures accepted { accepted_writes self.new ≡ accepted_writes self.old }
        ensures calls { calls self.old (call.get_partial key.now ranges.now result) self.new };

    /// How many bytes the value at a key has, or `None` where it has no value.
    fn size_key(&mut self, key: &StoreKey) -> Result<Option<u64>, StorageError>
        ensures size { IsTrue (is_honest self.old) →
            IfOk result (λ size. size ≡ option_map length (map.get (held self.old) key.now)) }
        ensures bytes { IsTrue (is_honest self.old) →
            OnOk result (HasBytesAt (held self.old) key.now) }
        ensures held { held self.new ≡ held self.old }
        ensures honest { is_honest self.new ≡ is_honest self.old }
        ensures refused { refused_calls self.new ≡ refused_after (refused_calls self.old) result }
        ensures byte_range { IsTrue (is_honest self.old) → OnByteRange result ⊥ }
        ensures given { given_bytes self.new ≡ given_bytes self.old }
        ensures accepted { accepted_writes self.new ≡ accepted_writes self.old }
        ensures calls { calls self.old (call.size_key key.now result) self.new };

    /// The keys that have a value, in the order of their bytes.
    fn list(&mut self) -> Result<Vec<StoreKey>, StorageError>
        ensures keys { IsTrue (is_honest self.old) →
            IfOk result (λ keys. keys.items ≡ map.keys (held self.old)) }
        ensures held { held self.new ≡ held self.old }
        ensures honest { is_honest self.new ≡ is_honest self.old }
        ensures refused { refused_calls self.new ≡ refused_after (refused_calls self.old) result }
        ensures byte_range { IsTrue (is_honest self.old) → OnByteRange result ⊥ }
        ensures given { given_bytes self.new ≡ given_bytes self.old }
        ensures accepted { accepted_writes self.new ≡ accepted_writes self.old }
        ensures calls { calls self.old (call.list result) self.new };
}

/// A store that can also be written (Zarr storage specification, "Abstract store interface"). A
/// refused call changes nothing in what an honest store holds, and an accepted one changes no
/// other key.
pub trait WritableStorageTraits: ReadableStorageTraits {
    /// Whether stores of this type take ranges by `set_partial`: the same for each of them, at all
    /// times.
    ghost supports_set_partial: { Bool };

    /// Whether the store takes ranges by `set_partial`. Where it doesn't, read the value, change it
    /// and use `set`.
    fn supports_set_partial(&self) -> bool
        ensures { result ≡ supports_set_partial };

    /// Puts a value at a key, in place of the one that was there.
    fn set(&mut self, key: &StoreKey, value: &[u8]) -> Result<(), StorageError>
        ensures ok { IsTrue (Self.is_honest self.old) → OnOk result
            (Self.held self.new ≡ map.insert (Self.held self.old) key.now value.now) }
        ensures err { IsTrue (Self.is_honest self.old) →
            OnErr result (Self.held self.new ≡ Self.held self.old) }
        ensures honest { Self.is_honest self.new ≡ Self.is_honest self.old }
        ensures refused { Self.refused_calls self.new ≡
            refused_after (Self.refused_calls self.old) result }
        ensures byte_range { IsTrue (Self.is_honest self.old) → OnByteRange result ⊥ }
        ensures given { Self.given_bytes self.new ≡ Self.given_bytes self.old }
        ensures accepted { OnOk result
            (Self.accepted_writes self.new ≡ counted (Self.accepted_writes self.old) 1) }
        ensures none_accepted { OnErr result
            (Self.accepted_writes self.new ≡ Self.accepted_writes self.old) }
        ensures calls { Self.calls self.old (call.set key.now value.now result) self.new };

    /// Puts a value at a key, as `set` does. A store that keeps values in memory may keep this one,
    /// where `set` has to copy it.
    fn set_owned(&mut self, key: &StoreKey, value: Vec<u8>) -> Result<(), StorageError>
        ensures ok { IsTrue (Self.is_honest self.old) → OnOk result
            (Self.held self.new ≡ map.insert (Self.held self.old) key.now value.items) }
        ensures err { IsTrue (Self.is_honest self.old) →
            OnErr result (Self.held self.new ≡ Self.held self.old) }
        ensures honest { Self.is_honest self.new ≡ Self.is_honest self.old }
        ensures refused { Self.refused_calls self.new ≡
            refused_after (Self.refused_calls self.old) result }
        ensures byte_range { IsTrue (Self.is_honest self.old) → OnByteRange result ⊥ }
        ensures given { Self.given_bytes self.new ≡ Self.given_bytes self.old }
        ensures accepted { OnOk result
            (Self.accepted_writes self.new ≡ counted (Self.accepted_writes self.old) 1) }
        ensures none_accepted { OnErr result
            (Self.accepted_writes self.new ≡ Self.accepted_writes self.old) }
        ensures calls { Self.calls self.old (call.set key.now value.items result) self.new }
    {
        self.set(key, value.as_slice())
    }

    /// Writes several ranges into the value at a key, in their order: all, or none where it is
    /// refused. No value counts as empty, and zeros come where a range begins past the end. It is
    /// refused with `InvalidByteRange` where a range ends past 2^63 - 1 bytes.
    fn set_partial(
        &mut self,
        key: &StoreKey,
        patches: &[ValuePatch<'_>],
    ) -> Result<(), StorageError>
        ensures ok { IsTrue (Self.is_honest self.old) → OnOk result (Self.held self.new ≡ map.insert
            (Self.held self.old) key.now
            (patched_at (Self.held self.old) key.now (patches_of patches.now))) }
        ensures in_range { IsTrue (Self.is_honest self.old) →
            OnOk result (any_too_far (patches_of patches.now) ≡ false) }
        ensures err { IsTrue (Self.is_honest self.old) →
            OnErr result (Self.held self.new ≡ Self.held self.old) }
        ensures honest { Self.is_honest self.new ≡ Self.is_honest self.old }
        ensures refused { Self.refused_calls self.new ≡
            refused_after (Self.refused_calls self.old) result }
        ensures byte_range { IsTrue (Self.is_honest self.old) →
            OnByteRange result (IsTrue (any_too_far (patches_of patches.now))) }
        ensures given { Self.given_bytes self.new ≡ Self.given_bytes self.old }
        ensures accepted { OnOk result
            (Self.accepted_writes self.new ≡ counted (Self.accepted_writes self.old) 1) }
        ensures none_accepted { OnErr result
            (Self.accepted_writes self.new ≡ Self.accepted_writes self.old) }
        ensures calls { Self.calls self.old (call.set_partial key.now (patches_of patches.now) result) self.new };

    /// Takes the value at a key away. A key that has none is fine.
    fn erase(&mut self, key: &StoreKey) -> Result<(), StorageError>
        ensures ok { IsTrue (Self.is_honest self.old) →
            OnOk result (Self.held self.new ≡ map.remove (Self.held self.old) key.now) }
        ensures err { IsTrue (Self.is_honest self.old) →
            OnErr result (Self.held self.new ≡ Self.held self.old) }
        ensures honest { Self.is_honest self.new ≡ Self.is_honest self.old }
        ensures refused { Self.refused_calls self.new ≡
            refused_after (Self.refused_calls self.old) result }
        ensures byte_range { IsTrue (Self.is_honest self.old) → OnByteRange result ⊥ }
        ensures given { Self.given_bytes self.new ≡ Self.given_bytes self.old }
        ensures accepted { OnOk result
            (Self.accepted_writes self.new ≡ counted (Self.accepted_writes self.old) 1) }
        ensures none_accepted { OnErr result
            (Self.accepted_writes self.new ≡ Self.accepted_writes self.old) }
        ensures calls { Self.calls self.old (call.erase key.now result) self.new };
}

/// A store that can be read and written. Each one that has the two traits above is such a store.
pub trait ReadableWritableStorageTraits: WritableStorageTraits {}

impl<S: WritableStorageTraits> ReadableWritableStorageTraits for S {}
