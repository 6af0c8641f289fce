//! A store that refuses one call.
ghost use Rattle.std.specs.Prelude.{◌≡◌};
ghost use Rattle.zarr_array_meaning.specs.StoreMaps.{counted};
ghost use Rattle.zarr_array_storage.specs.RefusedCalls.{HandsOn, after_call, countdown_of, inner_of, own_refused, own_refused_after, refuses_next};

use crate::error::StorageError;
use crate::traits::{ReadableStorageTraits, WritableStorageTraits};
use zarr_codecs_traits::{ByteRange, ValuePatch};
use zarr_grids_keys::StoreKey;

/// A kind of calls of a store.
#[derive(Clone, Copy, Debug, PartialEq, Eq)]
pub enum CallKind {
    /// `get`, `get_partial`, `size_key` and `list`.
    Read,
    /// `set`, `set_partial` and `erase`.
    Write,
}

/// Which call is refused: after `left` calls of a kind, the last of these. At 0 none is.
#[derive(Clone, Copy, Debug, PartialEq, Eq)]
pub struct Countdown {
    pub kind: CallKind,
    pub left: u64,
}

impl Countdown {
    /// Counts a call, and says whether it is the one to refuse.
    fn count_call(&mut self, kind: CallKind) -> bool
        ensures refuses { result ≡ refuses_next self.old kind }
        ensures after { self.new ≡ after_call self.old kind }
    {
        if self.kind != kind || self.left == 0 {
            return false;
        }
        self.left -= 1;
        self.left == 0
    }
}

/// A store that refuses one call with `Io`, and hands every other call on to an inner store, by one
/// call of that store, whose answer it gives.
#[derive(Drop)]
pub struct RefusingStore<S> {
    inner: S,
    countdown: Countdown,
    refused: u128,
}

impl<S> RefusingStore<S> {
    /// A store that refuses the `nth` call of a kind from now on, counted from 1; at 0, none.
    pub fn new(inner: S, kind: CallKind, nth: u64) -> Self
        ensures inner { inner_of result ≡ inner }
        ensures countdown { countdown_of result ≡ record { kind = kind; left = nth } }
        ensures refused { own_refused result ≡ 0 }
    {
        RefusingStore {
            inner,
            countdown: Countdown { kind, left: nth },
            refused: 0,
        }
    }

    /// The inner store, as the calls left it.
    pub fn into_inner(self) -> S
        ensures { result ≡ inner_of self }
    {
        let RefusingStore {
            inner,
            countdown: _,
            refused: _,
        } = self;
        inner
    }

    /// Counts a call, and says whether it is refused.
    fn refuses(&mut self, kind: CallKind) -> bool
        ensures refuses { result ≡ refuses_next (countdown_of self.old) kind }
        ensures countdown { countdown_of self.new ≡ after_call (countdown_of self.old) kind }
        ensures refused { own_refused self.new ≡ own_refused_after self.old kind }
        ensures inner { inner_of self.new ≡ inner_of self.old }
    {
        let refuses = self.countdown.count_call(kind);
        if refuses {
            self.refused = self.refused.saturating_add(1);
        }
        refuses
    }
}

impl<S: ReadableStorageTraits> ReadableStorageTraits for RefusingStore<S> {
    ghost held = { λ s. S.held (inner_of s) };

    ghost is_honest = { λ s. S.is_honest (inner_of s) };

    ghost refused_calls = { λ s. counted (own_refused s) (S.refused_calls (inner_of s)) };

    ghost given_bytes = { λ s. S.given_bytes (inner_of s) };

    ghost accepted_writes = { λ s. S.accepted_writes (inner_of s) };

    ghost calls = { HandsOn S.calls };

    fn get(&mut self, key: &StoreKey) -> Result<Option<Vec<u8>>, StorageError> {
        if self.refuses(CallKind::Read) {
            return Err(StorageError::Io);
        }
        self.inner.get(key)
    }

    fn get_partial(
        &mut self,
        key: &StoreKey,
        ranges: &[ByteRange],
    ) -> Result<Option<Vec<Vec<u8>>>, StorageError> {
        if self.refuses(CallKind::Read) {
            return Err(StorageError::Io);
        }
        self.inner.get_partial(key, ranges)
    }

    fn size_key(&mut self, key: &StoreKey) -> Result<Option<u64>, StorageError> {
        if self.refuses(CallKind::Read) {
            return Err(StorageError::Io);
        }
        self.inner.size_key(key)
    }

    fn list(&mut self) -> Result<Vec<StoreKey>, StorageError> {
        if self.refuses(CallKind::Read) {
            return Err(StorageError::Io);
        }
        self.inner.list()
    }
}

impl<S: WritableStorageTraits> WritableStorageTraits for RefusingStore<S> {
    ghost supports_set_partial = { S.supports_set_partial };

    fn supports_set_partial(&self) -> bool {
        self.inner.supports_set_partial()
    }

    fn set(&mut self, key: &StoreKey, value: &[u8]) -> Result<(), StorageError> {
        if self.refuses(CallKind::Write) {
            return Err(StorageError::Io);
        }
        self.inner.set(key, value)
    }

    fn set_partial(
        &mut self,
        key: &StoreKey,
        patches: &[ValuePatch<'_>],
    ) -> Result<(), StorageError> {
        if self.refuses(CallKind::Write) {
            return Err(StorageError::Io);
        }
        self.inner.set_partial(key, patches)
    }

    fn erase(&mut self, key: &StoreKey) -> Result<(), StorageError> {
        if self.refuses(CallKind::Write) {
            return Err(StorageError::Io);
        }
        self.inner.erase(key)
    }
}
