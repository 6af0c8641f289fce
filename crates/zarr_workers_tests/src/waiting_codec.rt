//! A codec on bytes that waits for another thread.

use std::alloc::{AllocError, Global};
use std::sync::atomic::{AtomicU64, Ordering};
use std::thread;
use zarr_codecs::{
    BytesRepresentation, BytesToBytesCodecTraits, CodecError, MetadataV3, PluginCreateError,
};

/// The codec `x-wait`: it leaves bytes as they are. Encoding or decoding waits until a second piece
/// has come, and has no memory where none has after so many turns.
#[derive(Drop)]
pub(crate) struct WaitingCodec {
    arrived: AtomicU64,
    encoding_turns: u64,
    decoding_turns: u64,
}

impl WaitingCodec {
    /// A codec to which no piece has come, and of which what waits for no turn doesn't wait.
    pub(crate) fn new(encoding_turns: u64, decoding_turns: u64) -> WaitingCodec {
        WaitingCodec {
            arrived: AtomicU64::new(0),
            encoding_turns,
            decoding_turns,
        }
    }

    /// Waits for so many turns until a second piece has come; whether one has, or nothing waits.
    fn has_company(&self, turns: u64) -> bool {
        if turns == 0 {
            return true;
        }
        self.arrived.fetch_add(1, Ordering::SeqCst);
        for _ in 0..turns {
            if self.arrived.load(Ordering::SeqCst) >= 2 {
                return true;
            }
            thread::yield_now();
        }
        false
    }
}

impl BytesToBytesCodecTraits for WaitingCodec {
    ghost use Rattle.std.specs.Prelude.{refl};
    ghost use Rattle.zarr_workers_tests.specs.Waiting.{waiting, waiting_point, reads_waiting, reads_waiting_lawful, waiting_lawful};

    ghost meaning = { λ codec. waiting };

    ghost described = { λ codec. waiting_point };

    ghost reads = { reads_waiting };

    fn encode(&self, alloc: Global, bytes: &[u8]) -> Result<Vec<u8>, CodecError> {
        if !self.has_company(self.encoding_turns) {
            return Err(CodecError::Memory);
        }
        Ok(bytes.to_vec(alloc)?)
    }

    fn decode(&self, alloc: Global, bytes: &[u8]) -> Result<Vec<u8>, CodecError> {
        if !self.has_company(self.decoding_turns) {
            return Err(CodecError::Memory);
        }
        Ok(bytes.to_vec(alloc)?)
    }

    fn encoded_representation(
        &self,
        decoded: BytesRepresentation,
    ) -> Result<BytesRepresentation, CodecError> {
        Ok(decoded)
    }

    fn metadata(&self, alloc: Global) -> Result<MetadataV3, AllocError> {
        Ok(MetadataV3::new(String::from_str(alloc, "x-wait")?))
    }

    /// A codec that doesn't wait.
    fn create(_: Global, metadata: &MetadataV3) -> Result<Self, PluginCreateError> {
        if metadata.name() == "x-wait" {
            Ok(WaitingCodec::new(0, 0))
        } else {
            Err(PluginCreateError::NameUnsupported)
        }
    }

    ghost lawful = { λ codec. waiting_lawful };

    ghost reads_lawful = { reads_waiting_lawful };

    ghost reads_back = { λ codec. refl };
}
