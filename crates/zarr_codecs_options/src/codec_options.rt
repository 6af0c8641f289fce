//! How values are stored and computed.

/// Options of a call that encodes or decodes; all are false by default.
#[derive(Clone, Copy, Debug, PartialEq, Eq)]
pub struct CodecOptions {
    /// Whether a chunk of fill values alone is stored; else its key is erased, unless the write may
    /// encode in part.
    pub store_empty_chunks: bool,
    /// Whether a write may encode in part.
    pub experimental_partial_encoding: bool,
    /// Whether pieces are mapped by several threads.
    pub workers: bool,
}

impl Default for CodecOptions {
    ghost use Rattle.std.specs.Prelude.{◌≡◌, false};

    ghost is_default = { λ options. options ≡ record {
      store_empty_chunks = false;
      experimental_partial_encoding = false;
      workers = false;
    } };

    fn default() -> Self {
        CodecOptions {
            store_empty_chunks: false,
            experimental_partial_encoding: false,
            workers: false,
        }
    }
}

impl CodecOptions {
    ghost use Rattle.std.specs.Prelude.{◌≡◌};

    /// Whether a chunk of fill values alone is stored.
    pub fn store_empty_chunks(&self) -> bool
        ensures { result ≡ self.now.store_empty_chunks }
    {
        self.store_empty_chunks
    }

    /// Says whether a chunk of fill values alone is stored, and gives the options back for more.
    pub fn set_store_empty_chunks(&mut self, store_empty_chunks: bool) -> &mut Self
        ensures same { result.ghost_name ≡ self.entry.ghost_name }
        ensures value { result.now ≡ record self.old { store_empty_chunks = store_empty_chunks } }
    {
        *self = self.with_store_empty_chunks(store_empty_chunks);
        self
    }

    /// The options with this said of chunks of fill values alone.
    pub fn with_store_empty_chunks(self, store_empty_chunks: bool) -> Self
        ensures { result ≡ record self { store_empty_chunks = store_empty_chunks } }
    {
        let mut options = self;
        options.store_empty_chunks = store_empty_chunks;
        options
    }

    /// Whether a write may encode in part.
    pub fn experimental_partial_encoding(&self) -> bool
        ensures { result ≡ self.now.experimental_partial_encoding }
    {
        self.experimental_partial_encoding
    }

    /// Says whether a write may encode in part, and gives the options back for more.
    pub fn set_experimental_partial_encoding(
        &mut self,
        experimental_partial_encoding: bool,
    ) -> &mut Self
        ensures same { result.ghost_name ≡ self.entry.ghost_name }
        ensures value { result.now
            ≡ record self.old { experimental_partial_encoding = experimental_partial_encoding } }
    {
        *self = self.with_experimental_partial_encoding(experimental_partial_encoding);
        self
    }

    /// The options with this said of writes that encode in part.
    pub fn with_experimental_partial_encoding(self, experimental_partial_encoding: bool) -> Self
        ensures { result
            ≡ record self { experimental_partial_encoding = experimental_partial_encoding } }
    {
        let mut options = self;
        options.experimental_partial_encoding = experimental_partial_encoding;
        options
    }

    /// Whether pieces are mapped by several threads.
    pub fn workers(&self) -> bool
        ensures { result ≡ self.now.workers }
    {
        self.workers
    }

    /// Says whether pieces are mapped by several threads, and gives the options back for more.
    pub fn set_workers(&mut self, workers: bool) -> &mut Self
        ensures same { result.ghost_name ≡ self.entry.ghost_name }
        ensures value { result.now ≡ record self.old { workers = workers } }
    {
        *self = self.with_workers(workers);
        self
    }

    /// The options with this said of several threads.
    pub fn with_workers(self, workers: bool) -> Self
        ensures { result ≡ record self { workers = workers } }
    {
        let mut options = self;
        options.workers = workers;
        options
    }
}
