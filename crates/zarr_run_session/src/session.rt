//! A session: the arrays that are held, over a store.
use std::alloc::Global;
use std::collections::BTreeMap;
use std::thread::Threads;
use zarr_array_core::ChunkRooms;
use zarr_array_storage::WritableStorageTraits;
use zarr_codecs_traits::BytesToBytesCodecTraits;
use zarr_codecs_types::DataType;
use zarr_run_commands::{Command, Reply};
use zarr_run_opening::HeldArray;

/// Arrays in a store, by their paths. `S` is the store, and `B` the bytes to bytes codecs that its
/// documents may name. What is promised of commands holds for every store that is honest: that
/// answers by what it holds.
#[derive(Drop)]
pub struct Session<S, B: BytesToBytesCodecTraits> {
    pub(crate) alloc: Global,
    pub(crate) rooms: ChunkRooms,
    pub(crate) store: S,
    pub(crate) arrays: BTreeMap<String, HeldArray<B>>,
}

impl<S: WritableStorageTraits, B: BytesToBytesCodecTraits> Session<S, B> {
    ghost use Rattle.std.specs.Prelude.{◌≡◌, option_copied, option_map};
    ghost use Rattle.zarr_codecs_types.specs.Views.{type_of};
    ghost use Rattle.zarr_run_meaning.specs.Runs.{world_over};
    ghost use Rattle.zarr_run_opening.specs.Sessions.{IsIn};
    ghost use Rattle.zarr_run_session.specs.Sessions.{state_of, store_of, type_at};

    /// A session over a store, whatever it holds. It holds no array yet.
    pub fn new(alloc: Global, store: S) -> Self
        ensures begins { IsIn B.meaning B.reads (state_of S.held S.refused_calls result)
            (world_over (S.held store) (S.refused_calls store)) }
        ensures store { store_of result ≡ store }
    {
        Session {
            alloc,
            rooms: ChunkRooms::new(alloc),
            store,
            arrays: BTreeMap::new(alloc),
        }
    }

    /// The store, as the commands left it.
    pub fn close(self) -> S
        ensures { result ≡ store_of self }
    {
        self.store
    }

    /// The data type of the array that is held at a path, if there is one.
    pub fn data_type_at(&self, path: &str) -> Option<&DataType>
        ensures { option_map type_of (option_copied result)
            ≡ type_at B.meaning self.now path.now }
    {
        match self.arrays.get(path) {
            Some(array) => Some(array.core.elements().data_type()),
            None => None,
        }
    }
}

impl<S: WritableStorageTraits, B: BytesToBytesCodecTraits + Sync> Session<S, B> {
    ghost use Rattle.std.specs.Prelude.{◌≡◌};
    ghost use Rattle.zarr_run_commands.specs.Commands.{answered};
    ghost use Rattle.zarr_run_opening.specs.Sessions.{StepsFrom};
    ghost use Rattle.zarr_run_session.specs.Commands.{BoundsReads, BoundsWrites, OverHonest, Ran, exchange_over};
    ghost use Rattle.zarr_run_session.specs.Headline.{KeepsTables, KeepsAlone, RewritesAfresh, KeepsTight};
    ghost use Rattle.zarr_run_session.specs.Sessions.{CountsAnswer, store_of};

    /// Runs one command. A refused one changes at most what `applied` says, or stores a version 2
    /// document's attributes. Over an honest store each array whose codecs keep every bit answers
    /// as a table; a rewrite without empty chunks, in order C or without shards, leaves its cells
    /// stored afresh. `Store` counts one refused call, another refusal at most one.
    pub fn step<R: Threads + Sync>(&mut self, rt: &R, command: &Command) -> Reply
        ensures steps { OverHonest (S.ReadableStorageTraits, B.BytesToBytesCodecTraits) self.old
            (exchange_over S.supports_set_partial command.now result) self.new StepsFrom }
        // all tables and one alone, what rewrites leave, and tight layout
        ensures tables { OverHonest (S.ReadableStorageTraits, B.BytesToBytesCodecTraits) self.old
            (exchange_over S.supports_set_partial command.now result) self.new KeepsTables }
        ensures alone { OverHonest (S.ReadableStorageTraits, B.BytesToBytesCodecTraits) self.old
            (exchange_over S.supports_set_partial command.now result) self.new KeepsAlone }
        ensures canon { OverHonest (S.ReadableStorageTraits, B.BytesToBytesCodecTraits) self.old
            (exchange_over S.supports_set_partial command.now result) self.new RewritesAfresh }
        ensures tight { OverHonest (S.ReadableStorageTraits, B.BytesToBytesCodecTraits) self.old
            (exchange_over S.supports_set_partial command.now result) self.new KeepsTight }
        // the store
        ensures writes { BoundsWrites (S.ReadableStorageTraits, B.BytesToBytesCodecTraits) self.old
            (exchange_over S.supports_set_partial command.now result) self.new }
        ensures given { BoundsReads (S.ReadableStorageTraits, B.BytesToBytesCodecTraits) self.old
            (exchange_over S.supports_set_partial command.now result) self.new }
        ensures honest { S.is_honest (store_of self.new) ≡ S.is_honest (store_of self.old) }
        ensures refused { CountsAnswer (answered result)
            (S.refused_calls (store_of self.old)) (S.refused_calls (store_of self.new)) }
    {
        self.answer(rt, command)
    }

    /// The answer to a command, by the function of its kind.
    fn answer<R: Threads + Sync>(&mut self, rt: &R, command: &Command) -> Reply
        ensures { Ran (S.ReadableStorageTraits, B.BytesToBytesCodecTraits) self.old
            (exchange_over S.supports_set_partial command.now result) self.new }
    {
        match command {
            Command::Create {
                path,
                document,
                order,
            } => self.create(path.as_str(), document, *order),
            Command::Reopen { path, order } => self.reopen(path.as_str(), *order),
            Command::WriteBox {
                path,
                region,
                cells,
                options,
            } => self.write_box(rt, path.as_str(), region, cells, options),
            Command::WriteChunk {
                path,
                chunk,
                cells,
                options,
            } => self.write_chunk(rt, path.as_str(), chunk.as_slice(), cells, options),
            Command::ReadBox {
                path,
                region,
                options,
            } => self.read_box(rt, path.as_str(), region, options),
            Command::ReadChunk {
                path,
                chunk,
                options,
            } => self.read_chunk(rt, path.as_str(), chunk.as_slice(), options),
            Command::EraseChunks { path, chunks } => self.erase_chunks(path.as_str(), chunks),
            Command::Compact {
                path,
                chunk,
                options,
            } => self.compact(rt, path.as_str(), chunk.as_slice(), options),
            Command::Rewrite { path, options } => self.rewrite(rt, path.as_str(), options),
        }
    }
}
