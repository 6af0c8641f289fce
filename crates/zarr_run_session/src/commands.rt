//! Commands, one by one.
use crate::finding::find;
use crate::replies::{reply_to, reply_to_change, reply_to_compaction, reply_to_read};
use crate::session::Session;
use serde_json::Value;
use std::thread::Threads;
use zarr_array_storage::WritableStorageTraits;
use zarr_codecs_options::{CodecOptions, SubchunkWriteOrder};
use zarr_codecs_traits::BytesToBytesCodecTraits;
use zarr_grids_boxes::ArraySubset;
use zarr_run_boxes::{
    CellWrite, compact, erase_chunks, read_box, read_chunk, rewrite, write_box, write_chunk,
};
use zarr_run_commands::{CommandCells, Reply};
use zarr_run_opening::{create, reopen};

impl<S: WritableStorageTraits, B: BytesToBytesCodecTraits + Sync> Session<S, B> {
    ghost use Rattle.serde_json.specs.View.{view};
    ghost use Rattle.zarr_grids_boxes.specs.Subsets.{region_of};
    ghost use Rattle.zarr_array_meaning.specs.Writes.{allowed};
    ghost use Rattle.zarr_run_commands.specs.Commands.{answered, given};
    ghost use Rattle.zarr_run_meaning.specs.Requests as ask;
    ghost use Rattle.zarr_run_session.specs.Commands.{Ran};

    /// Creates an array.
    pub(crate) fn create(
        &mut self,
        path: &str,
        document: &Value,
        order: SubchunkWriteOrder,
    ) -> Reply
        ensures { Ran (S.ReadableStorageTraits, B.BytesToBytesCodecTraits) self.old
            (ask.create path.now (view document.now) order, answered result) self.new }
    {
        reply_to(create(
            self.alloc,
            &mut self.arrays,
            &mut self.store,
            path,
            document,
            order,
        ))
    }

    /// Reopens an array.
    pub(crate) fn reopen(&mut self, path: &str, order: SubchunkWriteOrder) -> Reply
        ensures { Ran (S.ReadableStorageTraits, B.BytesToBytesCodecTraits) self.old
            (ask.reopen path.now order, answered result) self.new }
    {
        reply_to(reopen(self.alloc, &mut self.arrays, &mut self.store, path, order))
    }

    /// Writes the cells of a box of the array at a path.
    pub(crate) fn write_box<R: Threads + Sync>(
        &mut self,
        rt: &R,
        path: &str,
        region: &ArraySubset,
        cells: &CommandCells,
        options: &CodecOptions,
    ) -> Reply
        ensures { Ran (S.ReadableStorageTraits, B.BytesToBytesCodecTraits) self.old (
          ask.write path.now (ask.in_box (region_of region.now)) (given cells.now)
              (allowed S.supports_set_partial options.now),
          answered result,
        ) self.new }
    {
        let array = match find(&self.arrays, path) {
            Ok(array) => array,
            Err(cause) => return Reply::Refused { cause, applied: 0 },
        };
        reply_to_change(write_box(
            rt,
            &mut self.rooms,
            &array.core,
            &mut self.store,
            region,
            CellWrite { cells, options },
        ))
    }

    /// Writes the cells of a chunk of the array at a path.
    pub(crate) fn write_chunk<R: Threads + Sync>(
        &mut self,
        rt: &R,
        path: &str,
        chunk: &[u64],
        cells: &CommandCells,
        options: &CodecOptions,
    ) -> Reply
        ensures { Ran (S.ReadableStorageTraits, B.BytesToBytesCodecTraits) self.old (
          ask.write path.now (ask.in_chunk chunk.now) (given cells.now)
              (allowed S.supports_set_partial options.now),
          answered result,
        ) self.new }
    {
        let array = match find(&self.arrays, path) {
            Ok(array) => array,
            Err(cause) => return Reply::Refused { cause, applied: 0 },
        };
        reply_to_change(write_chunk(
            rt,
            &mut self.rooms,
            &array.core,
            &mut self.store,
            chunk,
            CellWrite { cells, options },
        ))
    }

    /// Reads the cells of a box of the array at a path.
    pub(crate) fn read_box<R: Threads + Sync>(
        &mut self,
        rt: &R,
        path: &str,
        region: &ArraySubset,
        options: &CodecOptions,
    ) -> Reply
        ensures { Ran (S.ReadableStorageTraits, B.BytesToBytesCodecTraits) self.old (
          ask.read path.now (ask.in_box (region_of region.now)) options.now,
          answered result,
        ) self.new }
    {
        let array = match find(&self.arrays, path) {
            Ok(array) => array,
            Err(cause) => return Reply::Refused { cause, applied: 0 },
        };
        reply_to_read(read_box(
            rt,
            &mut self.rooms,
            &array.core,
            &mut self.store,
            region,
            options,
        ))
    }

    /// Reads the cells of a chunk of the array at a path.
    pub(crate) fn read_chunk<R: Threads + Sync>(
        &mut self,
        rt: &R,
        path: &str,
        chunk: &[u64],
        options: &CodecOptions,
    ) -> Reply
        ensures { Ran (S.ReadableStorageTraits, B.BytesToBytesCodecTraits) self.old
            (ask.read path.now (ask.in_chunk chunk.now) options.now, answered result) self.new }
    {
        let array = match find(&self.arrays, path) {
            Ok(array) => array,
            Err(cause) => return Reply::Refused { cause, applied: 0 },
        };
        reply_to_read(read_chunk(
            rt,
            &mut self.rooms,
            &array.core,
            &mut self.store,
            chunk,
            options,
        ))
    }

    /// Erases the chunks of a box of chunk indices of the array at a path.
    pub(crate) fn erase_chunks(&mut self, path: &str, chunks: &ArraySubset) -> Reply
        ensures { Ran (S.ReadableStorageTraits, B.BytesToBytesCodecTraits) self.old
            (ask.erase path.now (region_of chunks.now), answered result) self.new }
    {
        let array = match find(&self.arrays, path) {
            Ok(array) => array,
            Err(cause) => return Reply::Refused { cause, applied: 0 },
        };
        reply_to_change(erase_chunks(self.alloc, &array.core, &mut self.store, chunks))
    }

    /// Compacts a chunk of the array at a path.
    pub(crate) fn compact<R: Threads + Sync>(
        &mut self,
        rt: &R,
        path: &str,
        chunk: &[u64],
        options: &CodecOptions,
    ) -> Reply
        ensures { Ran (S.ReadableStorageTraits, B.BytesToBytesCodecTraits) self.old
            (ask.compact path.now chunk.now options.now, answered result) self.new }
    {
        let array = match find(&self.arrays, path) {
            Ok(array) => array,
            Err(cause) => return Reply::Refused { cause, applied: 0 },
        };
        reply_to_compaction(compact(
            rt,
            &mut self.rooms,
            &array.core,
            &mut self.store,
            chunk,
            options,
        ))
    }

    /// Stores the chunks anew that the array at a path has keys for.
    pub(crate) fn rewrite<R: Threads + Sync>(
        &mut self,
        rt: &R,
        path: &str,
        options: &CodecOptions,
    ) -> Reply
        ensures { Ran (S.ReadableStorageTraits, B.BytesToBytesCodecTraits) self.old
            (ask.rewrite path.now options.now, answered result) self.new }
    {
        let array = match find(&self.arrays, path) {
            Ok(array) => array,
            Err(cause) => return Reply::Refused { cause, applied: 0 },
        };
        reply_to_change(rewrite(rt, &mut self.rooms, &array.core, &mut self.store, options))
    }
}
