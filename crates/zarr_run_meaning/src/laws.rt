//! Laws of steps and runs. Each function does nothing: its contract is the law.
ghost use Rattle.zarr_run_meaning.specs.Laws.{LawfulGood, TableFound, NoArraysSound, OpensNone, ReadsFit, BeginsAsFill, NeverDamaged, StepsShow, StepsSound};
ghost use Rattle.zarr_run_meaning.specs.Laws.{EmptyOwned, StepsOwn, RunsOwn, OwnedHasNoChunks, NoChunksAreFill, CreatesCells, CreatesFill, OpensCells};
ghost use Rattle.zarr_run_meaning.specs.Laws.{RunsSound, OwnedBegins, OwnedRunsSound, ReopensAlike, ReopenedSound, ReopenedOwned, RunsReopen, RunsGoOn};
ghost use Rattle.zarr_run_meaning.specs.Laws.{RunsUndamaged, OwnedRunsUndamaged, RunsReopenOne};
ghost use Rattle.zarr_run_meaning.specs.Laws.{ReadsApart, ReadsAlike, WritesApart};
ghost use Rattle.zarr_run_meaning.specs.Rewrites.{StepsLeaveUnrelated, ChangesNoCell, RewritesCanon, KeepsCanon};
ghost use Rattle.zarr_run_meaning.specs.Rewrites.{RunsKeepCanon, SoundRunsKeepCanon, RunsLeaveCanon, CanonStays, RewrittenTwice};
ghost use Rattle.zarr_run_meaning.specs.Tight.{NoChunksAreTight, BeginsTight, CanonTight, StepsKeepTight, CompactsExactly};
ghost use Rattle.zarr_run_meaning.specs.Tight.{RunsKeepTight, OwnedRunsTight, RunsTight};
ghost use Rattle.zarr_run_meaning.specs.Laws.{SoundAlone, BeginsAlone, StepsKeepSound, AloneUndamaged, RunsPrint, ReadsPrint};
ghost use Rattle.zarr_run_meaning.specs.Workers.{WorkersAlike};

/// Whatever is stored, there is a table of the cells that it shows.
pub fn table_found()
    ensures { TableFound }
{}

/// Where the caller's codecs are lawful, the documents that open are good.
pub fn lawful_good()
    ensures { LawfulGood }
{}

/// Where no array is held all is sound, whatever is stored.
pub fn no_arrays_sound()
    ensures { NoArraysSound }
{}

/// Over an empty store no key is foreign.
pub fn empty_owned()
    ensures { EmptyOwned }
{}

/// A step makes no key foreign.
pub fn steps_own()
    ensures { StepsOwn }
{}

/// A run makes no key foreign.
pub fn runs_own()
    ensures { RunsOwn }
{}

/// Where no key under a path is foreign, and no array is held at a related one, no chunk of it has
/// a value.
pub fn owned_has_no_chunks()
    ensures { OwnedHasNoChunks }
{}

/// In a sound world no array is opened where none is held and the keys of its documents aren't
/// foreign, nor is a document found there that does not open.
pub fn opens_none()
    ensures { OpensNone }
{}

/// In a sound world no read, compaction or rewrite is refused because a chunk does not fit its
/// codecs.
pub fn reads_fit()
    ensures { ReadsFit }
{}

/// Where nothing is stored for a chunk, an array begins as fill.
pub fn begins_as_fill()
    ensures { BeginsAsFill }
{}

/// Where no chunk has a value, what is stored stands for the fill value at each place.
pub fn no_chunks_are_fill()
    ensures { NoChunksAreFill }
{}

/// An array that is created begins with the cells that its chunks stand for that were left from
/// before.
pub fn creates_cells()
    ensures { CreatesCells }
{}

/// Where no chunk has a value, an array that is created begins as fill.
pub fn creates_fill()
    ensures { CreatesFill }
{}

/// A reopening at a path where no array is held begins an array with the document that is stored,
/// and with the cells that its stored chunks stand for.
pub fn opens_cells()
    ensures { OpensCells }
{}

/// In a sound world nothing is refused for damage, or for a document that has changed.
pub fn never_damaged()
    ensures { NeverDamaged }
{}

/// A step keeps that each array says what its tree says, and that its stored chunks show only its
/// table's cells, whatever bytes are stored.
pub fn steps_show()
    ensures { StepsShow }
{}

/// A step leads from a sound world to a sound one, where it begins an array only over chunks that
/// stand for cells.
pub fn steps_sound()
    ensures { StepsSound }
{}

/// A run of such steps leads from a sound world to a sound one.
pub fn runs_sound()
    ensures { RunsSound }
{}

/// A step is such a one, where none of the keys that its command may begin an array over is
/// foreign, and a create that is done names a faithful document.
pub fn owned_begins()
    ensures { OwnedBegins }
{}

/// A run of such commands leads from a sound world to a sound one.
pub fn owned_runs_sound()
    ensures { OwnedRunsSound }
{}

/// In a run from a sound world in which each array begins over chunks that stand for cells, no
/// command is refused for damage or for a document that has changed, and no read, compaction or
/// rewrite because a chunk does not fit its codecs.
pub fn runs_undamaged()
    ensures { RunsUndamaged }
{}

/// Nor is one in a run where none of the keys that its commands may begin an array over is foreign.
pub fn owned_runs_undamaged()
    ensures { OwnedRunsUndamaged }
{}

/// An array that was sound when a session was closed is opened by another one with its document and
/// its cells, whatever is stored for the others, running out of memory and refused store calls
/// aside.
pub fn reopens_alike()
    ensures { ReopensAlike }
{}

/// A world whose arrays are those of a sound one, or some of them, opened again so, is sound.
pub fn reopened_sound()
    ensures { ReopenedSound }
{}

/// Once all of them are held again, no key is foreign that wasn't.
pub fn reopened_owned()
    ensures { ReopenedOwned }
{}

/// A session over the store of another one, whatever else that store holds: where it reopens paths
/// that were held, each answer is that it is done, running out of memory and refused store calls
/// aside, the arrays have the documents and the cells that they had, and all is sound.
pub fn runs_reopen()
    ensures { RunsReopen }
{}

/// A session over the store of another one, in which one array was sound: each reopening of its
/// path is done, whatever is stored for the others and whatever is done to them, running out of
/// memory and refused store calls aside, and the array has its document and its cells.
pub fn runs_reopen_one()
    ensures { RunsReopenOne }
{}

/// A run is one of its first commands, and then one of the others.
pub fn runs_go_on()
    ensures { RunsGoOn }
{}

/// In a sound world each array is sound alone.
pub fn sound_alone()
    ensures { SoundAlone }
{}

/// An array that begins over chunks that stand for cells is sound alone, whatever is stored for the
/// others.
pub fn begins_alone()
    ensures { BeginsAlone }
{}

/// A step that opens no array at a related path keeps an array sound alone, whatever is stored for
/// the others.
pub fn steps_keep_sound()
    ensures { StepsKeepSound }
{}

/// No command on an array that is sound alone is refused for damage, or for a document that has
/// changed.
pub fn alone_undamaged()
    ensures { AloneUndamaged }
{}

/// After any run, whatever was stored, the values of each array that is held are printed, strings
/// that are not UTF-8 aside.
pub fn runs_print()
    ensures { RunsPrint }
{}

/// A read is answered with values of its array's type, which are printed, strings that are not
/// UTF-8 aside.
pub fn reads_print()
    ensures { ReadsPrint }
{}

/// Whatever is stored, a read is answered in one way: with cells, or for damage, or because a chunk
/// does not fit its codecs.
pub fn reads_apart()
    ensures { ReadsApart }
{}

/// Whatever is stored, two reads of the same cells give the same, whatever their options.
pub fn reads_alike()
    ensures { ReadsAlike }
{}

/// Whatever is stored, a write that is done is not refused for damage, where it puts no part of a
/// chunk into a shard.
pub fn writes_apart()
    ensures { WritesApart }
{}

/// A command changes no key under a path that is unrelated to its own.
pub fn steps_leave_unrelated()
    ensures { StepsLeaveUnrelated }
{}

/// A rewrite, a compaction and a reopening change no cell of the array at their path, nor of one at
/// an unrelated path.
pub fn changes_no_cell()
    ensures { ChangesNoCell }
{}

/// A rewrite that stores no empty chunk leaves what storing the array's cells afresh leaves, where
/// a chunk's value depends on its cells alone; one that is refused leaves that for the first chunks
/// that had a key.
pub fn rewrites_canon()
    ensures { RewritesCanon }
{}

/// Reads, compactions, reopenings and commands at other paths keep it so.
pub fn keeps_canon()
    ensures { KeepsCanon }
{}

/// And so do runs of such commands, whatever is stored for the other arrays.
pub fn runs_keep_canon()
    ensures { RunsKeepCanon }
{}

/// And runs from a sound world in which each array begins over chunks that stand for cells.
pub fn sound_runs_keep_canon()
    ensures { SoundRunsKeepCanon }
{}

/// Over a store that began without keys: what such a rewrite left stands there at the end of the
/// run, as long as no command changed a cell of the array.
pub fn runs_leave_canon()
    ensures { RunsLeaveCanon }
{}

/// Where it is so, a rewrite changes no key and no byte.
pub fn canon_stays()
    ensures { CanonStays }
{}

/// A second rewrite changes no key and no byte, where between the two no command changed a cell of
/// the array.
pub fn rewritten_twice()
    ensures { RewrittenTwice }
{}

/// Where no chunk has a value, what is stored is tight: each slice of a shard is what encoding
/// writes for its subchunk.
pub fn no_chunks_are_tight()
    ensures { NoChunksAreTight }
{}

/// An array that begins over tight chunks is tight, whatever is stored for the others.
pub fn begins_tight()
    ensures { BeginsTight }
{}

/// What storing an array's cells afresh leaves is tight.
pub fn canon_tight()
    ensures { CanonTight }
{}

/// A step keeps an array tight where a chunk's value depends on its cells alone, whatever is
/// stored for the others: writes of parts into shards, refused commands and reopenings too.
pub fn steps_keep_tight()
    ensures { StepsKeepTight }
{}

/// A compaction of a tight array that writes a chunk anew leaves just what encoding the chunk's
/// cells writes.
pub fn compacts_exactly()
    ensures { CompactsExactly }
{}

/// A run keeps an array tight that is written row-major, as long as it is reopened so.
pub fn runs_keep_tight()
    ensures { RunsKeepTight }
{}

/// So does one from a sound world over keys that aren't foreign, and an array that begins in it so
/// is tight.
pub fn owned_runs_tight()
    ensures { OwnedRunsTight }
{}

/// Over a store that began without keys, an array whose creates and reopenings that are done ask
/// for row-major order is tight at the end of the run.
pub fn runs_tight()
    ensures { RunsTight }
{}

/// Workers change nothing that is answered or stored: a step of a command is one of the same
/// command with workers, or without.
pub fn workers_alike()
    ensures { WorkersAlike }
{}
