//! Options read token by token, each of which is `true` or `false`.
ghost use Rattle.std.specs.Prelude.{◌≡◌, ◌<◌, Bool, length, Some, IfSome, OnSome};
ghost use Rattle.json.specs.Json.{members, value};
ghost use Rattle.serde_json.specs.Data.{Data, Members, no_members, put};
ghost use Rattle.serde_json.specs.Read.{converted, of_json, of_members};
ghost use Rattle.zarr_run_commands.specs.Lines.{options_in, options_of};
ghost use Rattle.zarr_run_commands.specs.LineCells.{reads};

use crate::cursor::Cursor;
use crate::field;
use zarr_codecs_options::CodecOptions;

/// Reads the value of the option with this name.
fn read_option(reader: &mut Cursor<'_>, name: &str, options: &mut CodecOptions) -> Option<()>
    ensures read { OnSome result ((workers : Bool) (ms : Members)
        → options_of workers ms ≡ Some options.old → (d : Data)
        × (converted of_json (value 125 reader.old) ≡ Some (d, reader.new))
        × (options_of workers (put name.now d ms) ≡ Some options.new)) }
    ensures shorter { OnSome result (length reader.new < length reader.old) }
{
    match name {
        "partial" => options.experimental_partial_encoding = reader.next_bool()?,
        "empty" => options.store_empty_chunks = reader.next_bool()?,
        "workers" => options.workers = reader.next_bool()?,
        _ => return None,
    }
    Some(())
}

/// The options of an object that has begun, with this value of `workers` where it isn't said.
fn read_members(reader: &mut Cursor<'_>, workers: bool) -> Option<CodecOptions>
    ensures read { IfSome result (λ options. (ms : Members)
        × (options_of workers ms ≡ Some options)
        × (converted (λ js. of_members js no_members)
        (members (value 125) (length reader.old) reader.old) ≡ Some (ms, reader.new))) }
    ensures shorter { OnSome result (length reader.new < length reader.old) }
{
    let mut options = field::no_options(workers);
    'members: while let Some(name) = reader.next_key()? {
        read_option(reader, name, &mut options)?;
    }
    Some(options)
}

/// The options that an object gives, with this value of `workers` where it gives none.
pub(crate) fn read_options(reader: &mut Cursor<'_>, workers: bool) -> Option<CodecOptions>
    ensures read { IfSome result
        (λ options. reads (options_in workers) reader.old ≡ Some (options, reader.new)) }
    ensures shorter { OnSome result (length reader.new < length reader.old) }
{
    if !reader.begin_object() {
        return None;
    }
    let options = read_members(reader, workers)?;
    Some(options)
}
