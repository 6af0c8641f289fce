//! Keys as paths of files.
ghost use Rattle.std.specs.Prelude.{◌≡◌};
ghost use Rattle.zarr_array_folder.specs.FileKeys.{is_file_key, is_file_name};

/// The file that a value is written to, in the store's folder, before it has its own name.
pub const TEMPORARY: &str = ".zarr_run.tmp";

/// Whether a key is a file below the folder of a store: none of its parts between slashes is empty,
/// `.`, `..` or `.zarr_run.tmp`.
pub fn is_file_key(key: &str) -> bool
    ensures { result ≡ is_file_key key.now }
{
    let mut rest = key;
    while let Some((part, others)) = rest.split_once('/') {
        if !is_file_name(part) {
            return false;
        }
        rest = others;
    }
    is_file_name(rest)
}

fn is_file_name(name: &str) -> bool
    ensures { result ≡ is_file_name name.now }
{
    !matches!(name, "" | "." | ".." | TEMPORARY)
}
