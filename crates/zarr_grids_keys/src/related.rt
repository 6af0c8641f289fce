//! Node paths above and under one another.
ghost use Rattle.std.specs.Prelude.{◌≡◌, ◌<◌, IsTrue, None, Some, IfSome, MatchOption, length};
ghost use Rattle.zarr_grids_keys.specs.Paths.{is_node_path};
ghost use Rattle.zarr_grids_keys.specs.Related.{is_under, is_related, parent_path};

use crate::node_path::begins_with_slash;

/// Whether two node paths are equal, or one is under the other. `/a` and `/a/b` are related, `/a`
/// and `/ab` are not, and each path is related to `/`.
pub fn are_related(path: &str, other: &str) -> bool
    ensures { result ≡ is_related path.now other.now }
{
    path == other || is_under(path, other) || is_under(other, path)
}

/// Whether the second path is under the first.
fn is_under(path: &str, other: &str) -> bool
    ensures { result ≡ is_under path.now other.now }
{
    if path == "/" {
        return other != "/";
    }
    match other.as_bytes().strip_prefix(path.as_bytes()) {
        Some(rest) => begins_with_slash(rest),
        None => false,
    }
}

/// The path right above a node path: `/a` above `/a/b`, `/` above `/a`, and none above `/`.
pub fn parent_path(path: &str) -> Option<&str>
    requires { IsTrue (is_node_path path.now) }
    ensures value { MatchOption result
        (parent_path path.now ≡ None)
        (λ parent. parent_path path.now ≡ Some parent.now) }
    ensures node_path { IfSome result (λ parent. IsTrue (is_node_path parent.now)) }
    ensures shorter { IfSome result (λ parent. length parent.now < length path.now) }
{
    if path == "/" {
        return None;
    }
    let end = path.rfind('/')?;
    if end == 0 {
        Some("/")
    } else {
        Some(&path[..end])
    }
}
