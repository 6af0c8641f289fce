//! Which call of the store is refused.

use anyhow::{Context, Result, bail};
use zarr_run::CallKind;

/// A call that the store refuses: the one with this number among those of a kind, counted from 1;
/// at 0, none.
#[derive(Clone, Copy)]
pub(crate) struct RefusedCall {
    pub kind: CallKind,
    pub number: u64,
}

/// No call.
pub(crate) const NO_CALL: RefusedCall = RefusedCall {
    kind: CallKind::Read,
    number: 0,
};

/// The call that a line says, as `refuse write 4` does, or `None` where it says none.
pub(crate) fn refused_call(line: &str) -> Result<Option<RefusedCall>> {
    let Some(call) = line.strip_prefix("refuse ") else {
        return Ok(None);
    };
    let (kind, number) = call
        .split_once(' ')
        .context("a refused call has no number")?;
    let kind = match kind {
        "read" => CallKind::Read,
        "write" => CallKind::Write,
        _ => bail!("a refused call is neither read nor write"),
    };
    Ok(Some(RefusedCall {
        kind,
        number: number.parse()?,
    }))
}
