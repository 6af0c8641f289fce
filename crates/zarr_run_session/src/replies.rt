//! Replies to commands by their outcomes.
ghost use Rattle.std.specs.Prelude.{◌≡◌};
ghost use Rattle.zarr_run_commands.specs.Commands.{answered};
ghost use Rattle.zarr_run_opening.specs.Sessions.{answer_of};
ghost use Rattle.zarr_run_session.specs.Replies.{answer_after, answer_changed, answer_with};

use zarr_codecs_arrays::ArrayBytes;
use zarr_run_boxes::Refusal;
use zarr_run_commands::Reply;
use zarr_run_meaning::Cause;

/// The reply to a command that is done, or refused before it changed anything.
pub(crate) fn reply_to(outcome: Result<(), Cause>) -> Reply
    ensures { answered result ≡ answer_of outcome }
{
    match outcome {
        Ok(()) => Reply::Done,
        Err(cause) => Reply::Refused { cause, applied: 0 },
    }
}

/// The reply to a command that changes chunks.
pub(crate) fn reply_to_change(outcome: Result<(), Refusal>) -> Reply
    ensures { answered result ≡ answer_after outcome }
{
    match outcome {
        Ok(()) => Reply::Done,
        Err(Refusal { cause, applied }) => Reply::Refused { cause, applied },
    }
}

/// The reply to a command that reads.
pub(crate) fn reply_to_read(outcome: Result<ArrayBytes, Cause>) -> Reply
    ensures { answered result ≡ answer_with outcome }
{
    match outcome {
        Ok(cells) => Reply::Cells(cells),
        Err(cause) => Reply::Refused { cause, applied: 0 },
    }
}

/// The reply to a compaction.
pub(crate) fn reply_to_compaction(outcome: Result<bool, Cause>) -> Reply
    ensures { answered result ≡ answer_changed outcome }
{
    match outcome {
        Ok(changed) => Reply::Compacted(changed),
        Err(cause) => Reply::Refused { cause, applied: 0 },
    }
}
