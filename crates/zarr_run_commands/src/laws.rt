//! Laws of the lines of answers. Each function does nothing: its contract is the law.
ghost use Rattle.zarr_run_commands.specs.Laws.{ValuesAnswered};

/// Values that were read are listed in the answer, which is `{"fault":"text"}` just where one of
/// their strings is not UTF-8.
pub fn values_answered()
    ensures { ValuesAnswered }
{}
