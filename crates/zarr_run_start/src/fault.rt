//! Why a run of the program ends early.
ghost use Rattle.std.specs.Prelude.{◌≡◌};
ghost use Rattle.std.specs.Process.{exit_status};
ghost use Rattle.zarr_run_start.specs.Faults.{message_text};

use std::io::Write;
use std::process::ExitCode;
use zarr_run_lines::LinesFault;

/// Why a run of the program ends early, whatever its words.
#[derive(Clone, Copy, Debug, PartialEq, Eq)]
pub enum Fault {
    /// The folder that keeps the arrays isn't there or can't be opened.
    Store,
    /// Standard input failed, or has more lines or bytes than are read.
    Read,
    /// Standard output failed.
    Write,
    /// Memory ran out.
    Memory,
}

impl Fault {
    /// What the program says of it.
    pub fn message(self) -> &'static str
        ensures { result.now ≡ message_text self }
    {
        match self {
            Fault::Store => "zarr_run: store fault",
            Fault::Read => "zarr_run: read fault",
            Fault::Write => "zarr_run: write fault",
            Fault::Memory => "zarr_run: out of memory",
        }
    }
}

impl From<LinesFault> for Fault {
    ghost use Rattle.std.specs.Prelude.{◌≡◌};
    ghost use Rattle.zarr_run_start.specs.Faults.{fault_of_lines};

    ghost from_gives = { λ fault result. result ≡ fault_of_lines fault };

    fn from(fault: LinesFault) -> Fault {
        match fault {
            LinesFault::Read => Fault::Read,
            LinesFault::Write => Fault::Write,
            LinesFault::Memory => Fault::Memory,
        }
    }
}

/// Names a fault on `errors`.
pub(crate) fn fail<E: Write>(errors: &mut E, fault: Fault) -> ExitCode
    ensures { exit_status result ≡ 1 }
{
    let _ = writeln!(errors, "{}", fault.message());
    ExitCode::FAILURE
}
