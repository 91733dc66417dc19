//! The output of a command whose values are refused.
ghost use Rattle.std.specs.Prelude.{◌≡◌, ◌↔◌, Err, OnErr, OnOk, false, true};
ghost use Rattle.cc_io.specs.CommandOutput.{WritesRefusal};
ghost use Rattle.cli.specs.Devices.{OnDevices};

use cc_io::{Sink, Summary, write_refusal};
use cc_word::Refusal;
use cli::Fault;

/// Writes the line of a refusal, which is then the whole output of a command. The summary reports an error.
///
/// Requires: the sink has not failed.
/// Errors: `Write` if and only if the sink fails. A prefix of the line is then written.
pub(crate) fn refuse<W: Sink>(refusal: Refusal, sink: &mut W) -> Result<Summary, Fault>
    requires { (W.state sink.old).has_failed ≡ false }
    ensures refuses { OnDevices (WritesRefusal (W.state sink.old) (W.state sink.new) refusal) result }
    ensures fails { OnErr result (result ≡ Err Fault.Write) }
    ensures write { (result ≡ Err Fault.Write) ↔ ((W.state sink.new).has_failed ≡ true) }
    ensures flushed { OnOk result ((W.state sink.new).is_flushed ≡ true) }
{
    Ok(write_refusal(refusal, sink)?)
}
