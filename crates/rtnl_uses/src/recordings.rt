//! A caller of `rtnl`.

ghost use Rattle.std.specs.Prelude.{◌≡◌, ◌<◌, ℕ, List, length, IfOk, Ok, Err};
ghost use Rattle.rtnl.specs.Lines.{datagrams};
ghost use Rattle.rtnl.specs.Shown.{Shows};

use rtnl::frame::Limits;
use rtnl::{RunError, SliceSource, VecSink, Verdict, run_show};
use std::alloc::Global;

/// What is shown of a recording in memory, and whether each of its datagrams was taken.
pub fn show_text(
    alloc: Global,
    recording: &[u8],
    limits: &Limits,
) -> Result<(Vec<u8>, Verdict), RunError>
    // The text is that of the datagrams of the recording, and the verdict is theirs.
    ensures shown { IfOk result (λ shown. (ds : List (List ℕ)) × (datagrams recording.now ≡ Ok ds)
        × Shows limits.now ds shown.0.items shown.1) }
    // A bad line is the first one of the recording.
    ensures bad_line { (number : ℕ) → result ≡ Err (RunError.BadLine number)
        → datagrams recording.now ≡ Err number }
    // It is a read fault only where the recording is too long.
    ensures read_fault { result ≡ Err RunError.ReadFault → 16777216 < length recording.now }
{
    let mut source = SliceSource::new(recording);
    let mut sink = VecSink::new(alloc);
    let verdict = run_show(alloc, &mut source, &mut sink, limits)?;
    Ok((sink.bytes, verdict))
}
