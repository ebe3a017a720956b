ghost use Rattle.std.specs.Prelude.{◌≡◌, length};
ghost use Rattle.buffers.specs.Over.{laid};
ghost use Rattle.lines.specs.Lines.{ending};
ghost use Rattle.reducer.specs.Hosts.{status, kept};
ghost use Rattle.reducer.specs.Sessions.{session_bytes};

use crate::session::run_plan;

// For a host; the crate `reducer_c` exports it to C. Runs the session of a plan's text. Its lines go to the start of `out`, their
// length to `len`, and the answer is 0. Where `out` is shorter than the lines the answer is 7, and `out` and `len` stay as they were.
// It answers by a number and a place for the length, and by no `Result`, for the C interface.
pub fn reducer_session(plan: &[u8], out: &mut [u8], len: &mut usize) -> u32
    ensures answer { result ≡ status (ending (length (session_bytes plan.now)) out.old) }
    ensures buffer { out.new ≡ laid (session_bytes plan.now) out.old }
    ensures length { len.new ≡ kept (ending (length (session_bytes plan.now)) out.old) len.old }
{
    match run_plan(plan, out) {
        Ok(n) => {
            *len = n;
            0
        }
        Err(fault) => fault.number(),
    }
}
