// The session for C: a static library over `reducer`, whose one export calls its function with the same clauses.

#![tactic(auto)]

ghost use Rattle.std.specs.Prelude.{◌≡◌, length};
ghost use Rattle.buffers.specs.Over.{laid};
ghost use Rattle.lines.specs.Lines.{ending};
ghost use Rattle.reducer.specs.Hosts.{status, kept};
ghost use Rattle.reducer.specs.Sessions.{session_bytes};

use reducer::host;

// Runs the session of a plan's text. Its lines go to the start of `out`, their length to `len`, and the answer is 0.
// Where `out` is shorter than the lines the answer is 7, and `out` and `len` stay as they were.
#[unsafe(no_mangle)]
pub extern "C" fn reducer_session(plan: &[u8], out: &mut [u8], len: &mut usize) -> u32
    ensures answer { result ≡ status (ending (length (session_bytes plan.now)) out.old) }
    ensures buffer { out.new ≡ laid (session_bytes plan.now) out.old }
    ensures length { len.new ≡ kept (ending (length (session_bytes plan.now)) out.old) len.old }
{
    host::reducer_session(plan, out, len)
}
