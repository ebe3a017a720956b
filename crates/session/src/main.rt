// Reads a plan from standard input, runs its session, and prints the session's lines.

#![tactic(auto)]

use reducer::session::{LONGEST_PAGE, LONGEST_TEXT, run_plan};
use std::io::{Read, Write};

fn main(rt: HostRuntime) -> anyhow::Result<()> {
    // all memory first: one byte more than the longest plan, to know that a text is longer, and one that the end is read into
    let mut text = Vec::with_capacity(rt.alloc(), LONGEST_TEXT + 2)?;
    let mut page = vec![in rt.alloc(); 0u8; LONGEST_PAGE]?;
    rt.stdin()
        .take(LONGEST_TEXT as u64 + 1)
        .read_to_end(&mut text)?;
    let end = run_plan(&text, &mut page)?;
    rt.stdout().write_all(&page[..end])?;
    Ok(())
}
