use lines::LineFault;
use reducer::session::run_plan;
use std::process::Abort;

const BLANK: u8 = 0xaa;

// The lines stand at the start of the blank buffer, and the rest is blank still.
fn fits(rt: &impl Abort, plan: &[u8], lines: &[u8], out: &mut [u8]) {
    let len = lines.len();
    assert!(rt; len <= out.len());
    assert_eq!(rt; run_plan(plan, out), Ok(len));
    assert_eq!(rt; &out[..len], lines);
    assert!(rt; out[len..].iter().all(|b| *b == BLANK));
}

fn too_short(rt: &impl Abort, plan: &[u8], out: &mut [u8]) {
    assert_eq!(rt; run_plan(plan, out).map_err(LineFault::number), Err(7));
    assert!(rt; out.iter().all(|b| *b == BLANK));
}

// The lines in a buffer with room behind them, in one that they fill, and refused in one that is a byte too short.
fn says(rt: &impl Abort, plan: &[u8], lines: &[u8]) {
    let len = lines.len();
    assert!(rt; 0 < len && len < 128);
    fits(rt, plan, lines, &mut [BLANK; 128]);
    fits(rt, plan, lines, &mut [BLANK; 128][..len]);
    too_short(rt, plan, &mut [BLANK; 128][..len - 1]);
}

#[test]
fn steps(rt: HostRuntime) {
    says(
        &rt,
        b"low=1\nhigh=3\ndraws=2 5 7 4\nsteps=vsvcsssvccv\n",
        b"v 5 7 4\ns 1\nv 7 4\nc 1\ns 1\ns 1\ns 1\nv 4\nc 1\nc 0\nv 5\n",
    );
    // the empty candidate: the size is still drawn
    says(
        &rt,
        b"low=0\nhigh=0\ndraws=7\nsteps=vscv\n",
        b"v\ns 0\nc 0\nv\n",
    );
    // down to the minimum, then each member in turn
    says(
        &rt,
        b"low=2\nhigh=2\ndraws=0 3 1\nsteps=vsvsvcvcvsvsv\n",
        b"v 3 1\ns 1\nv 2 1\ns 1\nv 1 1\nc 1\nv 2 1\nc 0\nv 2 1\ns 1\nv 2 0\ns 0\nv 2 0\n",
    );
    // the largest draw
    says(
        &rt,
        b"low=1\nhigh=1\ndraws=0 18446744073709551615\nsteps=v\n",
        b"v 5\n",
    );
}

#[test]
fn refusals(rt: HostRuntime) {
    says(
        &rt,
        b"low=2\nhigh=1\ndraws=1 2 3\nsteps=v\n",
        b"refused 1\n",
    );
    // a wrong line is told before a size that is reversed
    says(
        &rt,
        b"low=2\nhigh=1\ndraws=1 2 3\nsteps=x\n",
        b"refused 10 4\n",
    );
    // too few draws at every place
    says(&rt, b"low=2\nhigh=2\ndraws=\nsteps=v\n", b"refused 5\n");
    says(&rt, b"low=2\nhigh=2\ndraws=0\nsteps=v\n", b"refused 5\n");
    says(&rt, b"low=2\nhigh=2\ndraws=0 1\nsteps=v\n", b"refused 5\n");
    says(&rt, b"low=2\nhigh=2\ndraws=0 1 2\nsteps=v\n", b"v 1 2\n");
    says(&rt, b"", b"refused 10 1\n");
    says(&rt, b"low=65\nhigh=3\ndraws=\nsteps=\n", b"refused 10 1\n");
    says(&rt, b"low=1\nhigh=3\ndraws=\nsteps=\nx", b"refused 10 5\n");
}
