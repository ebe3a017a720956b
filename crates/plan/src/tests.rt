use crate::line::{PlanLine, read_line};
use crate::plan::read_plan;
use crate::step::Step;
use crate::step::Step::{Complicate, Simplify, View};
use std::alloc::{AllocError, Global};
use std::test::Fail;

// The first wrong line of the text, none where it is a plan.
fn wrong_line(text: &str) -> Option<u8> {
    Some(read_plan(text.as_bytes()).err()?.line())
}

// A plan of so many draws, each a zero, and so many steps.
fn plan_of(alloc: Global, draws: usize, steps: usize) -> Result<String, AllocError> {
    let zeros = "0 ".repeat(alloc, draws)?;
    let views = "v".repeat(alloc, steps)?;
    format!(in alloc;
        "low=0\nhigh=0\ndraws={}\nsteps={}\n",
        zeros.trim_end(),
        views
    )
}

#[test]
fn values(rt: HostRuntime) -> Result<(), Fail> {
    let plan = read_plan(b"low=1\nhigh=3\ndraws=2 5 7 4\nsteps=vsvcsssvccv\n")?;
    let steps = [
        View, Simplify, View, Complicate, Simplify, Simplify, Simplify, View, Complicate,
        Complicate, View,
    ];
    assert_eq!(rt; plan.low(), 1);
    assert_eq!(rt; plan.high(), 3);
    assert_eq!(rt; plan.draws(), [2, 5, 7, 4].as_slice());
    assert_eq!(rt; plan.steps(), steps.as_slice());
    let plan = read_plan(b"low=64\nhigh=0\ndraws=18446744073709551615\nsteps=\n")?;
    assert_eq!(rt; plan.low(), 64);
    assert_eq!(rt; plan.draws(), [u64::MAX].as_slice());
    assert_eq!(rt; plan.steps(), [].as_slice());
    Ok(())
}

#[test]
fn one_line(rt: HostRuntime) {
    let line = PlanLine::Draws {
        key: b"draws",
        value: b"1=2",
    };
    assert_eq!(rt; read_line(b"draws=1=2"), line);
    assert_eq!(rt; read_line(b"=1"), PlanLine::Wrong);
}

#[test]
fn accepted(rt: HostRuntime) -> Result<(), Fail> {
    let texts = [
        "low=0\nhigh=0\ndraws=\nsteps=\n",
        "low=64\nhigh=64\ndraws=0\nsteps=c\n",
        "low=9\nhigh=10\ndraws=18446744073709551615 0\nsteps=vsc\n",
    ];
    for text in texts {
        assert_eq!(rt; wrong_line(text), None, "{text}");
    }
    assert_eq!(rt; wrong_line(&plan_of(rt.alloc(), 256, 1024)?), None);
    Ok(())
}

// Each text with its first wrong line.
#[test]
fn refused(rt: HostRuntime) -> Result<(), Fail> {
    let cases = [
        ("", 1),
        ("low=1", 1),
        ("\n", 1),
        ("low\n", 1),
        ("low=\n", 1),
        ("low=01\n", 1),
        ("low=00\n", 1),
        ("low=+1\n", 1),
        ("low= 1\n", 1),
        ("low=1\r\n", 1),
        ("low=1\u{e9}\n", 1),
        ("low=65\n", 1),
        ("low=18446744073709551616\n", 1),
        ("Low=1\n", 1),
        ("high=1\nlow=1\ndraws=\nsteps=\n", 1),
        ("low=1\n", 2),
        ("low=1\nhigh=65\n", 2),
        ("low=1\nlow=1\n", 2),
        ("low=1\nhigh=1", 2),
        ("low=1\nhigh=1\n", 3),
        ("low=1\nhigh=1\ndraws=18446744073709551616\nsteps=\n", 3),
        ("low=1\nhigh=1\ndraws=1  2\nsteps=\n", 3),
        ("low=1\nhigh=1\ndraws=1 \nsteps=\n", 3),
        ("low=1\nhigh=1\ndraws= 1\nsteps=\n", 3),
        ("low=1\nhigh=1\ndraws=1 02\nsteps=\n", 3),
        ("low=1\nhigh=1\nsteps=\n", 3),
        ("low=1\nhigh=1\ndraws=\n", 4),
        ("low=1\nhigh=1\ndraws=\nsteps=vx\n", 4),
        ("low=1\nhigh=1\ndraws=\nsteps=v s\n", 4),
        ("low=1\nhigh=1\ndraws=\nsteps=v", 4),
        ("low=1\nhigh=1\ndraws=\nsteps=v\n\n", 5),
        ("low=1\nhigh=1\ndraws=\nsteps=v\nx", 5),
    ];
    for (text, line) in cases {
        assert_eq!(rt; wrong_line(text), Some(line), "{text}");
    }
    assert_eq!(rt; wrong_line(&plan_of(rt.alloc(), 257, 0)?), Some(3));
    assert_eq!(rt; wrong_line(&plan_of(rt.alloc(), 0, 1025)?), Some(4));
    let fault = read_plan(b"").err().ok_or("the empty text is a plan")?;
    assert_eq!(rt; fault.number(), 10);
    assert_eq!(rt;
        fault.to_string(rt.alloc())?.as_str(),
        "line 1 of the plan is wrong"
    );
    Ok(())
}
