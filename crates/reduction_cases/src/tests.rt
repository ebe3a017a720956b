use draws::source::Tape;
use draws::test_runner::TestRunner;
use leaves::stair::{Stair, Stairs};
use meaning::reduction::{End, ReduceFault, Reduced};
use meaning::size_range::SizeRange;
use meaning::traits::{ValueTree, Verdict, grow};
use reduction::reduce::reduce;
use reduction::verdicts::{Holds, MoreThan};
use std::process::Abort;
use std::test::Fail;
use tables::slice_table::SliceTable;
use vectors::collection::{VecValueTree, vec};

// Grows the items 5, 7 and 4, of which one must stay.
fn grow_three<'a>(place: &mut VecValueTree<SliceTable<'a, Stair>>) -> Result<(), Fail> {
    let strategy = vec(Stairs::new(9), SizeRange::new(1, 3)?)?;
    let mut runner = TestRunner::new(Tape::new(&[2, 5, 7, 4]), 0, 0, 0);
    grow(&strategy, &mut runner, place)?;
    Ok(())
}

// Slots and results are arrays, since growth and reductions allocate nothing.
//
// The reduction of 5, 7 and 4 ends so, after so many verdicts, with a result of that length; the buffer of three 9s then holds
// `left`.
fn ends<V: Verdict<u64>>(
    rt: &impl Abort,
    verdict: &V,
    budget: u32,
    end: End,
    verdicts: u32,
    length: usize,
    left: [u64; 3],
) -> Result<(), Fail> {
    let mut slots = [Stair::place(); 3];
    let mut tree = VecValueTree::place(SliceTable::new(&mut slots));
    grow_three(&mut tree)?;
    let mut result = [9; 3];
    assert_eq!(rt;
        reduce(&mut tree, verdict, budget, &mut result),
        Ok(Reduced {
            end,
            verdicts,
            length
        })
    );
    assert_eq!(rt; result, left);
    Ok(())
}

#[test]
fn ended(rt: HostRuntime) -> Result<(), Fail> {
    // 5 7 4, 7 4, 4 passes, 7 4, 7, 6 passes, 7
    ends(&rt, &Holds::new(7), 100, End::Ended, 7, 1, [7, 4, 4])?;
    ends(&rt, &Holds::new(7), 7, End::Ended, 7, 1, [7, 4, 4])?;
    // 5 7 4, 7 4, 4 passes, 7 4, 7 passes, then 7 4 down to 0 0
    ends(&rt, &MoreThan::new(1), 100, End::Ended, 17, 2, [0, 0, 4])
}

#[test]
fn spent(rt: HostRuntime) -> Result<(), Fail> {
    ends(&rt, &Holds::new(7), 1, End::Spent, 1, 3, [5, 7, 4])?;
    ends(&rt, &Holds::new(7), 3, End::Spent, 3, 2, [7, 4, 4])?;
    ends(&rt, &Holds::new(7), 6, End::Spent, 6, 1, [7, 4, 4])
}

#[test]
fn passes(rt: HostRuntime) -> Result<(), Fail> {
    ends(&rt, &Holds::new(8), 100, End::Passes, 1, 0, [9, 9, 9])?;
    ends(&rt, &MoreThan::new(3), 1, End::Passes, 1, 0, [9, 9, 9])
}

// Refused for this: the buffer of 9s and the tree stay.
fn refused(
    rt: &impl Abort,
    grown: bool,
    budget: u32,
    buffer: &mut [u64],
    fault: ReduceFault,
) -> Result<(), Fail> {
    let mut slots = [Stair::place(); 3];
    let mut tree = VecValueTree::place(SliceTable::new(&mut slots));
    if grown {
        grow_three(&mut tree)?;
    }
    let before = tree.len();
    assert_eq!(rt;
        reduce(&mut tree, &MoreThan::new(0), budget, buffer),
        Err(fault)
    );
    assert!(rt; buffer.iter().all(|x| *x == 9));
    assert_eq!(rt; tree.is_grown(), grown);
    assert_eq!(rt; tree.len(), before);
    Ok(())
}

#[test]
fn refusals(rt: HostRuntime) -> Result<(), Fail> {
    refused(&rt, true, 1, &mut [9; 2], ReduceFault::TooShort)?;
    refused(&rt, true, 0, &mut [9; 3], ReduceFault::NoBudget)?;
    refused(&rt, false, 1, &mut [9; 3], ReduceFault::Blank)?;
    // a buffer that is too short is told first, then a budget of 0
    refused(&rt, true, 0, &mut [9; 2], ReduceFault::TooShort)?;
    refused(&rt, false, 0, &mut [], ReduceFault::NoBudget)?;
    assert_eq!(rt; ReduceFault::TooShort.number(), 7);
    assert_eq!(rt; ReduceFault::NoBudget.number(), 8);
    assert_eq!(rt; ReduceFault::Blank.number(), 9);
    Ok(())
}
