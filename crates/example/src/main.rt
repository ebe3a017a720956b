// Grows a scenario of three numbers, reduces it, and prints each verdict and each step.
//
// The scenario fails while it holds 7. The first time there are verdicts enough to come to an end. The second time, from the same
// scenario, they are spent on the way, and complicate then leads back to the list that the reduction gave.

#![tactic(auto)]

use draws::source::Tape;
use draws::test_runner::TestRunner;
use leaves::stair::{Stair, Stairs};
use meaning::reduction::{End, Notice, Reduced};
use meaning::size_range::SizeRange;
use meaning::traits::{ValueTree, Witness};
use reduction::trial::{Call, trial};
use reduction::verdicts::Holds;
use std::{fmt, io};
use tables::slice_table::SliceTable;
use vectors::collection::{VecValueTree, vec};

// The items that a tree may show here, with room to spare.
const ROOM: usize = 8;

// A list of numbers, each after a space.
#[derive(Drop)]
struct Items<'a>(&'a [u64]);

impl<'a> fmt::Display for Items<'a> {
    fn fmt<W: fmt::Write>(&self, f: &mut fmt::Formatter<W>) -> fmt::Result {
        for x in self.0 {
            write!(f, " {x}")?;
        }
        Ok(())
    }
}

// How a reduction came to its end, in a word.
#[derive(Drop)]
struct Ending(End);

impl fmt::Display for Ending {
    fn fmt<W: fmt::Write>(&self, f: &mut fmt::Formatter<W>) -> fmt::Result {
        f.write_str(match self.0 {
            End::Passes => "passes",
            End::Ended => "ended",
            End::Spent => "spent",
        })
    }
}

// A witness that prints what it hears. It keeps the first failure to print for the end.
#[derive(Drop)]
struct Printer<'a> {
    rt: &'a HostRuntime,
    verdicts: u32,
    status: io::Result<()>,
}

impl<'a> Printer<'a> {
    fn note(&mut self, said: io::Result<()>) {
        if self.status.is_ok() {
            self.status = said;
        }
    }
}

// What came of a step.
fn print_step(rt: &HostRuntime, kind: &str, moved: bool, items: Items) -> io::Result<()> {
    if moved {
        println!(rt; "    {kind}:{items}")
    } else {
        println!(rt; "    {kind}: no step is left")
    }
}

fn print_verdict(rt: &HostRuntime, number: u32, failed: bool, items: Items) -> io::Result<()> {
    let word = if failed { "fails" } else { "passes" };
    println!(rt; "  verdict {number}:{items} {word}")
}

impl<'a> Witness<u64> for Printer<'a> {
    ghost State = { Unit {0} };

    ghost state = { λ _. tt };

    ghost hears = { λ w _ _. w };

    fn hear<T: ValueTree<Item = u64>>(&mut self, what: Notice, tree: &T) {
        let rt = self.rt;
        let mut shown = [0u64; ROOM];
        let n = tree.copy_to(&mut shown);
        let items = Items(&shown[..n]);
        let said = match what {
            Notice::Looked => println!(rt; "the tree shows:{items}"),
            Notice::Started(budget) => {
                self.verdicts = 0;
                println!(rt; "reduce it, with at most {budget} verdicts")
            }
            Notice::Judged(failed) => {
                self.verdicts = self.verdicts.saturating_add(1);
                print_verdict(rt, self.verdicts, failed, items)
            }
            Notice::Simplified(moved) => print_step(rt, "simplify", moved, items),
            Notice::Complicated(moved) => print_step(rt, "complicate", moved, items),
            Notice::Refused(fault) => {
                let number = fault.number();
                println!(rt; "refused {number}")
            }
        };
        self.note(said);
    }

    fn hear_report<T: ValueTree<Item = u64>>(&mut self, report: Reduced, buffer: &[u64], tree: &T) {
        let rt = self.rt;
        let how = Ending(report.end);
        let verdicts = report.verdicts;
        let items = Items(&buffer[..report.length.min(buffer.len())]);
        self.note(println!(rt;
            "{how} after {verdicts} verdicts; the last list that failed:{items}"
        ));
    }
}

// Grows a vector of one to three stairs with the limit 9 from the words 2, 5, 7 and 4, which gives 5 7 4, and makes the calls of
// the script.
fn run(rt: &HostRuntime, script: &[Call<Holds>]) -> anyhow::Result<()> {
    let strategy = vec(Stairs::new(9), SizeRange::new(1, 3)?)?;
    // slots and result are arrays, since growth and reductions allocate nothing
    let words = [2u64, 5, 7, 4];
    let mut runner = TestRunner::new(Tape::new(&words), 0, 0, 0);
    let mut slots = [Stair::place(); 3];
    let mut place = VecValueTree::place(SliceTable::new(&mut slots));
    let mut result = [0u64; ROOM];
    let mut printer = Printer {
        rt,
        verdicts: 0,
        status: Ok(()),
    };
    if let Err(fault) = trial(
        &strategy,
        &mut runner,
        &mut place,
        script,
        &mut result,
        &mut printer,
    ) {
        let number = fault.number();
        println!(rt; "growth is refused with {number}")?;
    }
    printer.status?;
    Ok(())
}

fn main(rt: HostRuntime) -> anyhow::Result<()> {
    let holds = Holds::new(7);
    println!(rt; "a list fails where it holds 7")?;
    run(&rt, &[Call::Look, Call::Reduce(holds, 10), Call::Look])?;
    println!(rt; "")?;
    run(
        &rt,
        &[
            Call::Look,
            Call::Reduce(holds, 5),
            Call::Look,
            Call::Complicate,
            Call::Complicate,
            Call::Look,
        ],
    )
}
