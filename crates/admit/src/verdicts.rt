//! The verdicts, one line each, and the drawings.
use crate::drawing::print_drawing;
use crate::without_tasks::{
    LONG_SESSION, TABLE_24, setup_without_tasks, sparse_table, ten_guests, three_guests,
};
use admission::{Setup, Verdict, VerdictLine, judge};
use samples::{
    PANEL_REGISTERS, period_100, period_101, read, setup_a, setup_a_budget_4, setup_a_due_7,
    setup_a_due_8, two_fixed,
};
use std::io::{self, Write};

// What the marks of a drawing mean.
const MARKS: &str =
    "marks: A to Z and a to f are fixed operations 1 to 32, 1 to 9 and g to m guests 1 to 16, a bar the start of a period";

// Prints what is judged, the verdict on it, and its drawing if it is accepted.
fn print_verdict<W: Write>(what: &str, setup: &Setup<'_>, out: &mut W) -> io::Result<()> {
    let verdict = Verdict {
        answer: judge(setup, PANEL_REGISTERS),
    };
    let line = VerdictLine { what, verdict };
    writeln!(out, "{line}")?;
    print_drawing(setup, PANEL_REGISTERS, out)
}

// Prints the verdicts on setup A and on variants of it.
fn print_variants<W: Write>(out: &mut W) -> io::Result<()> {
    for (what, setup) in [
        ("setup A", setup_a()),
        ("setup A with deadline 8 for guest 1", setup_a_due_8()),
        ("setup A with deadline 7 for guest 1", setup_a_due_7()),
        ("setup A with budget 4 for guest 2", setup_a_budget_4()),
    ] {
        print_verdict(what, &setup, out)?;
    }
    Ok(())
}

// Prints the verdicts on setups of one guest that has no task.
fn print_lone_guests<W: Write>(out: &mut W) -> io::Result<()> {
    for (what, setup) in [
        (
            "table 1 1 0 0 0 0 0 0 0 0 and one guest with budget 1 in period 2",
            two_fixed(),
        ),
        (
            "table 0 and one guest with budget 1 in period 100",
            period_100(),
        ),
        (
            "table 0 and one guest with budget 1 in period 101",
            period_101(),
        ),
    ] {
        let longer = Setup {
            session: LONG_SESSION,
            ..setup
        };
        print_verdict(what, &longer, out)?;
    }
    Ok(())
}

// Prints the verdicts on setups of several guests that have no task.
fn print_shared<W: Write>(out: &mut W) -> io::Result<()> {
    print_verdict(
        "a table of 24 slots with two fixed operations, and guests with periods 5, 7 and 11",
        &setup_without_tasks(&TABLE_24, &[read(0); 2], &three_guests()),
        out,
    )?;
    print_verdict(
        "a table of 84 slots with 28 fixed operations, and ten guests",
        &setup_without_tasks(&sparse_table(), &[read(0); 28], &ten_guests()),
        out,
    )
}

// Prints all verdicts, and last what the marks of the drawings mean.
pub(crate) fn print_all<W: Write>(out: &mut W) -> io::Result<()> {
    print_variants(out)?;
    print_lone_guests(out)?;
    print_shared(out)?;
    writeln!(out, "{MARKS}")?;
    out.flush()
}
