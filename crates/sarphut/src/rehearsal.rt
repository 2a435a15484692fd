//! The rehearsal: every call with its answer, then the blocks of the journal.
ghost use Rattle.std.specs.Prelude.{◌≡◌, map, IfOk};
ghost use Rattle.std.specs.List.{filter_map};
ghost use Rattle.rig.specs.Calls.{plan_call};
ghost use Rattle.rig.specs.Replies.{answer_numbers};
ghost use Rattle.sarphut.specs.Answers.{IsPanelTrace};
ghost use Rattle.sarphut.specs.RehearsalBlocks.{passed_entry};

use crate::blocks::print_blocks;
use crate::requests::calls;
use decline::Decline;
use device::LampPanel;
use journal::Entry;
use rig::{Answer, AnswerLine, Call, Rig};
use runs::run;
use std::alloc::{AllocError, Global};
use std::io::{self, Write};

// Prints each call with its answer.
fn print_answers<W: Write>(calls: &[Call<'_>], answers: &[Answer], out: &mut W) -> io::Result<()> {
    for (call, answer) in calls.iter().zip(answers) {
        let line = AnswerLine {
            call: *call,
            answer: *answer,
        };
        writeln!(out, "{line}")?;
    }
    Ok(())
}

// The entry that an answer brings, if it brings one.
fn passed_entry(answer: Answer) -> Option<Entry>
    ensures { result ≡ passed_entry answer }
{
    match answer {
        Ok(reply) => reply.entry(),
        Err(_) => None,
    }
}

// The entries of the slots that passed, in order.
fn passed(alloc: Global, answers: &[Answer]) -> Result<Vec<Entry>, AllocError>
    ensures { IfOk result (λ v. v.items ≡ filter_map passed_entry answers.now) }
{
    let entries = answers.iter().filter_map(|answer| passed_entry(*answer));
    entries.collect(alloc)
}

// What fills the places of answers until the calls are made.
const NO_ANSWER: Answer = Err(Decline::NotLoaded);

// Makes the calls of a fresh rig around a lamp panel, and answers what they were answered: there is a place for each.
#[tactic(auto, using(crate::proofs::Answered::each_answered))]
fn rehearsal_answers(alloc: Global, calls: &[Call<'_>]) -> Result<Vec<Answer>, AllocError>
    ensures { IfOk result (λ v. IsPanelTrace (map plan_call calls.now) (map answer_numbers v.items)) }
{
    let mut rig = Rig::new(LampPanel::new());
    let mut answers = vec![in alloc; NO_ANSWER; calls.len()]?;
    run(&mut rig, calls, &mut answers);
    Ok(answers)
}

/// Makes the calls of the rehearsal, and prints them with their answers and the blocks of the journal; whether every
/// block read back.
pub(crate) fn rehearse<W: Write>(alloc: Global, out: &mut W) -> io::Result<bool> {
    let calls = calls(alloc)?;
    let answers = rehearsal_answers(alloc, &calls)?;
    print_answers(&calls, &answers, out)?;
    let entries = passed(alloc, &answers)?;
    let all = print_blocks(&entries, out)?;
    out.flush()?;
    Ok(all)
}
