//! Calls and their answers as text, for a person.
ghost use Rattle.std.specs.Prelude.{Some};
ghost use Rattle.rig.specs.Text.{operations_text, call_text, reply_text, answer_line};

use crate::call::Call;
use crate::reply::{Answer, Reply};
use crate::tally::Tally;
use std::fmt;

// So many operations.
#[derive(Clone, Copy)]
struct Operations {
    count: u32,
}

impl fmt::Display for Operations {
    ghost output = { λ o. Some (operations_text o.count) };

    fn fmt<W: fmt::Write>(&self, f: &mut fmt::Formatter<W>) -> fmt::Result {
        match self.count {
            1 => write!(f, "1 operation"),
            count => write!(f, "{count} operations"),
        }
    }
}

impl fmt::Display for Call<'_> {
    ghost output = { λ c. Some (call_text c) };

    fn fmt<W: fmt::Write>(&self, f: &mut fmt::Formatter<W>) -> fmt::Result {
        match *self {
            Call::Load { .. } => write!(f, "load of a setup"),
            Call::Release {
                guest,
                task,
                operations,
            } => {
                let operations = Operations { count: operations };
                write!(f, "release of {operations} by guest {guest}, task {task}")
            }
            Call::Withdraw { guest, task } => {
                write!(f, "withdrawal by guest {guest}, task {task}")
            }
            Call::Question { guest } => write!(f, "question about guest {guest}"),
            Call::Slot => write!(f, "next slot"),
        }
    }
}

impl fmt::Display for Reply {
    ghost output = { λ r. Some (reply_text r) };

    fn fmt<W: fmt::Write>(&self, f: &mut fmt::Formatter<W>) -> fmt::Result {
        match *self {
            Reply::Loaded => write!(f, "loaded"),
            Reply::Released { deadline } => write!(f, "due at slot {deadline}"),
            Reply::Withdrawn { done } => {
                let operations = Operations {
                    count: u32::from(done),
                };
                write!(f, "withdrawn after {operations}")
            }
            Reply::Told { tally } => {
                let Tally {
                    granted,
                    used,
                    idle,
                    finished,
                } = tally;
                write!(
                    f,
                    "granted {granted}, used {used}, idle {idle}, finished {finished}"
                )
            }
            Reply::Passed { entry } => write!(f, "{entry}"),
        }
    }
}

/// A call and what it was answered: the reply, or the refusal and its sentence.
#[derive(Clone, Copy, Debug, Drop)]
pub struct AnswerLine<'a> {
    /// The call.
    pub call: Call<'a>,
    /// What it was answered.
    pub answer: Answer,
}

impl fmt::Display for AnswerLine<'_> {
    ghost output = { λ l. Some (answer_line l.call l.answer) };

    fn fmt<W: fmt::Write>(&self, f: &mut fmt::Formatter<W>) -> fmt::Result {
        let AnswerLine { call, answer } = *self;
        match answer {
            Ok(reply) => write!(f, "{call}: {reply}"),
            Err(refusal) => {
                let sentence = refusal.sentence();
                write!(f, "{call}: {refusal}: {sentence}")
            }
        }
    }
}
