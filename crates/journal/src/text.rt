//! Entries as text, for a person. Each type has a text of its own, so no two of the functions can be one.
ghost use Rattle.std.specs.Prelude.{Some};
ghost use Rattle.journal.specs.Text.{outcome_text, unknown_outcome_text, access_text, event_text, entry_text};

use crate::entries::{Access, Entry, Event, Outcome, UnknownOutcome};
use std::fmt;

impl fmt::Display for Outcome {
    ghost output = { λ o. Some (outcome_text o) };

    fn fmt<W: fmt::Write>(&self, f: &mut fmt::Formatter<W>) -> fmt::Result {
        match self {
            Outcome::Written => write!(f, "written"),
            Outcome::Read => write!(f, "read"),
            Outcome::Refused => write!(f, "refused"),
        }
    }
}

impl fmt::Display for UnknownOutcome {
    ghost output = { λ e. Some (unknown_outcome_text e.0) };

    fn fmt<W: fmt::Write>(&self, f: &mut fmt::Formatter<W>) -> fmt::Result {
        let number = self.0;
        write!(f, "no outcome has the number {number}")
    }
}

impl fmt::Display for Access {
    ghost output = { λ a. Some (access_text a) };

    fn fmt<W: fmt::Write>(&self, f: &mut fmt::Formatter<W>) -> fmt::Result {
        let Access {
            register,
            outcome,
            value,
        } = *self;
        write!(f, "register {register}, {outcome} {value}")
    }
}

impl fmt::Display for Event {
    ghost output = { λ x. Some (event_text x) };

    fn fmt<W: fmt::Write>(&self, f: &mut fmt::Formatter<W>) -> fmt::Result {
        match *self {
            Event::Unassigned => write!(f, "unassigned"),
            Event::Fixed { operation, access } => write!(
                f,
                "fixed operation {operation}, {access}"
            ),
            Event::Used {
                guest,
                task,
                position,
                access,
                deadline,
            } => {
                write!(
                    f,
                    "guest {guest}, task {task}, operation {position}, {access}, deadline {deadline}"
                )
            }
            Event::Idle { guest } => write!(f, "guest {guest}, idle"),
        }
    }
}

impl fmt::Display for Entry {
    ghost output = { λ e. Some (entry_text e) };

    fn fmt<W: fmt::Write>(&self, f: &mut fmt::Formatter<W>) -> fmt::Result {
        let Entry { slot, event } = *self;
        write!(f, "slot {slot}: {event}")
    }
}
