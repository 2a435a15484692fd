//! A verdict as text.
ghost use Rattle.std.specs.Prelude.{Some};
ghost use Rattle.admission.specs.Text.{verdict_text, verdict_line};

use decline::Decline;
use std::fmt;

/// What `judge` answered, as text: `accepted`, or the refusal and its sentence.
#[derive(Clone, Copy, PartialEq, Eq, Debug, Drop)]
pub struct Verdict {
    /// Accepted, or why not.
    pub answer: Result<(), Decline>,
}

impl fmt::Display for Verdict {
    ghost output = { λ v. Some (verdict_text v.answer) };

    fn fmt<W: fmt::Write>(&self, f: &mut fmt::Formatter<W>) -> fmt::Result {
        match self.answer {
            Ok(()) => write!(f, "accepted"),
            Err(refusal) => {
                let sentence = refusal.sentence();
                write!(f, "{refusal}: {sentence}")
            }
        }
    }
}

/// What was judged, and the verdict on it.
#[derive(Clone, Copy, PartialEq, Eq, Debug, Drop)]
pub struct VerdictLine<'a> {
    /// What was judged, in words.
    pub what: &'a str,
    /// The verdict on it.
    pub verdict: Verdict,
}

impl fmt::Display for VerdictLine<'_> {
    ghost output = { λ l. Some (verdict_line l.what.now l.verdict.answer) };

    fn fmt<W: fmt::Write>(&self, f: &mut fmt::Formatter<W>) -> fmt::Result {
        let VerdictLine { what, verdict } = *self;
        write!(f, "{what}: {verdict}")
    }
}
