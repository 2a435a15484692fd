//! Turns, with their numbers.
ghost use Rattle.std.specs.Prelude.{◌≡◌};
ghost use Rattle.schedule.specs.Turns.{turn_numbers, SaysWhoseTurn};

/// Whose turn a slot is. Fixed operations and guests are numbered from 1.
#[derive(Clone, Copy, PartialEq, Eq, Debug)]
pub enum Turn {
    /// Nobody's: the slot table leaves it free, and no guest has budget left.
    Unassigned,
    /// The slot table gives it to a fixed operation.
    Fixed { operation: u8 },
    /// It is granted to a guest.
    Granted { guest: u8 },
}

/// A turn as two numbers.
#[derive(Clone, Copy, PartialEq, Eq, Debug)]
pub struct TurnNumbers {
    /// Which case it is: 0 where the slot is nobody's, 1 for a fixed operation, 2 for a guest.
    pub case: u8,
    /// The fixed operation or the guest; 0 where the slot is nobody's.
    pub number: u8,
}

impl Turn {
    /// The two numbers of this turn. No other turn has the same two.
    pub fn numbers(&self) -> TurnNumbers
        ensures value { result ≡ turn_numbers self.now }
        ensures distinct { SaysWhoseTurn }
    {
        let (case, number) = match *self {
            Turn::Unassigned => (0, 0),
            Turn::Fixed { operation } => (1, operation),
            Turn::Granted { guest } => (2, guest),
        };
        TurnNumbers { case, number }
    }
}
