//! The place that at most one player takes.
ghost use Rattle.std.specs.Prelude.{◌≡◌};
ghost use Rattle.installation.specs.declared.seat.Seat.TheVariants.{Still, Moving};
ghost use Rattle.installation.specs.Hands.{is_free};
ghost use Rattle.installation.specs.Ending.{ended};

use player::{Between, Steady};
use promise::Answer;

/// The player of an installation, if it has one.
pub enum Seat {
    Free,
    Still(Steady),
    Moving(Between),
}

impl Seat {
    /// Whether there is no player.
    pub(crate) fn is_free(&self) -> bool
        ensures { result ≡ is_free self.now }
    {
        matches!(self, Seat::Free)
    }
}

impl From<Steady> for Seat {
    ghost from_gives = { λ p s. s ≡ Still p };

    fn from(steady: Steady) -> Seat {
        Seat::Still(steady)
    }
}

impl From<Between> for Seat {
    ghost from_gives = { λ b s. s ≡ Moving b };

    fn from(between: Between) -> Seat {
        Seat::Moving(between)
    }
}

/// What a program holds between calls: the player, if there is one, and the slot of its plan.
pub struct State {
    pub seat: Seat,
    pub slot: usize,
}

impl State {
    /// Ends the player, if there is one, and answers as finish or abandon does.
    pub fn end(self) -> Answer
        ensures { result ≡ ended self.seat }
    {
        let State { seat, slot: _ } = self;
        match seat {
            Seat::Free => Answer::NotMade,
            Seat::Still(player) => Answer::Finished(player.finish()),
            Seat::Moving(player) => {
                let (leaving, coming) = player.abandon();
                Answer::Abandoned(leaving, coming)
            }
        }
    }
}
