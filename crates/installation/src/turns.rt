//! The player's calls, each made if the seat allows it.
ghost use Rattle.std.specs.Prelude.{◌≡◌, ℕ, true, MatchResult};
ghost use Rattle.player.specs.Plan.{sheet};
ghost use Rattle.installation.specs.Hands.{place_of, to_player};
ghost use Rattle.installation.specs.Turns.{Plays};
ghost use Rattle.promise.specs.declared.answer.Answer.TheVariants.{NotMade, Granted, Refused};

use crate::call::Call;
use crate::seat::Seat;
use fabrics::Fabric;
use player::{Kept, Plan};
use promise::Answer;
use weights::Ordered;

/// The seat after a call, and what the call answered.
pub(crate) struct Turn {
    pub seat: Seat,
    pub answer: Answer,
}

/// A granted call leaves the next state; a refused one hands the last one back.
impl<N: Into<Seat>, L: Into<Seat>> From<Result<N, Kept<L>>> for Turn {
    ghost from_gives = { λ r t. MatchResult r (λ n. N.converts n t.seat × (t.answer ≡ Granted)) (λ k. L.converts k.player t.seat × (t.answer ≡ Refused k.fault)) };

    fn from(moved: Result<N, Kept<L>>) -> Turn {
        match moved {
            Ok(next) => Turn {
                seat: next.into(),
                answer: Answer::Granted,
            },
            Err(Kept { player, fault }) => Turn {
                seat: player.into(),
                answer: Answer::Refused(fault),
            },
        }
    }
}

/// A call that is not made.
fn not_made(seat: Seat) -> Turn
    ensures { (result.seat ≡ seat) × (result.answer ≡ NotMade) }
{
    Turn {
        seat,
        answer: Answer::NotMade,
    }
}

/// A call that leaves nobody in the seat.
fn vacated(answer: Answer) -> Turn
    ensures { (result.seat ≡ Seat.Free) × (result.answer ≡ answer) }
{
    Turn {
        seat: Seat::Free,
        answer,
    }
}

/// Makes a player's call.
pub(crate) fn play<W: Ordered, F: Fabric>(
    call: Call,
    seat: Seat,
    plan: &Plan,
    fabric: &mut F,
) -> Turn
    ensures turn { to_player call ≡ true → (slot : ℕ) → Plays W.Ordered.side F.Fabric.carrying (sheet plan.now) (place_of call seat slot) call result.answer seat fabric.old result.seat fabric.new }
    ensures same { F.Fabric.shape fabric.new ≡ F.Fabric.shape fabric.old }
{
    match seat {
        Seat::Free => match call {
            Call::Lay(_) => match player::lay(plan, fabric) {
                Ok(player) => Turn {
                    seat: player.into(),
                    answer: Answer::Granted,
                },
                Err(fault) => vacated(Answer::Refused(fault)),
            },
            _ => not_made(Seat::Free),
        },
        Seat::Still(player) => match call {
            Call::Forward => player.forward(plan, fabric).into(),
            Call::Backward => player.backward(plan, fabric).into(),
            Call::Finish => vacated(Answer::Finished(player.finish())),
            _ => not_made(player.into()),
        },
        Seat::Moving(player) => match call {
            Call::Join => player.join(fabric).into(),
            Call::Cancel => player.cancel(fabric).into(),
            Call::Abandon => {
                let (leaving, coming) = player.abandon();
                vacated(Answer::Abandoned(leaving, coming))
            }
            _ => not_made(player.into()),
        },
    }
}
