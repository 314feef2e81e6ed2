//! Slots for drawn plans. The start list and the entry table are each cut into as many equal parts as there are slots.
ghost use Rattle.std.specs.Prelude.{◌≡◌, ◌+◌, ◌*◌, ◌/◌, ◌<◌, ◌≤◌};

// Without a heap a slot has no tables of its own: its plan lies in its parts of two lent ones.

/// From where to where a slot's part of a table goes.
#[tactic(auto, using(crate::proofs::Tables::part_within))]
pub(crate) fn part_of(slot: usize, slots: usize, len: usize) -> (usize, usize)
    requires { slot < slots }
    ensures from { result.0 ≡ slot * (len / slots) }
    ensures to { result.1 ≡ slot * (len / slots) + len / slots }
    ensures within { result.1 ≤ len }
{
    let width = len / slots;
    let from = slot * width;
    (from, from + width)
}
