//! Any calls on an installation, made in their order through its book, its player and its fabric.
ghost use Rattle.std.specs.Prelude.{◌≡◌, ℕ, ◌<◌, length, take, slice_index_or, IfSome, MatchOption};
ghost use Rattle.promise.specs.Promise.{NeverBroken};
ghost use Rattle.installation.specs.Memory.{SameTables, SameBook};
ghost use Rattle.installation.specs.Perform.{Lent, lent, fresh, calls, answers, slot_after, Turns, TurnsRun, Performed};
ghost use Rattle.installation.specs.Hands.{hand, place_of, Makes, Leads};

use crate::call::{Call, Line};
use crate::memory::Memory;
use crate::seat::{Seat, State};
use crate::turns::{Turn, play};
use fabrics::Fabric;
use planner::{Book, Tables};
use promise::Answer;
use weights::{Ordered, Weight};

/// The slot of the plan that a call needs: lay's own where there is no player, else the player's.
fn place_of(call: Call, state: &State) -> usize
    ensures { result ≡ place_of call state.now.seat state.now.slot }
{
    match call {
        Call::Lay(to) if state.seat.is_free() => to,
        _ => state.slot,
    }
}

/// The slot of the player's plan after a call: that of a granted lay, else as it was.
fn slot_after(call: Call, answer: Answer, slot: usize) -> usize
    ensures { result ≡ slot_after call answer slot }
{
    match (call, answer) {
        (Call::Lay(to), Answer::Granted) => to,
        _ => slot,
    }
}

/// What a call leaves of the player, and what it answered.
struct Next {
    state: State,
    answer: Answer,
}

// Book, memory and fabric stay apart: a program lends each for itself, and has it back after the last call.

/// Makes one call.
fn make<W: Weight, F: Fabric>(
    call: Call,
    state: State,
    book: &mut Book<W>,
    memory: &mut Memory<W>,
    fabric: &mut F,
) -> Next
    ensures made { Makes W.Ordered.side F.Fabric.carrying (hand book.old memory.old state fabric.old) call result.answer (hand book.new memory.new result.state fabric.new) }
    ensures lent { SameBook book.old book.new }
    ensures held { SameTables memory.old memory.new }
    ensures same { F.Fabric.shape fabric.new ≡ F.Fabric.shape fabric.old }
{
    match call {
        Call::Open => Next {
            state,
            answer: book.refusal().map_or(Answer::NotMade, Answer::NotOpened),
        },
        Call::Draw(batch) => {
            let answer = memory.draw::<F>(batch, &state, book);
            Next { state, answer }
        }
        _ => match memory.plan_at(place_of(call, &state)) {
            None => Next {
                state,
                answer: Answer::NotMade,
            },
            Some(plan) => {
                let State { seat, slot } = state;
                let Turn { seat, answer } = play::<W, F>(call, seat, &plan, fabric);
                let slot = slot_after(call, answer, slot);
                Next {
                    state: State { seat, slot },
                    answer,
                }
            }
        },
    }
}

/// Goes on with an installation whose open was granted or refused: makes the calls of a log in their order, and writes down
/// what each answered.
pub fn resume<W: Weight, F: Fabric>(
    state: State,
    book: &mut Book<W>,
    memory: &mut Memory<W>,
    fabric: &mut F,
    log: &mut [Line],
) -> State
    ensures run { Leads W.Ordered.side F.Fabric.carrying (hand book.old memory.old state fabric.old) (calls log.old) (answers log.new) (hand book.new memory.new result fabric.new) }
    ensures log { calls log.new ≡ calls log.old }
    ensures never { NeverBroken W.Ordered.side F.Fabric.carrying }
    ensures steps { TurnsRun W.Ordered.side F.Fabric.carrying }
    ensures lent { SameBook book.old book.new }
    ensures held { SameTables memory.old memory.new }
    ensures same { F.Fabric.shape fabric.new ≡ F.Fabric.shape fabric.old }
{
    let mut state = state;
    for line in log.iter_mut() {
        let Next {
            state: next,
            answer,
        } = make::<W, F>(line.call, state, book, memory, fabric);
        state = next;
        line.answer = answer;
    }
    state
}

/// Answers the calls before the first open as not made, and says where that open is, if there is one.
fn wait<W: Weight, F: Fabric>(log: &mut [Line]) -> Option<usize>
    ensures first { IfSome result (λ at. (at < length log.old) × (slice_index_or (calls log.old) at Call.Open ≡ Call.Open)) }
    ensures log { calls log.new ≡ calls log.old }
    ensures run { (l : Lent W) (f : F) → MatchOption result (Turns W.Ordered.side F.Fabric.carrying l (fresh l f) (calls log.old) (answers log.new) (fresh l f)) (λ at. Turns W.Ordered.side F.Fabric.carrying l (fresh l f) (take at (calls log.old)) (take at (answers log.new)) (fresh l f)) }
{
    for (i, line) in log.iter_mut().enumerate() {
        match line.call {
            Call::Open => return Some(i),
            _ => line.answer = Answer::NotMade,
        }
    }
    None
}

/// What a performed log leaves: the tables of the network, and the player, if there is one.
pub struct Outcome<'a, 'b, 'c, W: Weight> {
    pub tables: Tables<'a, 'b, 'c, W>,
    pub state: State,
}

/// Makes any calls on a new installation in their order, and writes down what each answered. Nothing that they do breaks
/// the promise. As many plans may be held at a time as the memory has slots, which are emptied first.
pub fn perform<'a, 'b, 'c, W: Weight, F: Fabric>(
    tables: Tables<'a, 'b, 'c, W>,
    memory: &mut Memory<W>,
    fabric: &mut F,
    log: &mut [Line],
) -> Outcome<'a, 'b, 'c, W>
    ensures run { Performed W.Ordered.side F.Fabric.carrying (lent tables.entry memory.old) fabric.old (calls log.old) (answers log.new) result.tables memory.new result.state fabric.new }
    ensures log { calls log.new ≡ calls log.old }
    ensures never { NeverBroken W.Ordered.side F.Fabric.carrying }
    ensures steps { TurnsRun W.Ordered.side F.Fabric.carrying }
    ensures lent { (result.tables.links.ghost_name ≡ tables.entry.links.ghost_name) × (result.tables.tree.ghost_name ≡ tables.entry.tree.ghost_name) }
    ensures held { SameTables memory.old memory.new }
    ensures same { F.Fabric.shape fabric.new ≡ F.Fabric.shape fabric.old }
{
    memory.plans.fill(None);
    let state = State {
        seat: Seat::Free,
        slot: 0,
    };
    let Some(at) = wait::<W, F>(log) else {
        return Outcome { tables, state };
    };
    let mut book = Book::open(tables, memory.work);
    log[at].answer = book.refusal().map_or(Answer::Opened, Answer::NotOpened);
    let state = resume::<W, F>(state, &mut book, memory, fabric, &mut log[at + 1..]);
    Outcome {
        tables: book.close(),
        state,
    }
}
