//! The whole text.
ghost use Rattle.std.specs.Prelude.{◌≡◌, ◌<◌, ◌≤◌, length, vec_capacity, IfOk};
ghost use Rattle.std.specs.Result.{result_map_both};
ghost use Rattle.plant_tables.specs.File.{seen};
ghost use Rattle.plant_text.specs.Body.{body};
ghost use Rattle.plant_text.specs.Plant.{whole, roomy, file_of, headed, lacks_head};
ghost use Rattle.plant_tables.specs.Room.{Roomy, Ready};
ghost use Rattle.text_words.specs.Split.{parts};

use crate::plant::Plant;
use faults::TextFault;
use plant_lines::{Item, Kind, read_line};
use plant_tables::{MAX_BYTES, Room, Tables};
use text_words::{Letter, cut};
use weights::{Cost, Weight};

/// The most nodes that a text may tell.
const MAX_NODES: u32 = 32;

/// The plant that a text tells, or why it is refused. All memory that it needs is in the room already, so that it
/// always answers what the format says of this text.
pub fn read_plant(mut room: Room, input: &[u8]) -> Result<Plant, TextFault>
    requires { Ready room }
    ensures told { result_map_both whole (λ e. e) result ≡ file_of input.now }
    ensures room { IfOk result roomy }
{
    if input.len() > MAX_BYTES {
        return Err(TextFault::OverCount(0));
    }
    if lacks_head(input) {
        return Err(TextFault::OutOfPlace(1));
    }
    let Some((first, rest)) = cut(input, b'\n') else {
        return Err(TextFault::Malformed(1));
    };
    match read_line::<Cost>(&mut room.numbers, first, 1)? {
        Item::Head(kind, n) => read_rest(room, kind, n, rest),
        Item::Link(_, _) | Item::Change(_) => Err(TextFault::OutOfPlace(1)),
    }
}

/// Whether line 1 is missing, or starts as a later line does.
fn lacks_head(input: &[u8]) -> bool
    ensures { result ≡ lacks_head input.now }
{
    let [first, ..] = input else {
        return true;
    };
    matches!(
        Letter::try_from(char::from(*first)),
        Ok(Letter::Link | Letter::Set | Letter::Remove | Letter::Flip)
    )
}

/// The plant of this kind with n nodes and these lines.
fn read_rest(room: Room, kind: Kind, n: u32, text: &[u8]) -> Result<Plant, TextFault>
    requires ready { Ready room }
    requires short { length text.now < 4096 }
    ensures told { result_map_both whole (λ e. e) result ≡ headed (parts 10 text.now) kind n }
    ensures room { IfOk result roomy }
{
    if n > MAX_NODES {
        return Err(TextFault::OverCount(1));
    }
    let Room {
        mut numbers,
        mut costs,
        mut classes,
    } = room;
    match kind {
        Kind::Cost => {
            costs.n = n;
            Ok(Plant::Costs(read_body(costs, &mut numbers, text)?))
        }
        Kind::Class => {
            classes.n = n;
            Ok(Plant::Classes(read_body(classes, &mut numbers, text)?))
        }
    }
}

/// The lines after the first, added to the tables.
fn read_body<W: Weight>(
    mut tables: Tables<W>,
    numbers: &mut Vec<u32>,
    text: &[u8],
) -> Result<Tables<W>, TextFault>
    requires roomy { Roomy tables }
    requires room { 4096 ≤ vec_capacity numbers.old }
    requires short { length text.now < 4096 }
    ensures told { result_map_both seen (λ e. e) result ≡ body W.Weight.made (seen tables) 2 (parts 10 text.now) }
    ensures room { IfOk result Roomy }
{
    let mut rest = text;
    // Counted by hand: a `for` over a slice's split gets no proof in a generic function.
    let mut line = 2;
    while let Some((row, after)) = cut(rest, b'\n') {
        let item = read_line(numbers, row, line)?;
        tables.place(item, line)?;
        rest = after;
        line += 1;
    }
    if rest.is_empty() {
        Ok(tables)
    } else {
        Err(TextFault::Malformed(line))
    }
}
