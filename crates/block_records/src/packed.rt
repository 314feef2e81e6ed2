//! Links and moves as arrays of words. An entry is a pair, which the library turns into an array and back.
ghost use Rattle.std.specs.Prelude.{◌≡◌};
ghost use Rattle.block_records.specs.Words.{link_of, move_of};

use crate::{BlockNode, Link, Move};

impl From<[u32; 3]> for Link {
    ghost from_gives = { λ words link. link ≡ link_of words };

    fn from(words: [u32; 3]) -> Link {
        let [number, a, b] = words;
        Link {
            number,
            a: BlockNode(a),
            b: BlockNode(b),
        }
    }
}

impl From<Link> for [u32; 3] {
    ghost from_gives = { λ link words. link_of words ≡ link };

    fn from(link: Link) -> [u32; 3] {
        [link.number, link.a.0, link.b.0]
    }
}

impl From<[u32; 2]> for Move<u32> {
    ghost from_gives = { λ words change. change ≡ move_of words };

    fn from(words: [u32; 2]) -> Move<u32> {
        let [link, to] = words;
        Move { link, to }
    }
}

impl From<Move<u32>> for [u32; 2] {
    ghost from_gives = { λ change words. move_of words ≡ change };

    fn from(change: Move<u32>) -> [u32; 2] {
        [change.link, change.to]
    }
}
