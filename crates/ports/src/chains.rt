//! Chains of records in lent memory: the cells of their heads, and then a cell for the next index of each record.

ghost use Rattle.std.specs.Prelude.{◌≡◌, ℕ, ◌+◌, ◌*◌, ◌<◌, ◌≤◌, true, length, IfSome};
ghost use Rattle.port_layout.specs.Chains.{chain, has, found};
ghost use Rattle.port_layout.specs.Words.{word, pushed};
ghost use Rattle.port_layout.specs.Ports.{taken};

use crate::cells::{read, write};

/// How many chains there are, and how many records.
// The bytes come with each call: a struct that held them would have to tell in each method that sizes and lent memory stay.
// Records are plain numbers from 1.
#[derive(Clone, Copy)]
pub(crate) struct Chains {
    pub heads: usize,
    pub records: usize,
}

impl Chains {
    /// The cell that holds record r in the chain from cell `head` on.
    pub(crate) fn find(self, bytes: &[u8], head: usize, r: usize) -> Option<usize>
        requires room { 2 * self.heads + 2 * self.records ≤ length bytes.now }
        requires small { (c : ℕ) → c < self.heads + self.records → word bytes.now c ≤ self.records }
        requires starts { head < self.heads + self.records }
        requires named { 0 < r }
        ensures value { result ≡ found self.heads (word bytes.now) self.records head r }
        ensures within { IfSome result (λ q. q < self.heads + self.records) }
    {
        let mut at = head;
        // A walk, and no loop over a list: a chain has at most all records.
        for _step in 0..self.records {
            match read(bytes, at) {
                0 => return None,
                next if next == r => return Some(at),
                next => at = self.heads + next - 1,
            }
        }
        None
    }

    /// Puts record r at the front of the chain from cell `head` on.
    pub(crate) fn push(self, bytes: &mut [u8], head: usize, r: usize)
        requires { (2 * self.heads + 2 * r ≤ length bytes.old) × ((0 < r) × ((r < 65536) × (head < self.heads))) }
        ensures { bytes.new ≡ pushed self.heads bytes.old r head }
    {
        let old = read(bytes, head);
        write(bytes, self.heads + r - 1, old);
        write(bytes, head, r);
    }

    /// Takes record r out of the chain from cell `head` on, which it is in.
    pub(crate) fn take_out(self, bytes: &mut [u8], head: usize, r: usize)
        requires room { 2 * self.heads + 2 * self.records ≤ length bytes.old }
        requires small { (c : ℕ) → c < self.heads + self.records → word bytes.old c ≤ self.records }
        requires starts { head < self.heads }
        requires named { (0 < r) × (r ≤ self.records) }
        requires holds { has r (chain self.heads (word bytes.old) self.records head) ≡ true }
        ensures { bytes.new ≡ taken self.heads self.records bytes.old r head }
    {
        if let Some(at) = self.find(bytes, head, r) {
            let next = read(bytes, self.heads + r - 1);
            write(bytes, at, next);
            write(bytes, self.heads + r - 1, 0);
        }
    }
}
