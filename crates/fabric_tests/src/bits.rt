//! A make of a buyer's own: one bit for each link, packed in lent words of 32 bits. It stands by itself, as a buyer's would,
//! and so repeats what the link map does.

ghost use Rattle.std.specs.Prelude.{◌≡◌, ◌-◌, ◌*◌, ◌<◌, ◌≤◌, false, length, OnErr, OnOk, slice_index_or};
ghost use Rattle.fabrics.specs.Blank.{Begins};
ghost use Rattle.fabrics.specs.Meaning.{Enables, Disables, Turns};
ghost use Rattle.fabric_tests.specs.Bits.{flags, turned, words_for, bits_fault, BitShape, shape_of};
ghost use Rattle.network.specs.Ends.{unless};

use fabrics::{Fabric, check_turn, place};
use faults::{BlankFault, FabricFault};
use network::MAX_LINKS;

/// A fabric of m links in lent words: link k is bit (k - 1) mod 32 of word (k - 1) / 32.
#[derive(Drop)]
pub struct BitMap<'a> {
    m: u32,
    words: &'a mut [u32],
    // A refused one is no Err: it holds its memory until it is let go, and as a fabric of no links takes any call.
    refusal: Option<BlankFault>,
    ghost fits: { m ≤ 32 * length words.now },
}

/// Refuses `len` words that make no fabric of m links.
fn check_bits(m: u32, len: usize) -> Result<(), BlankFault>
    ensures { result ≡ unless (bits_fault m len) tt }
{
    if m as usize > MAX_LINKS {
        return Err(BlankFault::LinkCount);
    }
    if len < m.div_ceil(32) as usize {
        return Err(BlankFault::ShortMemory);
    }
    Ok(())
}

impl<'a> BitMap<'a> {
    /// Makes a blank fabric of m links: its words become 0, and longer memory keeps its rest. A refused one has no links,
    /// leaves its memory as it stood, and tells its `refusal`.
    pub fn blank(m: u32, words: &'a mut [u32]) -> BitMap<'a>
        ensures refusal { result.refusal ≡ bits_fault m (length words.old) }
        ensures outcome { Begins (bits_fault m (length words.old)) m (words_for m) words.old result.words.now (flags result.m result.words.now) }
        ensures lent { result.words.ghost_name ≡ words.entry.ghost_name }
    {
        if let Err(fault) = check_bits(m, words.len()) {
            return BitMap {
                m: 0,
                words,
                refusal: Some(fault),
            };
        }
        words[..m.div_ceil(32) as usize].fill(0);
        BitMap {
            m,
            words,
            refusal: None,
        }
    }

    /// Why the making of this fabric was refused, if it was.
    pub fn refusal(&self) -> Option<BlankFault>
        ensures { result ≡ self.now.refusal }
    {
        self.refusal
    }

    /// Whether the link at place i carries.
    #[tactic(auto, using(crate::proofs::Turns::flag_at))]
    fn is_on(&self, i: usize) -> bool
        requires { i < self.now.m }
        ensures { result ≡ slice_index_or (flags self.now.m self.now.words.now) i false }
    {
        (self.words[i / 32] >> (i % 32)) % 2 == 1
    }

    /// Makes a link carry, or with `on` false no longer carry: either turns its bit.
    #[tactic(auto, using(crate::proofs::Turns::length_flags))]
    fn turn(&mut self, link: u32, on: bool) -> Result<(), FabricFault>
        ensures answer { Turns (flags self.old.m self.old.words.now) link on result (flags self.new.m self.new.words.now) }
        ensures kept { OnErr result (self.new ≡ self.old) }
        ensures same { shape_of self.new.m self.new.words.ghost_name ≡ shape_of self.old.m self.old.words.ghost_name }
        ensures memory { OnOk result (self.new.words.now ≡ turned self.old.words.now (link - 1)) }
    {
        let i = place(self.m, link)?;
        check_turn(link, self.is_on(i), on)?;
        self.words[i / 32] ^= 1 << (i % 32);
        Ok(())
    }
}

impl Fabric for BitMap<'_> {
    ghost carrying = { λ s. flags s.m s.words.now };

    ghost Shape = { BitShape };

    ghost shape = { λ s. shape_of s.m s.words.ghost_name };

    #[tactic(auto, using(crate::proofs::Turns::length_flags))]
    fn size(&self) -> u32 {
        self.m
    }

    #[tactic(auto, using(crate::proofs::Turns::length_flags))]
    fn look(&self, link: u32) -> Result<bool, FabricFault> {
        let i = place(self.m, link)?;
        Ok(self.is_on(i))
    }

    fn enable(&mut self, link: u32) -> Result<(), FabricFault>
        ensures answer { Enables (flags self.old.m self.old.words.now) link result (flags self.new.m self.new.words.now) }
        ensures kept { OnErr result (self.new ≡ self.old) }
        ensures same { shape_of self.new.m self.new.words.ghost_name ≡ shape_of self.old.m self.old.words.ghost_name }
        ensures memory { OnOk result (self.new.words.now ≡ turned self.old.words.now (link - 1)) }
    {
        self.turn(link, true)
    }

    fn disable(&mut self, link: u32) -> Result<(), FabricFault>
        ensures answer { Disables (flags self.old.m self.old.words.now) link result (flags self.new.m self.new.words.now) }
        ensures kept { OnErr result (self.new ≡ self.old) }
        ensures same { shape_of self.new.m self.new.words.ghost_name ≡ shape_of self.old.m self.old.words.ghost_name }
        ensures memory { OnOk result (self.new.words.now ≡ turned self.old.words.now (link - 1)) }
    {
        self.turn(link, false)
    }
}
