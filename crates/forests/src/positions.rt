//! Links at some positions of a table.
ghost use Rattle.std.specs.Prelude.{◌≡◌, ℕ, map, length};
ghost use Rattle.block_records.specs.Words.{link_in, links_in};
ghost use Rattle.forests.specs.Heap.{Indexes};

/// Copies the links at some positions of a table, in turn.
pub fn pick(links: &[[u32; 3]], order: &[u32], out: &mut [[u32; 3]])
    requires indexes { Indexes order.now (length links.now) }
    requires room { length out.old ≡ length order.now }
    ensures { links_in out.new ≡ map (link_in links.now) order.now }
{
    // By index: an iterator that writes `out` beside another says nothing of what it wrote.
    for (k, i) in order.iter().enumerate() {
        out[k] = links[*i as usize];
    }
}
