//! Union-find over a lent table of parents: the classes of nodes that links join. A class is named by its smallest node,
//! which alone is its own parent.
ghost use Rattle.std.specs.Prelude.{◌≡◌, ℕ, ◌^◌, ◌<◌, ◌≤◌, not, List, [], ◌∷◌, length, slice_index};
ghost use Rattle.block_records.specs.declared.Link.{Link};
ghost use Rattle.graphs.specs.Graph.{label, joins};
ghost use Rattle.forests.specs.Union.{Falls, Holds, RootsAreLabels};

/// Puts each node into a class of its own.
pub fn start(parent: &mut [u32])
    requires { length parent.old ≤ 2 ^ 32 }
    ensures { Holds [] parent.new }
{
    for (x, up) in parent.iter_mut().enumerate() {
        *up = x as u32;
    }
}

/// Union-find over a lent table of parents, none of which is above its node.
#[derive(Drop)]
pub struct Classes<'a> {
    pub parent: &'a mut [u32],
    ghost falls: { Falls parent.now },
}

impl<'a> Classes<'a> {
    /// Puts each node into a class of its own.
    pub fn new(parent: &'a mut [u32]) -> Classes<'a>
        requires { length parent.old ≤ 2 ^ 32 }
        ensures none { Holds [] result.parent.now }
        ensures size { length result.parent.now ≡ length parent.old }
        ensures lent { result.parent.ghost_name ≡ parent.entry.ghost_name }
    {
        start(parent);
        Classes { parent }
    }

    /// The smallest node of the class of x. On the way there each node is hung under its parent's parent.
    pub(crate) fn find(&mut self, x: u32) -> u32
        requires { x < length self.old.parent.now }
        ensures below { result ≤ x }
        ensures top { slice_index self.new.parent.now result ≡ result }
        ensures finds { (es : List Link) → Holds es self.old.parent.now → (result ≡ label es x) × Holds es self.new.parent.now }
        ensures size { length self.new.parent.now ≡ length self.old.parent.now }
        ensures lent { self.new.parent.ghost_name ≡ self.old.parent.ghost_name }
    {
        // By number: a walk up a tree whose parents stand in lent words, on which it writes.
        let mut at = x;
        let mut up = self.parent[x as usize];
        while up != at {
            let next = self.parent[up as usize];
            self.parent[at as usize] = next;
            at = next;
            up = self.parent[at as usize];
        }
        at
    }

    /// Joins the classes of a and b, and says whether they were apart. The larger root goes under the smaller.
    pub fn unite(&mut self, a: u32, b: u32) -> bool
        requires a_within { a < length self.old.parent.now }
        requires b_within { b < length self.old.parent.now }
        ensures joins { (es : List Link) (e : Link) → e.a.0 ≡ a → e.b.0 ≡ b → Holds es self.old.parent.now → (result ≡ not (joins es a b)) × Holds (e ∷ es) self.new.parent.now }
        ensures size { length self.new.parent.now ≡ length self.old.parent.now }
        ensures lent { self.new.parent.ghost_name ≡ self.old.parent.ghost_name }
    {
        let p = self.find(a);
        let q = self.find(b);
        if p < q {
            self.parent[q as usize] = p;
        } else if q < p {
            self.parent[p as usize] = q;
        }
        p != q
    }
}

/// Its contract is a theorem: in a table that holds the classes of links, the root reached from a node is the smallest
/// node that the links join to it, and a falling table of which that is so holds those classes.
pub fn roots_are_labels()
    ensures { RootsAreLabels }
{}
