// The tree of twiddles: node 1 is its root, node i has the children 2i and 2i + 1.
ghost use Rattle.std.specs.Prelude.{◌≡◌, ◌+◌, ◌*◌, ◌<◌, length, get_or};
ghost use Rattle.algebra.specs.M31.{P};
ghost use Rattle.transform.specs.Tree.{Words};

// The nodes as they lie in scratch, each a word below P. A node and the log size of its block go beside the tree: a struct of
// the three would be taken apart and made again at each call.
#[derive(Clone, Copy)]
pub struct Tree<'a> {
    pub nodes: &'a [u32],
    pub ghost words: { Words nodes.now },
}

impl Tree<'_> {
    pub fn twiddle(self, node: usize) -> u32
        requires { node < length self.nodes.now }
        ensures { (result ≡ get_or self.entry.nodes.now node 0) × (result < P) }
    {
        self.nodes[node]
    }

    // The twiddles of a node's children.
    pub fn children(self, node: usize) -> (u32, u32)
        requires { 2 * node + 1 < length self.nodes.now }
        ensures { (result.0 ≡ get_or self.entry.nodes.now (2 * node) 0)
            × (result.1 ≡ get_or self.entry.nodes.now (2 * node + 1) 0)
            × (result.0 < P) × (result.1 < P) }
    {
        (self.nodes[2 * node], self.nodes[2 * node + 1])
    }
}
