ghost use Rattle.std.specs.Prelude.{◌≡◌, ℕ, ◌<◌, List};
ghost use Rattle.std.specs.List.{slice_get};

/// A graph whose nodes are the numbers below a bound.
pub trait Graph {
    /// How many nodes there are.
    ghost size: { Self → ℕ };

    /// For each node, where its edges lead.
    ghost edges: { Self → ℕ → List ℕ };

    /// Where edge `k` of a node leads, or nothing if it has no such edge.
    fn edge(&self, node: u16, k: u8) -> Option<u16>
        requires { node < size self.now }
        ensures { result ≡ slice_get (edges self.now node) k };
}
