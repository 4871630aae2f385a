ghost use Rattle.std.specs.Prelude.{◌≡◌, ℕ, ◌+◌, ◌<◌, ◌≤◌, ◌↔◌, List, [], ◌∷◌, length, drop, slice_index_or, IsTrue, IfSome, IsSomeAnd, OnOk};
ghost use Rattle.theory.specs.Walks.{In, bottom, frame};
ghost use Rattle.walk.specs.Progress.{stack_of, stack_upto, order_of, top_of, pushed, advanced, popped};
ghost use Rattle.walk.specs.Stands.{Small, Stands, Onward, OnlyFrom, Ended, Moved};
ghost use Rattle.walk.specs.Order.{Ordered};
ghost use Rattle.walk.specs.declared.state.Color.TheVariants.{Untouched};

use crate::graph::Graph;
use std::marker::Model;

/// What a walk has done with a node.
#[derive(Clone, Copy, Debug, PartialEq, Eq)]
enum Color {
    Untouched,
    OnStack,
    Done,
}

/// A node that a walk is at, and the number of the edge that it is at.
#[derive(Clone, Copy, Debug, PartialEq, Eq)]
pub struct Frame {
    pub node: u16,
    pub edge: u8,
}

/// A depth-first walk over a graph of at most 2,048 nodes: what it is done with and where it is.
#[derive(Drop)]
pub struct Walk {
    /// The color of each node.
    colors: [Color; 2048],
    // The project fixes plain arrays (no heap, no vector type), so the length in use stands beside.
    /// The nodes that the walk is at, the first at the bottom.
    stack: [Frame; 2048],
    depth: usize,
    // The project fixes plain arrays (no heap, no vector type), so the length in use stands beside.
    /// The nodes that are done, the oldest first.
    order: [u16; 2048],
    done: usize,
}

impl Model for Walk {
    ghost use Rattle.walk.specs.Progress.{Progress, IsWithin, newest_first};

    ghost Value = { Progress };

    ghost view = { λ w. record { colors = w.colors; frames = newest_first w.stack w.depth; done = newest_first w.order w.done } };

    ghost invariant = { λ w. IsWithin w.colors w.stack w.depth w.done };
}

impl Walk {
    /// A walk that has touched nothing.
    pub fn new() -> Walk
        ensures stands { (links : ℕ → List ℕ) (n : ℕ) → Stands links n result }
        ensures nothing { result.done ≡ [] }
        ensures nowhere { stack_of result ≡ bottom }
    {
        Walk {
            colors: [Color::Untouched; 2048],
            stack: [Frame { node: 0, edge: 0 }; 2048],
            depth: 0,
            order: [0; 2048],
            done: 0,
        }
    }

    /// How many nodes are done. In the order in which they were, edges lead back.
    pub fn done(&self) -> usize
        ensures count { result ≡ length self.now.done }
        ensures few { result ≤ 2048 }
        ensures ordered { (links : ℕ → List ℕ) (n : ℕ) → Stands links n self.now → Ordered links self.now }
    {
        self.done
    }

    /// The node that was done as number `i`, from 0.
    pub fn order_at(&self, i: usize) -> u16
        requires { i < length self.now.done }
        ensures { result ≡ order_of self.now i }
    {
        let oldest_first = &self.order[..self.done];
        oldest_first[i]
    }

    /// How many frames the stack has.
    pub fn depth(&self) -> usize
        ensures count { result ≡ length self.now.frames }
        ensures few { result ≤ 2048 }
        ensures whole { stack_upto self.now result ≡ stack_of self.now }
    {
        self.depth
    }

    /// Frame `i` of the stack, from the bottom.
    pub fn stack_at(&self, i: usize) -> Frame
        requires { i < length self.now.frames }
        ensures { stack_upto self.now (i + 1) ≡ frame result.node result.edge (stack_upto self.now i) }
    {
        let lowest_first = &self.stack[..self.depth];
        lowest_first[i]
    }

    /// Whether the walk is done with a node.
    pub fn is_done(&self, node: u16) -> bool
        requires { node < 2048 }
        ensures { (links : ℕ → List ℕ) (n : ℕ) → Stands links n self.now → (IsTrue result ↔ In node self.now.done) }
    {
        self.color(node) == Color::Done
    }

    fn color(&self, node: u16) -> Color
        requires { node < 2048 }
        ensures within { node < length self.now.colors }
        ensures value { slice_index_or self.now.colors node Untouched ≡ result }
    {
        self.colors[usize::from(node)]
    }

    // The frame on the top of the stack.
    fn top(&self) -> Frame
        requires { 0 < length self.now.frames }
        ensures { self.now.frames ≡ result ∷ drop 1 self.now.frames }
    {
        // Field by field, as frames are written: a read of both at once would wait for the writes.
        let top = self.depth - 1;
        Frame {
            node: self.stack[top].node,
            edge: self.stack[top].edge,
        }
    }
}

// The moves of a walk. `advance`, `pop` and `step`, like `top`, ask for a frame on the stack; a type for a walk that has one would
// only hold the walk again.
impl Walk {
    // To an untouched node.
    fn push(&mut self, node: u16)
        requires node { node < 2048 }
        requires room { length self.old.frames < 2048 }
        ensures { self.new ≡ pushed node self.old }
    {
        self.colors[usize::from(node)] = Color::OnStack;
        self.stack[self.depth] = Frame { node, edge: 0 };
        self.depth += 1;
    }

    // To the next edge of the top node.
    fn advance(&mut self)
        requires { IsSomeAnd (top_of self.old) (λ top. top.edge < 255) }
        ensures { IfSome (top_of self.old) (λ top. self.new ≡ advanced top self.old) }
    {
        self.stack[self.depth - 1].edge += 1;
    }

    // The top node is done.
    fn pop(&mut self)
        requires frame { IsSomeAnd (top_of self.old) (λ top. top.node < 2048) }
        requires room { length self.old.done < 2048 }
        ensures { IfSome (top_of self.old) (λ top. self.new ≡ popped top self.old) }
    {
        self.depth -= 1;
        let node = self.stack[self.depth].node;
        self.colors[usize::from(node)] = Color::Done;
        self.order[self.done] = node;
        self.done += 1;
    }

    // One move: the top node is done, or goes to its next edge, or the walk goes along its edge; or that edge comes round.
    fn step<G: Graph>(&mut self, graph: &G) -> Result<(), u16>
        requires small { Small (G.edges graph.now) (G.size graph.now) }
        requires stands { Stands (G.edges graph.now) (G.size graph.now) self.old }
        requires frame { 0 < length self.old.frames }
        ensures onward { Onward (G.edges graph.now) (G.size graph.now) self.old self.new }
        ensures moved { Moved (G.edges graph.now) self.old self.new result }
    {
        let top = self.top();
        let Some(next) = graph.edge(top.node, top.edge) else {
            self.pop();
            return Ok(());
        };
        match self.color(next) {
            Color::Untouched => {
                self.push(next);
                Ok(())
            }
            Color::OnStack => Err(next),
            Color::Done => {
                self.advance();
                Ok(())
            }
        }
    }

    /// Walks from `start` until everything that its edges lead to is done, or until the walk comes round: then the edge that the top
    /// node is at leads to the error, which is a node on the stack.
    pub fn from<G: Graph>(&mut self, graph: &G, start: u16) -> Result<(), u16>
        requires small { Small (G.edges graph.now) (G.size graph.now) }
        requires stands { Stands (G.edges graph.now) (G.size graph.now) self.old }
        requires nowhere { stack_of self.old ≡ bottom }
        requires start { start < G.size graph.now }
        ensures stands { Stands (G.edges graph.now) (G.size graph.now) self.new }
        ensures keeps { (x : ℕ) → In x self.old.done → In x self.new.done }
        ensures only { OnlyFrom (G.edges graph.now) start self.old self.new }
        ensures ended { Ended (G.edges graph.now) self.new result }
        ensures reached { OnOk result (In start self.new.done) }
    {
        // Not `is_done`: that the node has a color is told by `color`, and is needed below.
        if self.color(start) == Color::Done {
            return Ok(());
        }
        self.push(start);
        while self.depth() > 0 {
            self.step(graph)?;
        }
        Ok(())
    }
}
