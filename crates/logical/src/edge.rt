// CDL.Logical.Edge: `EdgeState` of freeze_protection.rs.
ghost use Rattle.std.specs.Prelude.{◌≡◌};
ghost use Rattle.logical.specs.Edge.{edge_new, edge_output, edge_update};

#[derive(Clone, Copy)]
pub struct EdgeState {
    pub previous: bool,
}

impl EdgeState {
    // Before the first row the input counts as false.
    #[tactic(auto, unfolding(crate::specs::Edge::edge_new))]
    pub fn new() -> Self
        ensures { result ≡ edge_new }
    {
        EdgeState { previous: false }
    }

    // True at a row where u is true and was false before.
    #[tactic(auto, unfolding(crate::specs::Edge::edge_output))]
    pub fn output(self, u: bool) -> bool
        ensures { result ≡ edge_output self u }
    {
        u & !self.previous
    }

    #[tactic(auto, unfolding(crate::specs::Edge::edge_update))]
    pub fn update(mut self, u: bool) -> Self
        ensures { result ≡ edge_update self u }
    {
        self.previous = u;
        self
    }
}
