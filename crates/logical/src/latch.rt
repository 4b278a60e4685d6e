// CDL.Logical.Latch: `LatchState` of freeze_protection.rs and of relief_fan_group.rs.
ghost use Rattle.std.specs.Prelude.{◌≡◌};
ghost use Rattle.logical.specs.Latch.{latch_new, latch_output, latch_update};

#[derive(Clone, Copy)]
pub struct LatchState {
    pub held: bool,
    pub prev_u: bool,
}

impl LatchState {
    // Not held; before the first row the input counts as false.
    #[tactic(auto, unfolding(crate::specs::Latch::latch_new))]
    pub fn new() -> Self
        ensures { result ≡ latch_new }
    {
        LatchState {
            held: false,
            prev_u: false,
        }
    }

    // Set where u rises, kept, and off while clear is true: clear wins.
    #[tactic(auto, unfolding(crate::specs::Latch::latch_output))]
    pub fn output(self, u: bool, clear: bool) -> bool
        ensures { result ≡ latch_output self u clear }
    {
        !clear & ((u & !self.prev_u) | self.held)
    }

    #[tactic(auto, unfolding(crate::specs::Latch::latch_update))]
    pub fn update(mut self, u: bool, clear: bool) -> Self
        ensures { result ≡ latch_update self u clear }
    {
        self.held = self.output(u, clear);
        self.prev_u = u;
        self
    }
}
