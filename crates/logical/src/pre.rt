// CDL.Logical.Pre: `PreState` of relief_fan_group.rs.
ghost use Rattle.std.specs.Prelude.{◌≡◌};
ghost use Rattle.logical.specs.Pre.{pre_new, pre_output, pre_update};

#[derive(Clone, Copy)]
pub struct PreState {
    pub previous: bool,
}

impl PreState {
    #[tactic(auto, unfolding(crate::specs::Pre::pre_new))]
    pub fn new(y_start: bool) -> Self
        ensures { result ≡ pre_new y_start }
    {
        PreState { previous: y_start }
    }

    // The input of the row before; y_start on the first row.
    #[tactic(auto, unfolding(crate::specs::Pre::pre_output))]
    pub fn output(self) -> bool
        ensures { result ≡ pre_output self }
    {
        self.previous
    }

    #[tactic(auto, unfolding(crate::specs::Pre::pre_update))]
    pub fn update(mut self, input: bool) -> Self
        ensures { result ≡ pre_update self input }
    {
        self.previous = input;
        self
    }
}
