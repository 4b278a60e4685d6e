// CDL.Reals.MovingAverage with delta = 300 s: the mean of a sampled input over a window of at most 512 points.
#![tactic(auto)]

pub mod state; // MovingAverageState, by value: the public operations
pub mod lent; // the same on arrays that are lent, without a copy
pub mod window; // dropping and storing
pub mod integral; // the integral at a past time
