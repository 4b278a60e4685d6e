// `prune` and `store` of relief_fan_group.rs, in the window's arrays, which are lent.
ghost use Rattle.std.specs.Prelude.{◌≡◌, ◌+◌, ◌≤◌, ◌<◌, [], ◌∷◌, ◌++◌, length, take, drop};
ghost use Rattle.moving_average.specs.Window.{same_time};
ghost use Rattle.moving_average.specs.State.{written};
ghost use Rattle.moving_average.specs.Lent.{leading, last_is, slot};

use reals::sign::is_sign_negative;

// Whether two times are the same: equal, with equal sign bits. So numbers of one 64-bit pattern are, as the Rust asks by `to_bits`; a NaN is the same as none, itself included.
#[tactic(auto, unfolding(crate::specs::Window::same_time))]
pub fn same_time(a: f64, b: f64) -> bool
    ensures { result ≡ same_time a b }
{
    (a == b) & (is_sign_negative(a) == is_sign_negative(b))
}

// Helper: whether the last of the points is at t.
#[tactic(auto, unfolding(crate::specs::Lent::last_is))]
pub fn ends_at(times: &[f64], t: f64) -> bool
    ensures { result ≡ last_is t (length times.now) times.now }
{
    times.last().is_some_and(|&last| same_time(last, t))
}

// Helper: how many of the points are dropped: while a second point exists at or before the cutoff, the first goes.
#[tactic(auto, unfolding(crate::specs::Lent::leading))]
pub fn old_points(times: &[f64], cutoff: f64) -> usize
    ensures { result ≡ leading cutoff (drop 1 times.now) }
{
    times.iter().skip(1).take_while(|&&t| t <= cutoff).count()
}

// The index of a new point, of a window that keeps n points: that of the last one where it is at the same time.
#[tactic(auto, unfolding(crate::specs::Lent::slot))]
pub fn slot(n: usize, same: bool) -> usize
    ensures { result ≡ slot n same }
{
    if same { n.saturating_sub(1) } else { n }
}

// Helper: the j entries from k on come to the front, x follows them, and the entries past it stay. Where rows come at
// equal steps k is 0 or 1, and each has an arm for speed: with 0 nothing moves, and with the constant 1 it is one move
// of memory. With the last arm alone such a row took 6,707 instructions in place of 5,475.
pub fn put(a: &mut [f64; 512], k: usize, j: usize, x: f64)
    requires { (k + j ≤ 512) × (j < 512) }
    ensures { a.new ≡ written (take j (drop k a.old) ++ (x ∷ [])) a.old }
{
    match k {
        0 => {}
        1 => a.copy_within(1..1 + j, 0),
        _ => a.copy_within(k..k + j, 0),
    }
    a[j] = x;
}
