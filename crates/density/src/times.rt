// `LimitedQueue`: at most seven times.
ghost use Rattle.std.specs.Prelude.{◌≤◌};

// The first `len` of the times count, oldest first. An array and its length: the walk keeps no heap, and copies
// what it keeps, which an `ArrayVec` would not let it.
#[derive(Clone, Copy)]
pub struct Density {
    pub times: [f64; 7],
    pub len: u8,
    pub value: f64,
    pub ghost held: { len ≤ 7 },
}
