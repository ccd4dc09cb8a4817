// The density: the last seven times, and the time between them. `LimitedQueue` and `compute_density` of the Rust.
#![tactic(auto)]

ghost use Rattle.std.specs.Prelude.{◌≡◌, ◌-◌, ◌≤◌, take};
ghost use Rattle.mania.specs.LimitedQueue.{density_of, compute_density, unknown_density};
ghost use Rattle.mania.specs.Convert as Convert;
ghost use Rattle.mania.specs.Convert.{node_time};
ghost use Rattle.density.specs.Queued.{queued, pushed};

pub mod times;

use model::Object;
pub use times::Density;

// No time yet, and the density i32::MAX.
pub fn new() -> Density
    ensures { queued result ≡ unknown_density }
{
    Density {
        times: [0.0; 7],
        len: 0,
        value: 2147483647.0,
    }
}

// One more time; the oldest of seven goes. The seven are written out: std's `rotate_left` clears 4,096 bytes of the stack at each call.
fn push(d: Density, time: f64) -> Density
    ensures { queued result ≡ pushed time (queued d) }
{
    let len = d.len;
    let t = d.times;
    let value = d.value;
    if len < 7 {
        let mut times = t;
        let at = len as usize;
        times[at] = time;
        return Density {
            times,
            len: len + 1,
            value,
        };
    }
    Density {
        times: [t[1], t[2], t[3], t[4], t[5], t[6], time],
        len: 7,
        value,
    }
}

// The time from the oldest to the newest over their number; one time alone changes nothing.
fn density_of(d: Density) -> f64
    ensures { result ≡ density_of (take d.len d.times) d.value }
{
    let len = d.len;
    let t = d.times;
    let value = d.value;
    if len < 2 {
        return value;
    }
    let last = (len - 1) as usize;
    (t[last] - t[0]) / (len as f64)
}

// `compute_density`.
pub fn compute_density(d: Density, time: f64) -> Density
    ensures { queued result ≡ compute_density time (queued d) }
{
    let p = push(d, time);
    let value = density_of(p);
    let times = p.times;
    let len = p.len;
    Density { times, len, value }
}

// The time of a slider's n-th node, from its start as it was given.
pub fn node_time(o: Object, length: u32, n: u32) -> f64
    ensures { result ≡ node_time o length n }
{
    o.start + (length as f64) * (n as f64)
}

// After a slider's `count` nodes. The queue holds seven, so earlier nodes do not matter.
pub fn nodes(d: Density, o: Object, length: u32, count: u32) -> Density
    ensures { queued result ≡ Convert.nodes o length count 0 (queued d) }
{
    (count.saturating_sub(7)..count).fold(d, |d, n| compute_density(d, node_time(o, length, n)))
}
