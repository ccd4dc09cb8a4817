// One object for a host in C. Assumes nothing.
ghost use Rattle.mania.specs.Single.{single_object};
ghost use Rattle.object_numbers.specs.Single.{distance_of, node_of, kind_of, object_of, facts_of, previous_of, state_of, tells, Gives};

use random::Random;

// Converts one object. The contract speaks of the numbers as the host passes them, also where one does not fit its field. The generator state is read from
// four words and written back to them; the notes are written from the buffer's start. Longer than 40 lines: C passes 35 numbers one by one.
#[unsafe(no_mangle)]
pub extern "C" fn sumopine_object(
    difficulty: f64,
    multiplier: f64,
    beat: f64,
    velocity: f64,
    kiai: u32,
    density: f64,
    previous_time: f64,
    previous_x: f32,
    previous_y: f32,
    previous_mask: u32,
    previous_last: u32,
    previous_stair: u32,
    columns: u32,
    x: f32,
    y: f32,
    start: f64,
    sound: u32,
    kind: u32,
    repeats: u32,
    has_distance: u32,
    distance: f64,
    has_node: u32,
    node: u32,
    duration: f64,
    allowance: u32,
    state_x: &mut u32,
    state_y: &mut u32,
    state_z: &mut u32,
    state_w: &mut u32,
    notes: &mut [u8],
    count: &mut u32,
    mask: &mut u32,
    last: &mut u32,
    stair: &mut u32,
    draws: &mut u32,
) -> u32
    ensures { Gives
        (single_object (facts_of difficulty multiplier beat velocity kiai density)
        (previous_of previous_time previous_x previous_y previous_mask previous_last previous_stair) columns
        (object_of x y start sound (kind_of kind repeats (distance_of has_distance distance) (node_of has_node node) duration))
        (state_of state_x.old state_y.old state_z.old state_w.old) allowance notes.old)
        (tells result count.new mask.new last.new stair.new
        (state_of state_x.new state_y.new state_z.new state_w.new) draws.new)
        notes.new }
{
    let f = object_numbers::facts_of(difficulty, multiplier, beat, velocity, kiai, density);
    let v = object_numbers::previous_of(
        previous_time,
        previous_x,
        previous_y,
        previous_mask,
        previous_last,
        previous_stair,
    );
    let d = object_numbers::given(has_distance, distance);
    let n = object_numbers::given(has_node, object_numbers::saturate_u8(node));
    let k = object_numbers::kind_of(kind, repeats, d, n, duration);
    let o = object_numbers::object_of(x, y, start, sound, k);
    let c = object_numbers::saturate_u8(columns);
    let lent = Random {
        x: *state_x,
        y: *state_y,
        z: *state_z,
        w: *state_w,
    };
    let t = object_numbers::tell(single::convert_object(f, v, c, o, lent, allowance, notes));
    let s = t.state;
    *state_x = s.x;
    *state_y = s.y;
    *state_z = s.z;
    *state_w = s.w;
    *count = t.count;
    *mask = t.mask;
    *last = t.last;
    *stair = t.stair;
    *draws = t.draws;
    t.number
}
