// Objects: their check, and their values. The functions of a field or an object take the bytes and its bit, and no struct of the two: the bit moves on
// with each, so that the struct would be built anew for each.
#![tactic(auto)]

ghost use Rattle.std.specs.Prelude.{◌≡◌, ◌≤◌, ◌+◌, ◌*◌, eqb};
ghost use Rattle.rules.specs.Coded.{refusal_code};
ghost use Rattle.bits.specs.Field.{bits};
ghost use Rattle.record.specs.Layout as At;
ghost use Rattle.record.specs.Refusal.{field_refusal, fields_refusal};
ghost use Rattle.record.specs.Object.{node_bit, slider_end, slider_at, kind_by, span_field, coordinate, distance_fields, repeats_field, slider_fields, kind_fields, read_object, object_end, read_at, object_refusal, scan};
ghost use Rattle.record.specs.Post.{is_long, EndBy, coded};
ghost use Rattle.record_object.specs.Shape.{number};

use bits::{read_bits, read_flag};
use model::{Kind, Object, Position, limits};
use record::entries::Entries;
use record::layout;
use record::objects::{ReadObject, Scanned};
use record::refusal::{f32_at, f64_at, float_refusal, refuse, whole};
use rules::Refusal;

// The kind that an object's first field says, without what it carries.
#[derive(Clone, Copy)]
enum Shape {
    Circle,
    Slider,
    Spinner,
    Hold,
}

#[tactic(auto, using(bits::specs::Laws::Fields::bits_lt))]
fn shape_at(s: &[u8], at: usize) -> Shape
    requires { at ≤ 1000000000 }
    ensures { number result ≡ bits s.now at 2 }
{
    match read_bits(s, at, 2) {
        0 => Shape::Circle,
        1 => Shape::Slider,
        2 => Shape::Spinner,
        _ => Shape::Hold,
    }
}

fn is_long(shape: Shape) -> bool
    ensures { result ≡ eqb (is_long (number shape)) 1 }
{
    matches!(shape, Shape::Slider | Shape::Spinner)
}

fn read_sound(s: &[u8], at: usize) -> u8
    requires { at ≤ 1000000000 }
    ensures { result ≡ bits s.now at 4 }
{
    read_bits(s, at, 4) as u8
}

fn read_repeats(s: &[u8], at: usize) -> u16
    requires { at ≤ 1000000000 }
    ensures { result ≡ bits s.now at At.repeats_width }
{
    read_bits(s, at, layout::REPEATS_WIDTH) as u16
}

// Of a slider at bit `at` of its own part: the bit before the first node sound.
#[tactic(auto, using(crate::proofs::Objects::flag_value), unfolding(record::specs::Object::node_bit))]
fn node_bit(s: &[u8], at: usize) -> usize
    requires { at ≤ 900000000 }
    ensures { (result ≡ node_bit s.now at) × (result ≤ at + 75) }
{
    let given = read_flag(s, at + layout::IS_GIVEN);
    at + layout::DISTANCE + 64 * usize::from(given)
}

#[tactic(auto, using(crate::proofs::Objects::flag_value), unfolding(record::specs::Object::slider_end))]
fn slider_end(s: &[u8], at: usize) -> usize
    requires { at ≤ 900000000 }
    ensures { (result ≡ slider_end s.now at) × (result ≤ at + 80) }
{
    let node = node_bit(s, at);
    let given = read_flag(s, node);
    node + 1 + 4 * usize::from(given)
}

#[tactic(auto, using(crate::proofs::Objects::distance_flag, crate::proofs::Objects::node_flag), unfolding(record::specs::Object::slider_at))]
fn slider_at(s: &[u8], at: usize) -> Kind
    requires { at ≤ 900000000 }
    ensures { result ≡ slider_at s.now at }
{
    let repeats = read_repeats(s, at);
    let given = read_flag(s, at + layout::IS_GIVEN);
    let distance = given.then(|| f64_at(s, at + layout::DISTANCE));
    let bit = node_bit(s, at);
    let node = read_flag(s, bit).then(|| read_sound(s, bit + 1));
    Kind::Slider {
        repeats,
        distance,
        node,
    }
}

#[tactic(auto, unfolding(record::specs::Object::kind_by))]
fn kind_by(s: &[u8], at: usize, shape: Shape) -> Kind
    requires { at ≤ 900000000 }
    ensures { result ≡ kind_by s.now at (number shape) }
{
    match shape {
        Shape::Circle => Kind::Circle,
        Shape::Slider => slider_at(s, at),
        Shape::Spinner => Kind::Spinner(f64_at(s, at)),
        Shape::Hold => Kind::Hold(f64_at(s, at)),
    }
}

// The value of the object at bit `at`.
fn object_at(s: &[u8], at: usize) -> Object
    requires { at ≤ 800000000 }
    ensures { result ≡ read_object s.now at }
{
    let sound = read_sound(s, at + layout::SOUND);
    let x = f32_at(s, at + layout::X);
    let y = f32_at(s, at + layout::Y);
    let start = f64_at(s, at + layout::START);
    let kind = kind_by(s, at + layout::ADDED, shape_at(s, at));
    let position = Position { x, y };
    Object {
        position,
        start,
        sound,
        kind,
    }
}

// Where the object at bit `at` ends.
#[tactic(auto, unfolding(record::specs::Object::object_end, record::specs::Object::kind_end))]
fn object_end(s: &[u8], at: usize) -> usize
    requires { at ≤ 800000000 }
    ensures { (result ≡ object_end s.now at) × (result ≤ at + At.longest) }
{
    match shape_at(s, at) {
        Shape::Circle => at + layout::ADDED,
        Shape::Slider => slider_end(s, at + layout::ADDED),
        _ => at + layout::DURATION_END,
    }
}

// The object at bit `at`, with the place of the next. The walk's part of a record starts at the byte of the first object's first bit.
pub fn read_object(part: &[u8], at: usize) -> ReadObject
    requires { at ≤ 800000000 }
    ensures { (result ≡ read_at part.now at) × (result.next ≤ at + At.longest) }
{
    let object = object_at(part, at);
    let next = object_end(part, at);
    ReadObject { object, next }
}

// A start or a duration, by its range; so below for a distance, and x and y. A function for each, since its contract names the field.
fn span_refusal(s: &[u8], at: usize) -> Result<(), Refusal>
    requires { at ≤ 1000000000 }
    ensures { refusal_code result ≡ field_refusal s.now (span_field s.now at) }
{
    float_refusal(
        s,
        at,
        limits::LEAST_SPAN,
        limits::MOST_SPAN,
        Refusal::Object,
    )
}

// A slider's distance, where the bit before it is set.
#[tactic(auto, using(crate::proofs::Objects::distance_row))]
fn distance_refusal(s: &[u8], at: usize) -> Result<(), Refusal>
    requires { at ≤ 900000000 }
    ensures { refusal_code result ≡ fields_refusal s.now (distance_fields s.now (at + At.distance) (bits s.now (at + At.is_given) 1)) }
{
    if !read_flag(s, at + layout::IS_GIVEN) {
        return Ok(());
    }
    float_refusal(
        s,
        at + layout::DISTANCE,
        limits::LEAST_DISTANCE,
        limits::MOST_DISTANCE,
        Refusal::Object,
    )
}

fn position_refusal(s: &[u8], at: usize) -> Result<(), Refusal>
    requires { at ≤ 1000000000 }
    ensures { refusal_code result ≡ field_refusal s.now (coordinate s.now at) }
{
    float_refusal(
        s,
        at,
        limits::LEAST_COORDINATE,
        limits::MOST_COORDINATE,
        Refusal::Object,
    )
}

#[tactic(auto, using(record::specs::Laws::Row::row_stop, record::specs::Laws::Row::row_next))]
fn repeats_refusal(s: &[u8], at: usize) -> Result<(), Refusal>
    requires { at ≤ 900000000 }
    ensures { refusal_code result ≡ field_refusal s.now (repeats_field s.now at) }
{
    whole(s, at + layout::REPEATS_WIDTH)?;
    refuse(limits::MOST_REPEATS < read_repeats(s, at), Refusal::Object)
}

#[tactic(auto, using(record::specs::Laws::Row::row_stop, record::specs::Laws::Row::row_next, crate::proofs::Objects::slider_row))]
fn slider_refusal(s: &[u8], at: usize) -> Result<(), Refusal>
    requires { at ≤ 900000000 }
    ensures { refusal_code result ≡ fields_refusal s.now (slider_fields s.now at) }
{
    repeats_refusal(s, at)?;
    whole(s, at + layout::DISTANCE)?;
    distance_refusal(s, at)?;
    whole(s, node_bit(s, at) + 1)?;
    whole(s, slider_end(s, at))
}

#[tactic(auto, using(crate::proofs::Objects::span_row, crate::proofs::Objects::circle_row))]
fn kind_refusal(s: &[u8], at: usize, shape: Shape) -> Result<(), Refusal>
    requires { at ≤ 900000000 }
    ensures { refusal_code result ≡ fields_refusal s.now (kind_fields s.now at (number shape)) }
{
    match shape {
        Shape::Circle => Ok(()),
        Shape::Slider => slider_refusal(s, at),
        _ => span_refusal(s, at),
    }
}

// The object at bit `at`, after one that starts at `before`.
#[tactic(auto, using(record::specs::Laws::Row::row_stop, record::specs::Laws::Row::row_next, crate::proofs::Objects::object_row), unfolding(record::specs::Object::start_at))]
fn object_refusal(s: &[u8], at: usize, before: f64) -> Result<(), Refusal>
    requires { at ≤ 800000000 }
    ensures { refusal_code result ≡ object_refusal s.now at before }
{
    whole(s, at + layout::X)?;
    position_refusal(s, at + layout::X)?;
    position_refusal(s, at + layout::Y)?;
    span_refusal(s, at + layout::START)?;
    refuse(f64_at(s, at + layout::START) < before, Refusal::Object)?;
    kind_refusal(s, at + layout::ADDED, shape_at(s, at))
}

// All objects of a list.
pub fn scan_objects(list: Entries) -> Result<Scanned, Refusal>
    ensures { (coded result ≡ scan list.entry.s.now list.entry.at list.entry.count) × EndBy (list.entry.at + At.longest * list.entry.count) result }
{
    let s = list.s;
    let mut here = list.at;
    let mut last: f64 = 0.0;
    let mut long = 0;
    for _ in 0..list.count {
        object_refusal(s, here, last)?;
        last = f64_at(s, here + layout::START);
        long += usize::from(is_long(shape_at(s, here)));
        here = object_end(s, here);
    }
    Ok(Scanned {
        end: here,
        last,
        long,
    })
}
