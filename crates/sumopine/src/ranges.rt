// Songs announced with rounded figures, for a host in C.
ghost use Rattle.std.specs.Prelude.{◌≡◌};
ghost use Rattle.object_numbers.specs.Single.{saturate8, saturate16};
ghost use Rattle.sumopine.specs.Announced.{setting_range, distance_range, slider_of, CountsTold, EndsTold};

use announced::{Bounds, Slider};
use model::Position;
use object_numbers::{given, saturate_u8, saturate_u16};

// The column counts that some f32 values in the ranges yield: 0 and a bit for each count, or the refusal's number and 0.
#[unsafe(no_mangle)]
pub extern "C" fn sumopine_column_counts(
    od_low: f32,
    od_high: f32,
    cs_low: f32,
    cs_high: f32,
    objects: u32,
    sliders_and_spinners: u32,
    counts: &mut u32,
) -> u32
    ensures { CountsTold (setting_range od_low od_high) (setting_range cs_low cs_high) sliders_and_spinners objects result counts.new }
{
    let od = Bounds {
        low: od_low,
        high: od_high,
    };
    let cs = Bounds {
        low: cs_low,
        high: cs_high,
    };
    match announced::possible_columns(od, cs, sliders_and_spinners, objects) {
        Ok(mask) => {
            *counts = mask as u32;
            0
        }
        Err(refusal) => {
            *counts = 0;
            u32::from(refusal)
        }
    }
}

// A slider from a host's numbers, each as its field holds it.
fn slider_of(
    multiplier: f64,
    beat: f64,
    velocity: f64,
    x: f32,
    y: f32,
    start: f64,
    sound: u32,
    repeats: u32,
    has_node: u32,
    node: u32,
) -> Slider
    ensures { result ≡ slider_of multiplier beat velocity x y start (saturate8 sound) (saturate16 repeats) has_node (saturate8 node) }
{
    let position = Position { x, y };
    let node = given(has_node, saturate_u8(node));
    Slider {
        multiplier,
        beat,
        velocity,
        position,
        start,
        sound: saturate_u8(sound),
        repeats: saturate_u16(repeats),
        node,
    }
}

// The earliest and the latest end of a slider with its distance in a range: 0 and the two in milliseconds, or the refusal's number and zeros.
#[unsafe(no_mangle)]
pub extern "C" fn sumopine_slider_ends(
    multiplier: f64,
    beat: f64,
    velocity: f64,
    x: f32,
    y: f32,
    start: f64,
    sound: u32,
    repeats: u32,
    has_node: u32,
    node: u32,
    distance_low: f64,
    distance_high: f64,
    earliest: &mut u64,
    latest: &mut u64,
) -> u32
    ensures { EndsTold (slider_of multiplier beat velocity x y start sound repeats has_node node)
        (distance_range distance_low distance_high) result earliest.new latest.new }
{
    let s = slider_of(
        multiplier, beat, velocity, x, y, start, sound, repeats, has_node, node,
    );
    let distances = Bounds {
        low: distance_low,
        high: distance_high,
    };
    match announced::possible_ends(s, distances) {
        Ok((first, last)) => {
            *earliest = first as u64;
            *latest = last as u64;
            0
        }
        Err(refusal) => {
            *earliest = 0;
            *latest = 0;
            u32::from(refusal)
        }
    }
}
