// Songs announced with rounded figures: od, cs and a slider's distance are known only as ranges.
#![tactic(auto)]

ghost use Rattle.std.specs.Prelude.{◌≡◌, ◌+◌, ◌-◌, ◌<◌, ◌≤◌, ◌^◌, ◌&&◌, suc};
ghost use Rattle.std.specs.Float.Ieee.{le};
ghost use Rattle.rules.specs.Coded.{refusal_code};
ghost use Rattle.floats.specs.Range.{in_range};
ghost use Rattle.mania.specs.PathObject as Path;
ghost use Rattle.announced.specs.Announced.{setting_fits, distance_fits, columns_refusal, ColumnsAre, facts_of, object_of, end_at, rest_refusal, EndsAre};
ghost use Rattle.announced.specs.Gathered.{gathered};

use floats::{Float, Way};
use mania::{Facts, PrevValues};
use model::{Kind, Object, Position, limits};
use rules::Refusal;

// A range that a figure lies in, ends included.
#[derive(Clone, Copy)]
pub struct Bounds<F> {
    pub low: F,
    pub high: F,
}

impl<F: Float> Bounds<F> {
    // Both ends lie between two values, and the lower is not above the upper.
    fn fit(self, least: F, most: F) -> bool
        ensures { result ≡ (in_range (F.value least) (F.value most) (F.value self.low) && in_range (F.value least) (F.value most) (F.value self.high) && le (F.value self.low) (F.value self.high)) }
    {
        let low = floats::in_range(self.low, least, most);
        let high = floats::in_range(self.high, least, most);
        low & high & self.low.at_most(self.high)
    }
}

// A slider without its distance, and the facts in force at it.
#[derive(Clone, Copy)]
pub struct Slider {
    pub multiplier: f64,
    pub beat: f64,
    pub velocity: f64,
    pub position: Position,
    pub start: f64,
    pub sound: u8,
    pub repeats: u16,
    pub node: Option<u8>,
}

// ---- the columns

// Both ends are settings that a record can have, and the lower is not above the upper. This and `distance_fits` are one line each, named for the
// definition that it is.
fn setting_fits(range: Bounds<f32>) -> bool
    ensures { result ≡ setting_fits range }
{
    range.fit(limits::LEAST_SETTING, limits::MOST_SETTING)
}

// The first check that fails.
#[tactic(auto, unfolding(crate::specs::Announced::columns_refusal))]
fn columns_refusal(od: Bounds<f32>, cs: Bounds<f32>, long: u32, objects: u32) -> Result<(), Refusal>
    ensures { refusal_code result ≡ columns_refusal od cs long objects }
{
    let fit = setting_fits(od) & setting_fits(cs);
    let many = (limits::MOST_OBJECTS < objects) | (objects < long);
    if !fit {
        return Err(Refusal::Range);
    }
    if many {
        return Err(Refusal::Counts);
    }
    Ok(())
}

// The column counts of every whole od from one to another, with cs rounded at either end of its range: `low`, `high`.
fn gather(from: u32, to: u32, low: u32, high: u32, long: u32, objects: u32) -> u16
    requires { (from ≤ to) × (to < 2 ^ 31) }
    ensures { result ≡ gathered long objects low high from (suc to - from) }
{
    let mut mask: u16 = 0;
    for od in from..=to {
        let a = settings::columns_at(low, od, long, objects);
        let b = settings::columns_at(high, od, long, objects);
        let first = pattern::with_column(mask, a);
        mask = pattern::with_column(first, b);
    }
    mask
}

// The column counts that some f32 values in the ranges yield, without a key choice: `long` of the objects are sliders or spinners.
// Every whole number between the rounded ends of od's range is an od of it, and cs counts only by whether it is 5 or more. `long` and `objects` stay two
// numbers, as in settings: with a struct of both, each definition would still take the two, and the calls would be longer by its name.
pub fn possible_columns(
    od: Bounds<f32>,
    cs: Bounds<f32>,
    long: u32,
    objects: u32,
) -> Result<u16, Refusal>
    ensures { ColumnsAre od cs long objects result }
{
    columns_refusal(od, cs, long, objects)?;
    let od_low = floats::to_count(od.low, Way::Even);
    let od_high = floats::to_count(od.high, Way::Even);
    let cs_low = floats::to_count(cs.low, Way::Even);
    let cs_high = floats::to_count(cs.high, Way::Even);
    Ok(gather(od_low, od_high, cs_low, cs_high, long, objects))
}

// ---- a slider's end

// What a slider's end does not depend on is 0. No `From`: for nothing else are these the facts at a slider.
fn facts_of(slider: Slider) -> Facts
    ensures { result ≡ facts_of slider }
{
    Facts {
        difficulty: 0.0,
        multiplier: slider.multiplier,
        beat: slider.beat,
        velocity: slider.velocity,
        kiai: false,
        density: 0.0,
    }
}

#[tactic(auto, unfolding(crate::specs::Announced::object_of))]
fn object_of(slider: Slider, distance: Option<f64>) -> Object
    ensures { result ≡ object_of slider distance }
{
    Object {
        position: slider.position,
        start: slider.start,
        sound: slider.sound,
        kind: Kind::Slider {
            repeats: slider.repeats,
            distance,
            node: slider.node,
        },
    }
}

// The checks of the single-object entry, with one column and nothing before, so that only 4, 5 and 6 can come.
fn rest_refusal(slider: Slider) -> Result<(), Refusal>
    ensures { refusal_code result ≡ rest_refusal slider }
{
    let facts = facts_of(slider);
    let object = object_of(slider, None);
    entry::entry_refusal(facts, PrevValues::NONE, 1, object)
}

// Both ends are distances that a record can have, and the lower is not above the upper.
fn distance_fits(range: Bounds<f64>) -> bool
    ensures { result ≡ distance_fits range }
{
    range.fit(limits::LEAST_DISTANCE, limits::MOST_DISTANCE)
}

// The end with a distance.
#[tactic(auto, unfolding(crate::specs::Announced::end_at))]
fn end_at(slider: Slider, distance: f64) -> u32
    ensures { result ≡ end_at slider distance }
{
    let facts = facts_of(slider);
    let given = Some(distance);
    let object = object_of(slider, given);
    let spans = u32::from(slider.repeats) + 1;
    slider_times::end_time(facts, object, spans, given)
}

// The earliest and the latest end of a slider with its distance in a range: a larger distance has no earlier end.
pub fn possible_ends(slider: Slider, range: Bounds<f64>) -> Result<(u32, u32), Refusal>
    ensures { EndsAre slider range result }
{
    rest_refusal(slider)?;
    if !distance_fits(range) {
        return Err(Refusal::Range);
    }
    let low = range.low;
    let high = range.high;
    let earliest = end_at(slider, low);
    let latest = end_at(slider, high);
    if limits::LATEST_END < latest {
        return Err(Refusal::SliderEnd);
    }
    Ok((earliest, latest))
}
