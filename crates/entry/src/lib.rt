// The checks of the single-object entry on the values that it is given, in their order. Each is total: a NaN is out of every range.
#![tactic(auto)]

ghost use Rattle.std.specs.Prelude.{◌≡◌, ◌^◌, ◌≤◌};
ghost use Rattle.mania.specs.Single.{pattern_fits, settings_fit, points_fit, position_fits, distance_fits, node_fits, kind_fits, object_fits, entry_refusal};
ghost use Rattle.rules.specs.Coded.{refusal_code};
ghost use Rattle.entry.specs.Parts.{last_fits};

use mania::{Facts, PrevValues};
use model::{Kind, Object, Position, limits};
use rules::{Refusal, refuse};

// A last column of the mask, or 0 with an empty one. The columns have an upper bound alone, for the shift. The bit
// by itself: `pattern::is_free` is of a crate that this one does not name.
#[tactic(auto, unfolding(crate::specs::Parts::last_fits, mania::specs::Pattern::free))]
fn last_fits(mask: u16, last: u8, columns: u8) -> bool
    requires { columns ≤ 9 }
    ensures { result ≡ last_fits mask last columns }
{
    if mask == 0 {
        last == 0
    } else {
        last < columns && (mask >> last) % 2 != 0
    }
}

// Columns 1 to 9, no mask bit beyond them, and the last column.
#[tactic(auto, unfolding(mania::specs::Single::pattern_fits, crate::specs::Parts::last_fits))]
fn pattern_fits(v: PrevValues, columns: u8) -> bool
    ensures { result ≡ pattern_fits v columns }
{
    (1..=9).contains(&columns) && v.mask < 1 << columns && last_fits(v.mask, v.last, columns)
}

// The multiplier, and a difficulty that is finite and not too high.
fn settings_fit(f: Facts) -> bool
    ensures { result ≡ settings_fit f }
{
    let a = floats::in_range(
        f.multiplier,
        limits::LEAST_MULTIPLIER,
        limits::MOST_MULTIPLIER,
    );
    let b = floats::is_finite(f.difficulty);
    a & (b & (f.difficulty <= limits::MOST_DIFFICULTY))
}

// Beat length and velocity.
fn points_fit(f: Facts) -> bool
    ensures { result ≡ points_fit f }
{
    let a = floats::in_range(f.beat, limits::LEAST_BEAT, limits::MOST_BEAT);
    let b = floats::in_range(f.velocity, limits::LEAST_VELOCITY, limits::MOST_VELOCITY);
    a & b
}

fn position_fits(p: Position) -> bool
    ensures { result ≡ position_fits p }
{
    let a = floats::in_range(p.x, limits::LEAST_COORDINATE, limits::MOST_COORDINATE);
    let b = floats::in_range(p.y, limits::LEAST_COORDINATE, limits::MOST_COORDINATE);
    a & b
}

pub fn distance_fits(d: Option<f64>) -> bool
    ensures { result ≡ distance_fits d }
{
    d.is_none_or(|x| floats::in_range(x, limits::LEAST_DISTANCE, limits::MOST_DISTANCE))
}

#[tactic(auto, unfolding(mania::specs::Single::node_fits))]
fn node_fits(n: Option<u8>) -> bool
    ensures { result ≡ node_fits n }
{
    n.is_none_or(|s| s < 16)
}

// What the kind carries.
fn kind_fits(k: Kind) -> bool
    ensures { result ≡ kind_fits k }
{
    match k {
        Kind::Circle => true,
        Kind::Slider {
            repeats,
            distance,
            node,
        } => (repeats <= limits::MOST_REPEATS) & distance_fits(distance) & node_fits(node),
        Kind::Spinner(duration) | Kind::Hold(duration) => {
            floats::in_range(duration, limits::LEAST_SPAN, limits::MOST_SPAN)
        }
    }
}

// The object, and the previous position, time and density.
fn object_fits(f: Facts, v: PrevValues, o: Object) -> bool
    ensures { result ≡ object_fits f v o }
{
    let start = floats::in_range(o.start, limits::LEAST_SPAN, limits::MOST_SPAN);
    position_fits(o.position)
        & start
        & (o.sound < 16)
        & kind_fits(o.kind)
        & position_fits(v.position)
        & floats::is_finite(v.time)
        & floats::is_finite(f.density)
}

// The first check that fails. Four values one by one, as the definition takes them.
#[tactic(auto, unfolding(mania::specs::Single::entry_refusal))]
pub fn entry_refusal(f: Facts, v: PrevValues, columns: u8, o: Object) -> Result<(), Refusal>
    ensures { refusal_code result ≡ entry_refusal f v columns o }
{
    refuse(!pattern_fits(v, columns), Refusal::ColumnsOrPrevious)?;
    refuse(!settings_fit(f), Refusal::Setting)?;
    refuse(!points_fit(f), Refusal::BreakOrPoint)?;
    refuse(!object_fits(f, v, o), Refusal::Object)
}
