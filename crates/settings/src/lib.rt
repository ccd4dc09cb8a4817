// What a song's settings give: the seed, the column count and the conversion difficulty.
#![tactic(auto)]

ghost use Rattle.std.specs.Prelude.{◌≡◌, nat_lt, if◌then◌else◌};
ghost use Rattle.mania.specs.Convert as Convert;
ghost use Rattle.mania.specs.Convert.{columns_by_od, columns_by_share, columns_at, columns_by, keys_or};
ghost use Rattle.mania.specs.PatternGenerator.{or_ten_thousand, drain_time, difficulty_by};
ghost use Rattle.settings.specs.Accepted.{Accepted};

use floats::Way;
use model::Settings;
use model::limits::MOST_DIFFICULTY;

// The first seed word.
pub fn seed(s: Settings) -> u32
    requires { Accepted s }
    ensures { result ≡ Convert.seed s }
{
    let hp_cs = floats::to_count(s.hp + s.cs, Way::Even);
    let od = floats::to_count(s.od * 41.2, Way::Cut);
    let ar = floats::to_count(s.ar, Way::Even);
    hp_cs * 20 + od + ar
}

// ---- the columns

// By od alone: od + 1, from 4 to 7.
#[tactic(auto, unfolding(mania::specs::Convert::columns_by_od))]
fn columns_by_od(od: u32) -> u8
    ensures { result ≡ columns_by_od od }
{
    od.clamp(3, 6) as u8 + 1
}

// The larger of two counts where od is above a bound.
fn by_bound(bound: u32, od: u32, above: u8, other: u8) -> u8
    ensures { result ≡ if nat_lt bound od then above else other }
{
    if bound < od { above } else { other }
}

// By the share of sliders and spinners, and cs and od rounded.
fn columns_by_share(share: f64, cs: u32, od: u32) -> u8
    ensures { result ≡ columns_by_share share cs od }
{
    let few = (share < 0.3) | (5 <= cs);
    if share < 0.2 {
        7
    } else if few {
        by_bound(5, od, 7, 6)
    } else if 0.6 < share {
        by_bound(4, od, 5, 4)
    } else {
        columns_by_od(od)
    }
}

// `target_columns` without a key choice, from cs and od rounded: `long` of the objects are sliders or spinners.
// Two numbers, here and below: with a struct of both, each definition would still take the two.
#[tactic(auto, unfolding(mania::specs::Convert::columns_at))]
pub fn columns_at(cs: u32, od: u32, long: u32, objects: u32) -> u8
    ensures { result ≡ columns_at long objects cs od }
{
    if objects == 0 {
        return columns_by_od(od);
    }
    columns_by_share(f64::from(long) / f64::from(objects), cs, od)
}

// `target_columns` without a key choice, from the settings.
#[tactic(auto, unfolding(mania::specs::Convert::columns_by))]
pub fn target_columns(s: Settings, long: u32, objects: u32) -> u8
    ensures { result ≡ columns_by s long objects }
{
    let cs = floats::to_count(s.cs, Way::Even);
    let od = floats::to_count(s.od, Way::Even);
    columns_at(cs, od, long, objects)
}

// The key choice, else `target_columns`. No choice is 0, as the record has it and `keys_or` reads it: an option here would be made of that number, for one test.
#[tactic(auto, unfolding(mania::specs::Convert::keys_or))]
pub fn columns_of(key: u8, s: Settings, long: u32, objects: u32) -> u8
    ensures { result ≡ keys_or key (columns_by s long objects) }
{
    if key == 0 {
        return target_columns(s, long, objects);
    }
    key
}

// ---- the conversion difficulty

// 10,000 in place of 0.
#[tactic(auto, unfolding(mania::specs::PatternGenerator::or_ten_thousand))]
fn or_ten_thousand(n: i32) -> i32
    ensures { result ≡ or_ten_thousand n }
{
    if n == 0 { 10000 } else { n }
}

// `drain_time`, from the total break time and the starts of the first and the last object.
fn drain_time(breaks: f64, first: f64, last: f64) -> i32
    ensures { result ≡ drain_time breaks first last }
{
    or_ten_thousand(floats::to_whole((last - first - breaks) / 1000.0, Way::Cut))
}

// `conversion_difficulty`.
pub fn conversion_difficulty(s: Settings, breaks: f64, first: f64, last: f64, objects: u32) -> f64
    ensures { result ≡ difficulty_by s breaks first last objects }
{
    let drain = f64::from(drain_time(breaks, first, last));
    let life = f64::from(s.hp + floats::clamp(4.0, 7.0, s.ar)) / 1.5;
    let pace = f64::from(objects) / drain * 9.0;
    floats::min((life + pace) / 38.0 * 5.0 / 1.15, MOST_DIFFICULTY)
}
