// The lookups of notes around a moment, for a host in C. A list of places is a slice of u32.
ghost use Rattle.std.specs.Prelude.{◌≡◌};
ghost use Rattle.chart_lookup.specs.Lookup.{Starting, Covering, listing, told};
ghost use Rattle.chart_lookup.specs.Nearest.{sought};
ghost use Rattle.sumopine.specs.Lookups.{lookup_number, lookup_count, is_place};

use chart_lookup::nearest::nearest_note;
use chart_lookup::{holds_at, notes_between};
use rules::Refusal;

// A list lookup's answer as two numbers: 0 and how many places were written, 0 of them where nothing is found; or the refusal's number and 0.
fn counted(answer: Result<Option<u32>, Refusal>, count: &mut u64) -> u32
    ensures { (result ≡ lookup_number (told answer)) × (count.new ≡ lookup_count (told answer)) }
{
    match answer {
        Ok(Some(k)) => {
            *count = k as u64;
            0
        }
        Ok(None) => {
            *count = 0;
            0
        }
        Err(refusal) => {
            *count = 0;
            u32::from(refusal)
        }
    }
}

// The notes that start within two times, ends included.
#[unsafe(no_mangle)]
pub extern "C" fn sumopine_notes_between(
    chart: &[u8],
    first: f64,
    second: f64,
    places: &mut [u32],
    count: &mut u64,
) -> u32
    ensures value { result ≡ lookup_number (listing chart.now (Starting first second) places.old).0 }
    ensures count_after { count.new ≡ lookup_count (listing chart.now (Starting first second) places.old).0 }
    ensures places_after { places.new ≡ (listing chart.now (Starting first second) places.old).1 }
{
    let answer = notes_between(chart, first, second, places);
    counted(answer, count)
}

// The holds that cover an instant, both ends included.
#[unsafe(no_mangle)]
pub extern "C" fn sumopine_holds_at(
    chart: &[u8],
    time: f64,
    places: &mut [u32],
    count: &mut u64,
) -> u32
    ensures value { result ≡ lookup_number (listing chart.now (Covering time) places.old).0 }
    ensures count_after { count.new ≡ lookup_count (listing chart.now (Covering time) places.old).0 }
    ensures places_after { places.new ≡ (listing chart.now (Covering time) places.old).1 }
{
    let answer = holds_at(chart, time, places);
    counted(answer, count)
}

// The note of a column whose start is nearest to a time: 0, 1 and its place; 0, 0 and 0 where the column has none; or the refusal's number and zeros.
#[unsafe(no_mangle)]
pub extern "C" fn sumopine_nearest_note(
    chart: &[u8],
    column: u32,
    time: f64,
    found: &mut u32,
    place: &mut u32,
) -> u32
    ensures value { result ≡ lookup_number (sought chart.now column time) }
    ensures found_after { found.new ≡ is_place (sought chart.now column time) }
    ensures place_after { place.new ≡ lookup_count (sought chart.now column time) }
{
    match nearest_note(chart, column, time) {
        Ok(Some(k)) => {
            *found = 1;
            *place = k;
            0
        }
        Ok(None) => {
            *found = 0;
            *place = 0;
            0
        }
        Err(refusal) => {
            *found = 0;
            *place = 0;
            u32::from(refusal)
        }
    }
}
