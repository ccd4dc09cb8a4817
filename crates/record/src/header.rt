// The header: fields at fixed places.
ghost use Rattle.std.specs.Prelude.{◌≡◌, ◌≤◌};
ghost use Rattle.rules.specs.Coded.{refusal_code};
ghost use Rattle.record.specs.Header.{setting, multiplier, header_refusal, keys_of, settings_of, counts_of, SmallCounts};
ghost use Rattle.record.specs.Refusal.{field_refusal};
ghost use Rattle.record.specs.Record.{places_of, NearPlaces};

use crate::layout;
use crate::refusal::{f32_at, f64_at, float_refusal, refuse, whole};
use bits::read_bits;
use model::{Settings, limits};
use rules::Refusal;

// How many entries each list has.
#[derive(Clone, Copy)]
pub struct Counts {
    pub breaks: usize,
    pub timing: usize,
    pub difficulty: usize,
    pub effect: usize,
    pub objects: usize,
}

// Where each list starts, in bits; the breaks start at `layout::BREAKS`.
#[derive(Clone, Copy)]
pub struct Places {
    pub timing: usize,
    pub difficulty: usize,
    pub effect: usize,
    pub objects: usize,
}

// This field and the next, by the range of each: a function for each, since its contract names the field.
fn setting_refusal(s: &[u8], at: usize) -> Result<(), Refusal>
    requires { at ≤ 1000000000 }
    ensures { refusal_code result ≡ field_refusal s.now (setting s.now at) }
{
    float_refusal(
        s,
        at,
        limits::LEAST_SETTING,
        limits::MOST_SETTING,
        Refusal::Setting,
    )
}

fn multiplier_refusal(s: &[u8]) -> Result<(), Refusal>
    ensures { refusal_code result ≡ field_refusal s.now (multiplier s.now) }
{
    float_refusal(
        s,
        layout::MULTIPLIER,
        limits::LEAST_MULTIPLIER,
        limits::MOST_MULTIPLIER,
        Refusal::Setting,
    )
}

// The counts have no condition but that the last is whole.
#[tactic(auto, using(crate::specs::Laws::Row::row_stop, crate::specs::Laws::Row::row_next, crate::proofs::Rows::header_row))]
pub fn header_refusal(s: &[u8]) -> Result<(), Refusal>
    ensures { refusal_code result ≡ header_refusal s.now }
{
    whole(s, layout::KEYS)?;
    refuse(read_bits(s, layout::VERSION, 4) != 1, Refusal::Version)?;
    whole(s, layout::HP)?;
    refuse(read_bits(s, layout::KEYS, 4) > 9, Refusal::KeyChoice)?;
    setting_refusal(s, layout::HP)?;
    setting_refusal(s, layout::CS)?;
    setting_refusal(s, layout::OD)?;
    setting_refusal(s, layout::AR)?;
    multiplier_refusal(s)?;
    whole(s, layout::BREAKS)
}

pub fn keys_of(s: &[u8]) -> u8
    ensures { result ≡ keys_of s.now }
{
    read_bits(s, layout::KEYS, 4) as u8
}

pub fn settings_of(s: &[u8]) -> Settings
    ensures { result ≡ settings_of s.now }
{
    let hp = f32_at(s, layout::HP);
    let cs = f32_at(s, layout::CS);
    let od = f32_at(s, layout::OD);
    let ar = f32_at(s, layout::AR);
    let multiplier = f64_at(s, layout::MULTIPLIER);
    Settings {
        hp,
        cs,
        od,
        ar,
        multiplier,
    }
}

pub fn counts_of(s: &[u8]) -> Counts
    ensures { (result ≡ counts_of s.now) × SmallCounts result }
{
    let breaks = read_bits(s, layout::BREAK_COUNT, 8) as usize;
    let timing = read_bits(s, layout::TIMING_COUNT, 12) as usize;
    let difficulty = read_bits(s, layout::DIFFICULTY_COUNT, 12) as usize;
    let effect = read_bits(s, layout::EFFECT_COUNT, 12) as usize;
    let objects = read_bits(s, layout::OBJECT_COUNT, 12) as usize;
    Counts {
        breaks,
        timing,
        difficulty,
        effect,
        objects,
    }
}

pub fn places_of(n: Counts) -> Places
    requires { SmallCounts n }
    ensures { (result ≡ places_of n) × NearPlaces result }
{
    let timing = layout::BREAKS + layout::ENTRY * n.breaks;
    let difficulty = timing + layout::ENTRY * n.timing;
    let effect = difficulty + layout::ENTRY * n.difficulty;
    let objects = effect + layout::EFFECT_ENTRY * n.effect;
    Places {
        timing,
        difficulty,
        effect,
        objects,
    }
}
