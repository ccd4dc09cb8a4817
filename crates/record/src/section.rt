// The four lists whose entries have one width: breaks, timing points, difficulty points and effect points. The functions of a field or an entry take the
// bytes and its bit, and no struct of the two: the bit moves on with each, so that the struct would be built anew for each.
ghost use Rattle.std.specs.Prelude.{◌≡◌, false, ◌≤◌};
ghost use Rattle.std.specs.Float.{binary64};
ghost use Rattle.std.specs.Float.Ieee.{round};
ghost use Rattle.rules.specs.Coded.{refusal_code};
ghost use Rattle.model.specs.Totals.{break_time};
ghost use Rattle.record.specs.Refusal.{field_refusal};
ghost use Rattle.record.specs.Section.{width_of, time_field, beat_field, velocity_field, point_time, entry_refusal, section_refusal, no_time, breaks};

use crate::entries::Entries;
use crate::layout;
use crate::refusal::{f64_at, float_refusal, refuse, whole};
use model::limits;
use rules::Refusal;

// Below every time. No `Option`: the test that each entry has then serves the first.
const BEFORE_ALL: f64 = limits::LEAST_TIME - 1.0;

// An enum: one loop and one definition of an entry, by its list.
#[derive(Clone, Copy)]
pub enum Section {
    Breaks,
    TimingPoints,
    DifficultyPoints,
    EffectPoints,
}

// The fields of the lists, each by its range. As in header.rt, a function for each, since its contract names the field.
fn time_refusal(s: &[u8], at: usize) -> Result<(), Refusal>
    requires { at ≤ 1000000000 }
    ensures { refusal_code result ≡ field_refusal s.now (time_field s.now at) }
{
    float_refusal(
        s,
        at,
        limits::LEAST_TIME,
        limits::MOST_TIME,
        Refusal::BreakOrPoint,
    )
}

fn beat_refusal(s: &[u8], at: usize) -> Result<(), Refusal>
    requires { at ≤ 1000000000 }
    ensures { refusal_code result ≡ field_refusal s.now (beat_field s.now at) }
{
    float_refusal(
        s,
        at,
        limits::LEAST_BEAT,
        limits::MOST_BEAT,
        Refusal::BreakOrPoint,
    )
}

fn velocity_refusal(s: &[u8], at: usize) -> Result<(), Refusal>
    requires { at ≤ 1000000000 }
    ensures { refusal_code result ≡ field_refusal s.now (velocity_field s.now at) }
{
    float_refusal(
        s,
        at,
        limits::LEAST_VELOCITY,
        limits::MOST_VELOCITY,
        Refusal::BreakOrPoint,
    )
}

// A point's time, after a point at the time `before`.
#[tactic(auto, using(crate::specs::Laws::Row::row_stop, crate::specs::Laws::Row::row_next, crate::specs::Laws::Row::two_own))]
fn rising_refusal(s: &[u8], at: usize, before: f64) -> Result<(), Refusal>
    requires { at ≤ 900000000 }
    ensures { refusal_code result ≡ field_refusal s.now (point_time s.now at before) }
{
    time_refusal(s, at)?;
    refuse(!(before < f64_at(s, at)), Refusal::BreakOrPoint)
}

#[tactic(auto, using(crate::specs::Laws::Row::row_stop, crate::specs::Laws::Row::row_next, crate::specs::Laws::Row::two_own, crate::specs::Laws::Row::then_zero), unfolding(crate::specs::Section::entry_refusal, crate::specs::Refusal::fields_refusal))]
fn break_refusal(s: &[u8], at: usize) -> Result<(), Refusal>
    requires { at ≤ 900000000 }
    ensures { refusal_code result ≡ entry_refusal Section.Breaks s.now at no_time }
{
    let end = at + layout::SECOND;
    time_refusal(s, at)?;
    time_refusal(s, end)?;
    refuse(f64_at(s, end) < f64_at(s, at), Refusal::BreakOrPoint)
}

impl Section {
    // The bits of an entry.
    pub fn width(self) -> usize
        ensures { result ≡ width_of self }
    {
        match self {
            Section::EffectPoints => layout::EFFECT_ENTRY,
            _ => layout::ENTRY,
        }
    }

    // The entry at bit `at`, after one at the time `before`.
    #[tactic(auto, using(crate::specs::Laws::Row::row_stop, crate::specs::Laws::Row::row_next, crate::specs::Laws::Row::then_zero), unfolding(crate::specs::Section::entry_refusal, crate::specs::Refusal::fields_refusal))]
    fn entry_refusal(self, s: &[u8], at: usize, before: f64) -> Result<(), Refusal>
        requires { at ≤ 900000000 }
        ensures { refusal_code result ≡ entry_refusal self s.now at before }
    {
        let second = at + layout::SECOND;
        if let Section::Breaks = self {
            return break_refusal(s, at);
        }
        rising_refusal(s, at, before)?;
        match self {
            Section::TimingPoints => beat_refusal(s, second),
            Section::DifficultyPoints => velocity_refusal(s, second),
            _ => whole(s, at + layout::EFFECT_ENTRY),
        }
    }

    // All entries of a list. `here` goes along, as the definition goes from an entry to the next.
    #[tactic(auto, using(crate::specs::Laws::Entries::list_stop, crate::specs::Laws::Entries::list_done))]
    pub fn refusal(self, list: Entries) -> Result<(), Refusal>
        ensures { refusal_code result ≡ section_refusal self list.entry.s.now list.entry.at list.entry.count }
    {
        let s = list.s;
        let width = self.width();
        let mut here = list.at;
        let mut before: f64 = BEFORE_ALL;
        for _ in 0..list.count {
            self.entry_refusal(s, here, before)?;
            before = f64_at(s, here);
            here += width;
        }
        Ok(())
    }
}

// How long a list's breaks last together, summed in order from 0. `here` goes along, as the definition goes.
pub fn total_break_time(list: Entries) -> f64
    ensures { result ≡ break_time (round binary64 false 0 1) (breaks list.entry.s.now list.entry.at list.entry.count) }
{
    let s = list.s;
    let mut here = list.at;
    let mut sum: f64 = 0.0;
    for _ in 0..list.count {
        let end = f64_at(s, here + layout::SECOND);
        let start = f64_at(s, here);
        sum = sum + (end - start);
        here += layout::ENTRY;
    }
    sum
}
