// The control point in force at a time, found in the record's bytes.
#![tactic(auto)]

ghost use Rattle.std.specs.Prelude.{◌≡◌, true, MatchOption};
ghost use Rattle.model.specs.ControlPoint.{beat_at, velocity_at, kiai_at};
ghost use Rattle.record.specs.Lookup.{Rising};
ghost use Rattle.record.specs.Section.{timing_points, difficulty_points, effect_points};
ghost use Rattle.record.specs.declared.section.Section.TheVariants.{TimingPoints, DifficultyPoints, EffectPoints};
ghost use Rattle.points.specs.Lasting.{within, passed, Known, NumberLasts, BeatLasts, VelocityLasts, KiaiLasts};

use bits::read_flag;
use model::limits;
use record::entries::Entries;
use record::layout::{EFFECT_ENTRY, ENTRY, SECOND};
use record::refusal::f64_at;
use record::section::Section;

// The time of a point that is never passed: above every start. No `Option`: the test that each point has then serves the end.
const AFTER_ALL: f64 = limits::MOST_SPAN + 1.0;

// How many points of a list are passed from one time on until another. A point is passed at the time t where its own time is at most t.
#[derive(Clone, Copy)]
pub struct Passed {
    pub number: usize,
    pub from: f64,
    pub until: f64,
}

// A value that is in force as long as so many points are passed.
#[derive(Clone, Copy)]
pub struct Lasting<T> {
    pub value: T,
    pub passed: Passed,
}

// Whether the time t lies between the two times: by `<=` alone, as the definition has it, where a range's `contains` compares the other way round too.
fn is_within(p: Passed, t: f64) -> bool
    ensures { result ≡ within p t }
{
    (p.from <= t) & !(p.until <= t)
}

// How many of a list's points are passed at the time t, after those that were passed at another. Starts never fall, so a walk over the objects reads the
// time of each point once. `Rising` stays a clause: a type of a list with its kind could hold it, but each lookup below is for one kind, and would ask for
// that kind in its place.
fn points_up_to(section: Section, list: Entries, p: Passed, t: f64) -> Passed
    requires { Rising section list.s.now list.at list.count × Known (passed section list.s.now list.at list.count) list.count p }
    ensures { (result.number ≡ passed section list.entry.s.now list.entry.at list.entry.count t)
        × NumberLasts section list.entry.s.now list.entry.at list.entry.count result }
{
    let width = section.width();
    let mut from = p.from;
    let first = if from <= t { p.number } else { 0 };
    for number in first..list.count {
        let time = f64_at(list.s, list.at + width * number);
        if !(time <= t) {
            return Passed {
                number,
                from,
                until: time,
            };
        }
        from = time;
    }
    Passed {
        number: list.count,
        from,
        until: AFTER_ALL,
    }
}

// The same, but `None` where as many are passed at t as p says: most often, so the test is the callers' own.
#[inline(always)]
fn newly_passed(section: Section, list: Entries, p: Passed, t: f64) -> Option<Passed>
    requires { Rising section list.s.now list.at list.count × Known (passed section list.s.now list.at list.count) list.count p }
    ensures { MatchOption result (within p t ≡ true) (λ r. (r.number ≡ passed section list.entry.s.now list.entry.at list.entry.count t)
        × NumberLasts section list.entry.s.now list.entry.at list.entry.count r) }
{
    if is_within(p, t) {
        return None;
    }
    Some(points_up_to(section, list, p, t))
}

// The beat length in force at the time t: before the first timing point it is the first's. Like the two below, it returns `c` while that value lasts. The
// three share `newly_passed`; a closure that reads the value would need a contract as long as theirs.
pub fn timing_point_at(list: Entries, c: Lasting<f64>, t: f64) -> Lasting<f64>
    requires { Rising TimingPoints list.s.now list.at list.count × BeatLasts list.s.now list.at list.count c }
    ensures { (result.value ≡ beat_at (timing_points list.entry.s.now list.entry.at list.entry.count) t)
        × BeatLasts list.entry.s.now list.entry.at list.entry.count result }
{
    if list.count == 0 {
        return Lasting {
            value: 1000.0,
            passed: c.passed,
        };
    }
    let after = Entries {
        s: list.s,
        at: list.at + ENTRY,
        count: list.count - 1,
    };
    let Some(passed) = newly_passed(Section::TimingPoints, after, c.passed, t) else {
        return c;
    };
    let value = f64_at(list.s, list.at + ENTRY * passed.number + SECOND);
    Lasting { value, passed }
}

// The slider velocity in force at the time t, among a list's difficulty points.
pub fn difficulty_point_at(list: Entries, c: Lasting<f64>, t: f64) -> Lasting<f64>
    requires { Rising DifficultyPoints list.s.now list.at list.count × VelocityLasts list.s.now list.at list.count c }
    ensures { (result.value ≡ velocity_at (difficulty_points list.entry.s.now list.entry.at list.entry.count) t)
        × VelocityLasts list.entry.s.now list.entry.at list.entry.count result }
{
    let Some(passed) = newly_passed(Section::DifficultyPoints, list, c.passed, t) else {
        return c;
    };
    let value = if passed.number == 0 {
        1.0
    } else {
        f64_at(list.s, list.at + ENTRY * (passed.number - 1) + SECOND)
    };
    Lasting { value, passed }
}

// Whether kiai is in force at the time t, among a list's effect points.
pub fn effect_point_at(list: Entries, c: Lasting<bool>, t: f64) -> Lasting<bool>
    requires { Rising EffectPoints list.s.now list.at list.count × KiaiLasts list.s.now list.at list.count c }
    ensures { (result.value ≡ kiai_at (effect_points list.entry.s.now list.entry.at list.entry.count) t)
        × KiaiLasts list.entry.s.now list.entry.at list.entry.count result }
{
    let Some(passed) = newly_passed(Section::EffectPoints, list, c.passed, t) else {
        return c;
    };
    let value = if passed.number == 0 {
        false
    } else {
        read_flag(
            list.s,
            list.at + EFFECT_ENTRY * (passed.number - 1) + SECOND,
        )
    };
    Lasting { value, passed }
}
