// The job reader: every condition of a record, in record order.
#![tactic(auto)]

ghost use Rattle.std.specs.Prelude.{◌≡◌, ◌≤◌};
ghost use Rattle.rules.specs.Coded.{refusal_code};
ghost use Rattle.record.specs.Post.{coded};
ghost use Rattle.record.specs.Header.{SmallCounts};
ghost use Rattle.record.specs.Object.{objects};
ghost use Rattle.record.specs.Record.{lists_refusal, fill_refusal, parse, checked_of};
ghost use Rattle.model.specs.Totals.{first_start};

use bits::read_bits;
use record::entries::Entries;
use record::header::{Counts, counts_of, header_refusal, keys_of, places_of, settings_of};
use record::objects::Scanned;
use record::refusal::{f64_at, refuse};
use record::section::Section;
use record::{Summary, layout};
use record_object::scan_objects;
use rules::Refusal;

// Breaks and points.
#[tactic(auto, using(record::specs::Laws::Row::row_stop, record::specs::Laws::Row::row_next), unfolding(record::specs::Record::lists_refusal))]
fn lists_refusal(s: &[u8], n: Counts) -> Result<(), Refusal>
    requires { SmallCounts n }
    ensures { refusal_code result ≡ lists_refusal s.now n }
{
    let places = places_of(n);
    let breaks = Entries {
        s,
        at: layout::BREAKS,
        count: n.breaks,
    };
    let timing = Entries {
        s,
        at: places.timing,
        count: n.timing,
    };
    let difficulty = Entries {
        s,
        at: places.difficulty,
        count: n.difficulty,
    };
    let effect = Entries {
        s,
        at: places.effect,
        count: n.effect,
    };
    Section::Breaks.refusal(breaks)?;
    Section::TimingPoints.refusal(timing)?;
    Section::DifficultyPoints.refusal(difficulty)?;
    Section::EffectPoints.refusal(effect)
}

// The bits from bit `at` to the end of its byte, and what follows.
#[tactic(auto, unfolding(record::specs::Record::fill_refusal))]
fn fill_refusal(s: &[u8], at: usize) -> Result<(), Refusal>
    requires { at ≤ 1000000000 }
    ensures { refusal_code result ≡ fill_refusal s.now at }
{
    let bytes = (at + 7) / 8;
    let filled = read_bits(s, at, 8 * bytes - at) == 0;
    refuse(!filled || bytes < s.len(), Refusal::Filling)
}

// The start of a list's first object, 0 without objects.
fn first_start(list: Entries) -> f64
    ensures { result ≡ first_start (objects list.entry.s.now list.entry.at list.entry.count) }
{
    if list.count == 0 {
        return 0.0;
    }
    f64_at(list.s, list.at + layout::START)
}

// Every condition of a record, in record order; what it is, where none applies.
pub fn check_record(s: &[u8]) -> Result<Summary, Refusal>
    ensures { coded result ≡ checked_of (parse s.now) }
{
    let counts = counts_of(s);
    let places = places_of(counts);
    header_refusal(s)?;
    lists_refusal(s, counts)?;
    let objects = Entries {
        s,
        at: places.objects,
        count: counts.objects,
    };
    let Scanned { end, last, long } = scan_objects(objects)?;
    fill_refusal(s, end)?;
    let keys = keys_of(s);
    let settings = settings_of(s);
    let first = first_start(objects);
    Ok(Summary {
        keys,
        settings,
        counts,
        places,
        first,
        last,
        long,
    })
}
