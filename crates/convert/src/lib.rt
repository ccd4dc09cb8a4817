// The job: a record is read, its objects are converted one after another, and the chart is written.
#![tactic(auto)]

ghost use Rattle.std.specs.Prelude.{◌≡◌, ◌≤◌, length, replicate};
ghost use Rattle.rules.specs.Coded.{code};
ghost use Rattle.job.specs.Job.{job};
ghost use Rattle.record.specs.Record.{song_of};
ghost use Rattle.record.specs.Laws.Known.{Known};
ghost use Rattle.mania.specs.Job.{refusing};
ghost use Rattle.walk.specs.Steps.{Ends};
ghost use Rattle.convert.specs.Ends.{job_end, numbers_of, without_points, song_rule};

use model::limits::MOST_NOTES;
use random::{Draws, Tally};
use record::Summary;
use record::entries::Entries;
use record::layout::BREAKS;
use record::section::total_break_time;
use rules::Refusal;
use walk::{PointCounts, Song, Stopped};

// A finished chart: its length in bytes, and the most draws of one search.
#[derive(Clone, Copy)]
pub struct Converted {
    pub length: usize,
    pub longest: u32,
}

// A refused job: the object's index, 0 before the walk as the C interface tells it, and the draws so far.
#[derive(Clone, Copy)]
pub struct JobRefused {
    pub refusal: Refusal,
    pub object: u32,
    pub draws: u32,
}

// The numbers that the walk takes of a record's song. The difficulty is worked out here, once a job.
fn song_of(bytes: &[u8], m: Summary) -> Song
    requires { Known bytes.now m }
    ensures { result ≡ numbers_of (song_of bytes.now) m.counts }
{
    let settings = m.settings;
    let counts = m.counts;
    let objects = counts.objects as u32;
    let long = m.long as u32;
    let breaks = total_break_time(Entries {
        s: bytes,
        at: BREAKS,
        count: counts.breaks,
    });
    let columns = settings::columns_of(m.keys, settings, long, objects);
    let difficulty = settings::conversion_difficulty(settings, breaks, m.first, m.last, objects);
    let points = PointCounts {
        timing: counts.timing,
        difficulty: counts.difficulty,
        effect: counts.effect,
    };
    Song {
        columns,
        difficulty,
        multiplier: settings.multiplier,
        points,
    }
}

// The same numbers, where the walk receives no points.
fn without_points(g: Song) -> Song
    ensures { result ≡ without_points g }
{
    Song {
        points: PointCounts {
            timing: 0,
            difficulty: 0,
            effect: 0,
        },
        ..g
    }
}

// The walk receives the record from the first timing point's byte, for the points, and from the byte that holds the first object's first bit; without
// objects it receives nothing.
fn walk_part(
    bytes: &[u8],
    m: Summary,
    chart: &mut [u8],
    g: Song,
    d: Draws,
) -> Result<(u32, Draws), Stopped>
    requires { Known bytes.now m × (g ≡ numbers_of (song_of bytes.now) m.counts) × (8 ≤ length chart.old) }
    ensures { Ends (song_rule bytes.now (length chart.old) d) chart.old chart.new result }
{
    // Fixed memory, since there is no heap: an object makes at most MOST_NOTES notes.
    let mut words: [u64; MOST_NOTES] = [0; MOST_NOTES];
    let mut spare: [u64; MOST_NOTES] = [0; MOST_NOTES];
    let counts = m.counts;
    let places = m.places;
    let count = counts.objects;
    let first = places.objects;
    // Two calls: as one, the points, the list and the song would each be chosen by the count.
    if count == 0 {
        let none = without_points(g);
        let list = Entries {
            s: &bytes[0..0],
            at: 0,
            count: 0,
        };
        return walk::walk_objects(&bytes[0..0], list, chart, &mut words, &mut spare, none, d);
    }
    let points = places.timing / 8;
    let list = Entries {
        s: &bytes[first / 8..],
        at: first % 8,
        count,
    };
    walk::walk_objects(&bytes[points..], list, chart, &mut words, &mut spare, g, d)
}

// A refusal zeroes the whole chart buffer.
fn refused(
    chart: &mut [u8],
    refusal: Refusal,
    object: u32,
    draws: u32,
) -> Result<Converted, JobRefused>
    ensures { job_end chart.new result ≡ refusing (code refusal) object draws chart.old }
{
    chart::bytes::zero(chart);
    Err(JobRefused {
        refusal,
        object,
        draws,
    })
}

// The job of an accepted record.
fn convert_song(
    bytes: &[u8],
    m: Summary,
    chart: &mut [u8],
    allowance: u32,
) -> Result<Converted, JobRefused>
    requires { Known bytes.now m }
    ensures { job_end chart.new result ≡ job bytes.now chart.old allowance }
{
    if chart.len() < 8 {
        return refused(chart, Refusal::ChartTooShort, 0, 0);
    }
    let g = song_of(bytes, m);
    let settings = m.settings;
    let random = random::from_seed(settings::seed(settings));
    // Written out, as in `single`: a constructor of draws for the two would be longer with its contract.
    let tally = Tally {
        left: allowance,
        longest: 0,
    };
    let d = Draws { random, tally };
    match walk_part(bytes, m, chart, g, d) {
        Ok((notes, end)) => {
            let after = end.tally;
            let length = chart_writer::finish(chart, g.columns, notes, allowance - after.left);
            Ok(Converted {
                length,
                longest: after.longest,
            })
        }
        Err(stopped) => {
            let refusal = stopped.refused.refusal;
            let after = stopped.refused.draws.tally;
            refused(chart, refusal, stopped.index, allowance - after.left)
        }
    }
}

// A job: the record's bytes, the chart buffer and the allowance.
pub fn convert(bytes: &[u8], chart: &mut [u8], allowance: u32) -> Result<Converted, JobRefused>
    ensures { job_end chart.new result ≡ job bytes.now chart.old allowance }
{
    match job_reader::check_record(bytes) {
        Ok(m) => convert_song(bytes, m, chart, allowance),
        Err(refusal) => refused(chart, refusal, 0, 0),
    }
}
