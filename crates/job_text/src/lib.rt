// What a program prints for an input: of its job what it shows of a chart, or the refusal's line. `charttext` shows the chart's text. The programs
// themselves only read and write.
#![tactic(auto)]

pub mod limits;
pub mod sheets;

ghost use Rattle.std.specs.Prelude.{◌≡◌, List, ℕ, ◌+◌, ◌*◌, ◌≤◌, length};
ghost use Rattle.std.proofs.Common.{lit≤};
ghost use Rattle.chart.specs.Bytes.{splice};
ghost use Rattle.chart_text.specs.Text.{text};
ghost use Rattle.job.specs.Job.{job};
ghost use Rattle.job_text.specs.Limits.{chart_bytes, allowance};
ghost use Rattle.job_text.specs.Printed.{job_by, printed_by, printed};

use crate::limits::{ALLOWANCE, CHART_BYTES, LONGEST_RECORD, TEXT_BYTES};
use chart_text::{put_chart, put_refusal_line};
use convert::convert;
use text::put_word;

// What a program shows of a chart that a job made.
pub trait Show {
    ghost shown: { List ℕ → List ℕ };

    // the bytes that suffice for what is shown of a chart in the chart buffer
    ghost room: { ℕ };

    // Stores what is shown of a chart from the start of `s`, and gives its length.
    fn put(chart: &[u8], s: &mut [u8]) -> usize
        requires chart_size { (8 ≤ length chart.now) × (length chart.now ≤ chart_bytes) }
        requires s_size { room ≤ length s.old }
        ensures value { (result ≡ length (shown chart.now)) × (result ≤ length s.old) }
        ensures s_after { s.new ≡ splice s.old 0 (shown chart.now) };

    // a refusal's line has room too
    ghost line_room: { 64 ≤ room };
}

// Stores what is shown of how the record's job ends from the start of `s`, and gives its length. The chart is made in `chart`.
fn put_job<S: Show>(bytes: &[u8], chart: &mut [u8], s: &mut [u8]) -> usize
    requires { (length chart.old ≤ chart_bytes) × (S.room ≤ length s.old) }
    ensures value { (result ≡ length (job_by S.shown (job bytes.now chart.old allowance))) × (result ≤ length s.old) }
    ensures s_after { s.new ≡ splice s.old 0 (job_by S.shown (job bytes.now chart.old allowance)) }
{
    match convert(bytes, chart, ALLOWANCE) {
        Ok(made) => S::put(&chart[..made.length], s),
        Err(refused) => put_refusal_line(
            s,
            0,
            u32::from(refused.refusal),
            refused.object,
            refused.draws,
        ),
    }
}

// Stores what is printed for an input from the start of `s`, and gives its length.
pub fn put_shown<S: Show>(input: &[u8], s: &mut [u8]) -> usize
    requires { S.room ≤ length s.old }
    ensures value { (result ≡ length (printed_by S.shown input.now)) × (result ≤ length s.old) }
    ensures s_after { s.new ≡ splice s.old 0 (printed_by S.shown input.now) }
{
    if input.len() > LONGEST_RECORD {
        return put_word(s, 0, b"too long\n");
    }
    let mut chart = [0u8; CHART_BYTES];
    put_job::<S>(input, &mut chart, s)
}

// The text of a chart.
pub struct ChartText;

impl Show for ChartText {
    ghost shown = { text };

    ghost room = { 3 * chart_bytes + 64 };

    ghost line_room = { lit≤ tt };

    fn put(chart: &[u8], s: &mut [u8]) -> usize {
        put_chart(chart, s)
    }
}

// Stores what `charttext` prints for an input from the start of `text`, and gives its length. One for each program: the contract says what this one
// prints.
pub fn put_printed(input: &[u8], text: &mut [u8; TEXT_BYTES]) -> usize
    ensures value { (result ≡ length (printed input.now)) × (result ≤ length text.new) }
    ensures text_after { text.new ≡ splice text.old 0 (printed input.now) }
{
    put_shown::<ChartText>(input, text)
}
