// Finding notes around a moment, in a chart's bytes.
#![tactic(auto)]

mod covering;
pub mod nearest;
mod starting;
pub mod starts;

ghost use Rattle.std.specs.Prelude.{◌≡◌};
ghost use Rattle.chart_lookup.specs.Lookup.{Starting, Covering, listing, told};

use crate::covering::list_covering;
use crate::starting::list_starting;
use chart_reader::counted::Notes;
use chart_reader::read;
use exact_times::instant::Instant;
use rules::Refusal;

// The notes that start within two times, ends included, listed by their places in the chart: how many places were written, which is one at least, or none
// where there is no such note.
pub fn notes_between(
    chart: &[u8],
    from: f64,
    to: f64,
    list: &mut [u32],
) -> Result<Option<u32>, Refusal>
    ensures { (told result, list.new) ≡ listing chart.now (Starting from to) list.old }
{
    let header = read(chart)?;
    let first = Instant::new(from).ok_or(Refusal::Times)?;
    let last = Instant::new(to).ok_or(Refusal::Times)?;
    if last.t < first.t {
        return Err(Refusal::Times);
    }
    list_starting(Notes::new(chart, header), first, last, list)
}

// The holds that cover an instant, ends included, listed the same way.
pub fn holds_at(chart: &[u8], time: f64, list: &mut [u32]) -> Result<Option<u32>, Refusal>
    ensures { (told result, list.new) ≡ listing chart.now (Covering time) list.old }
{
    let header = read(chart)?;
    let at = Instant::new(time).ok_or(Refusal::Times)?;
    list_covering(Notes::new(chart, header), at, list)
}
