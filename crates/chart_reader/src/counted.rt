// The notes of a chart that was read.
ghost use Rattle.std.specs.Prelude.{◌≡◌, Ok, ◌<◌, length, get_or};
ghost use Rattle.chart.specs.Chart.{reading, meaning, notes_in, blank};

use crate::note_of;
use chart::{Header, Note};

// A chart's bytes and the number of its notes, which is read once.
#[derive(Clone, Copy)]
pub struct Notes<'a> {
    pub chart: &'a [u8],
    pub count: u32,
    pub ghost counted: { count ≡ length (notes_in chart.now) },
}

impl<'a> Notes<'a> {
    // The notes of a chart, by what its header says.
    pub fn new(chart: &'a [u8], header: Header) -> Self
        requires { meaning (Ok header) ≡ reading chart.now }
        ensures { (result.chart.now ≡ chart.now) × (result.count ≡ header.notes) }
    {
        Notes {
            chart,
            count: header.notes,
        }
    }

    // The note of a place.
    pub fn note(self, place: u32) -> Note
        requires { place < self.count }
        ensures { result ≡ get_or (notes_in self.entry.chart.now) place blank }
    {
        note_of(self.chart, place)
    }
}
