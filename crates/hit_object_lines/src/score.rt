// A chart whose lines are written.
ghost use Rattle.std.specs.Prelude.{◌≡◌, true, ◌<◌};
ghost use Rattle.chart.specs.Chart.{ok_notes, notes_in};

use chart_reader::counted::Notes;

// The notes and the number of columns of a chart that was read.
#[derive(Clone, Copy)]
pub struct Score<'a> {
    pub notes: Notes<'a>,
    pub columns: u8,
    pub ghost some_columns: { 0 < columns },
    pub ghost ok: { ok_notes columns 0 (notes_in notes.chart.now) ≡ true },
}
