// A chart that a sheet shows.
ghost use Rattle.chart.specs.Chart.{notes_in};
ghost use Rattle.sheet.specs.Fits.{Fits};

use chart_reader::counted::Notes;

// The notes and the number of columns of a chart, each line of whose sheet has its places.
#[derive(Clone, Copy)]
pub struct Sheet<'a> {
    pub notes: Notes<'a>,
    pub columns: u32,
    pub ghost fits: { Fits columns (notes_in notes.chart.now) },
}
