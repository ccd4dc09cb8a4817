// How many notes of a chart start before a time.
ghost use Rattle.chart.specs.Chart.{notes_in};
ghost use Rattle.chart_lookup.specs.Search.{Parts};

use chart_reader::counted::Notes;

// How many notes start before a bit pattern. Starts never fall, so these are the first notes, and the place of the next one is found by halves:
// std's `partition_point` would do so, but asks for a slice of notes, and a chart is a slice of bytes.
pub fn starting_before(notes: Notes, pattern: u64) -> u32
    ensures { Parts (notes_in notes.entry.chart.now) pattern result }
{
    let mut low = 0;
    let mut high = notes.count;
    while low < high {
        let middle = low + (high - low) / 2;
        if notes.note(middle).start < pattern {
            low = middle + 1;
        } else {
            high = middle;
        }
    }
    low
}
