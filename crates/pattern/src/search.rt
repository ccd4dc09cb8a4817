// What a search for a column is given.
ghost use Rattle.std.specs.Prelude.{◌≤◌, ◌<◌};

use mania::Next;

// A search on a deck: how it goes on, its first column, the columns lower..upper that it may draw, and the mask of those taken.
#[derive(Clone, Copy)]
pub struct Search {
    pub next: Next,
    pub columns: u8,
    pub initial: u8,
    pub lower: u8,
    pub upper: u8,
    pub taken: u16,
    pub ghost on_deck: { initial < columns },
    pub ghost deck: { columns ≤ 9 },
    pub ghost some: { lower < upper },
    pub ghost within: { upper ≤ 9 },
}
