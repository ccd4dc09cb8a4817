// A deck that a chart can have.
ghost use Rattle.std.specs.Prelude.{◌≡◌, ◌⊎◌, ◌≤◌, ◌<◌, IfSome, IfNone};
ghost use Rattle.model.specs.Limits.{latest_end};
ghost use Rattle.hit_object_lines.specs.Reading.{column_of};
ghost use Rattle.hit_object_reader.specs.Told.{Columns};

// A deck of 1 to 9 columns.
#[derive(Clone, Copy)]
pub struct Deck {
    pub columns: u8,
    pub ghost fits: { Columns columns },
}

impl Deck {
    // The deck of `columns` columns, if there is one.
    pub fn new(columns: u32) -> Option<Deck>
        ensures none { IfNone result ((columns < 1) ⊎ (9 < columns)) }
        ensures some { IfSome result (λ d. d.columns ≡ columns) }
    {
        if columns < 1 || columns > 9 {
            return None;
        }
        Some(Deck {
            columns: columns as u8,
        })
    }

    // floor(x * columns / 512), at most the last.
    pub fn column_of(self, x: u32) -> u8
        requires { x ≤ latest_end }
        ensures { (result ≡ column_of self.columns x) × (result < self.columns) }
    {
        let wide = u32::from(self.columns);
        (x * wide / 512).min(wide - 1) as u8
    }
}
