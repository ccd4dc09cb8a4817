// A list of the record, by where it stands.
ghost use Rattle.std.specs.Prelude.{◌≤◌, ◌+◌, ◌*◌};
ghost use Rattle.model.specs.Limits.{most_entries};
ghost use Rattle.record.specs.Layout.{longest};

// The entries of a list: the bytes that they are read from, the bit of the first, and how many they are. The list ends near, even where each entry has
// an object's most bits.
#[derive(Clone, Copy)]
pub struct Entries<'a> {
    pub s: &'a [u8],
    pub at: usize,
    pub count: usize,
    pub ghost near: { at + longest * count ≤ 200000000 },
    pub ghost few: { count ≤ most_entries },
}
