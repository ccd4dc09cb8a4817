// What is read of objects.
use model::Object;

// An object, and the bit at which the next one starts: a place and no slice, since objects do not start at bytes.
#[derive(Clone, Copy)]
pub struct ReadObject {
    pub object: Object,
    pub next: usize,
}

// What the check of a record's objects finds: the bit at which they end, the last start, and how many are sliders and spinners.
#[derive(Clone, Copy)]
pub struct Scanned {
    pub end: usize,
    pub last: f64,
    pub long: usize,
}
