// The job record: its definition, and the checks and values of its header and its lists.
#![tactic(auto)]

pub mod entries;
pub mod header;
pub mod layout;
pub mod objects;
pub mod refusal;
pub mod section;

use header::{Counts, Places};
use model::Settings;

// What the check of an accepted record finds: key choice, settings, how many entries each list has and where it starts, the first and the last object's
// start, and how many objects are sliders and spinners. The two starts are no `Option`: both are 0 without objects, as the difficulty takes them.
#[derive(Clone, Copy)]
pub struct Summary {
    pub keys: u8,
    pub settings: Settings,
    pub counts: Counts,
    pub places: Places,
    pub first: f64,
    pub last: f64,
    pub long: usize,
}
