// Masks of columns, columns of positions, counts of notes and the search for a column, shared by the three generators.
#![tactic(auto)]

pub mod search;

ghost use Rattle.std.specs.Prelude.{◌≡◌, ◌-◌, ◌^◌, ◌≤◌, ◌<◌, length, ltb};
ghost use Rattle.std.specs.Int.Bits.{bit_or};
ghost use Rattle.std.specs.Int.Count.{ones};
ghost use Rattle.random.specs.Play.{on, searched};
ghost use Rattle.random.specs.Answers.{number};
ghost use Rattle.mania.specs.PatternType.{contains};
ghost use Rattle.mania.specs.Pattern.{free, any_free};
ghost use Rattle.mania.specs.ManiaObject as ManiaObject;
ghost use Rattle.mania.specs.PatternGenerator.{random_start, get_column, note_count, get_random_note_count, get_random_column, next_column, step_to, draw_to, search_on, column_search, find_available_column};
ghost use Rattle.pattern.specs.Answers.{search_end, column_of};
ghost use Rattle.pattern.specs.Listed.{listed};

use floats::Way;
use mania::{Next, Stair};
use model::limits::SEARCH_LIMIT;
use random::{Draws, Outcome, Refused};
use rules::Refusal;
use search::Search;

// A column that a search found, and how many draws the search made.
#[derive(Clone, Copy)]
pub struct Found {
    pub column: u8,
    pub made: u32,
}

// A pattern: the mask of its columns, its last column, and how many words of a lent buffer are its notes. A number beside a buffer: there is no heap, and
// whoever calls a generator lends the room.
#[derive(Clone, Copy)]
pub struct Pattern {
    pub mask: u16,
    pub last: u8,
    pub count: usize,
}

// The pattern without notes. A constant and no `Default`: proofs compute it, and would have to cite what a call gave.
pub const EMPTY: Pattern = Pattern {
    mask: 0,
    last: 0,
    count: 0,
};

// What an object's generator makes: its notes in walk order, with the mask and last column that the next object meets, and the stair.
#[derive(Clone, Copy)]
pub struct Made {
    pub pattern: Pattern,
    pub stair: Stair,
}

// ---- the bits of a convert type: numbers, as the definitions have them

pub const FORCE_STACK: u16 = 1;

pub const FORCE_NOT_STACK: u16 = 2;

pub const KEEP_SINGLE: u16 = 4;

pub const LOW_PROBABILITY: u16 = 8;

pub const GATHERED: u16 = 128;

pub const MIRROR: u16 = 256;

pub const REVERSE: u16 = 512;

pub const CYCLE: u16 = 1024;

pub const STAIR: u16 = 2048;

pub const REVERSE_STAIR: u16 = 4096;

// ---- bits

// The column of a word's note.
pub fn column_of(w: u64) -> u8
    ensures { result ≡ column_of w }
{
    (w % 16) as u8
}

// Whether a convert type has all of the named bits.
pub fn has_type(flags: u16, bits: u16) -> bool
    ensures { result ≡ contains flags bits }
{
    flags & bits == bits
}

// Whether a column is free.
pub fn is_free(mask: u16, c: u8) -> bool
    requires { c < 16 }
    ensures { result ≡ free mask c }
{
    (mask >> c) & 1 == 0
}

// Whether a column in lower..upper is free.
pub fn any_free(mask: u16, lower: u8, upper: u8) -> bool
    requires { (lower ≤ upper) × (upper ≤ 16) }
    ensures { result ≡ any_free mask lower (upper - lower) }
{
    (lower..upper).any(|c| is_free(mask, c))
}

// A mask with one column more.
pub fn with_column(mask: u16, c: u8) -> u16
    requires { c < 16 }
    ensures { result ≡ bit_or mask (2 ^ c) }
{
    mask | (1 << c)
}

// The number of columns in a pattern's mask.
pub fn column_count(mask: u16) -> u32
    ensures { (result ≡ ones mask) × (result ≡ length (listed mask 0 16)) }
{
    u16::count_ones(mask)
}

// Whether a mask leaves a column of the deck.
pub fn leaves_some(columns: u8, mask: u16) -> bool
    ensures { result ≡ ltb (ones mask) columns }
{
    column_count(mask) < columns as u32
}

// ---- columns

// The first column that a search may find.
pub fn random_start(columns: u8) -> u8
    ensures { result ≡ random_start columns }
{
    if columns == 8 { 1 } else { 0 }
}

// How many of the columns that a search may find a mask leaves.
pub fn room(columns: u8, mask: u16) -> u32
    ensures { result ≡ columns - random_start columns - ones mask }
{
    let deck = columns - random_start(columns);
    (deck as u32).saturating_sub(column_count(mask))
}

// The column of a position.
pub fn column(x: f32, total: u8) -> u8
    requires { 0 < total }
    ensures { result ≡ ManiaObject.column x total }
{
    let n = floats::to_count(x / (512.0 / (total as f32)), Way::Floor);
    n.min(u32::from(total - 1)) as u8
}

// The column of a position; of 8 columns one of the last seven.
pub fn get_column(x: f32, columns: u8) -> u8
    requires { 0 < columns }
    ensures { result ≡ get_column x columns }
{
    if columns == 8 {
        1 + column(x, 7)
    } else {
        column(x, columns)
    }
}

// A drawn column in lower..upper: two bounds, as the Rust and the definitions have them. `Search` holds them with their facts where a search passes them on.
pub fn get_random_column(d: Draws, lower: u8, upper: u8) -> Outcome<u8>
    requires { (lower < upper) × (upper ≤ 9) }
    ensures { number result ≡ on (get_random_column lower upper) d }
{
    let (v, next) = random::draw(d)?;
    Ok((random::next_int_range(v, lower, upper), next))
}

// ---- counts of notes

// How many notes a number from 0 to 1 means. The chances one by one, as the Rust's function and the definition take them.
pub fn note_count(p2: f64, p3: f64, p4: f64, p5: f64, p6: f64, val: f64) -> u8
    ensures { result ≡ note_count p2 p3 p4 p5 p6 val }
{
    if val >= 1.0 - p6 {
        6
    } else if val >= 1.0 - p5 {
        5
    } else if val >= 1.0 - p4 {
        4
    } else if val >= 1.0 - p3 {
        3
    } else if val >= 1.0 - p2 {
        2
    } else {
        1
    }
}

// A drawn count of notes.
pub fn get_random_note_count(d: Draws, p2: f64, p3: f64, p4: f64, p5: f64, p6: f64) -> Outcome<u8>
    ensures { number result ≡ on (get_random_note_count p2 p3 p4 p5 p6) d }
{
    let (v, next) = random::draw(d)?;
    let val = random::next_double(v);
    Ok((note_count(p2, p3, p4, p5, p6, val), next))
}

// ---- the search

// The column after c, and after the last one the first.
pub fn next_column(columns: u8, c: u8) -> u8
    requires { c < columns }
    ensures { result ≡ next_column columns c }
{
    if c + 1 == columns {
        random_start(columns)
    } else {
        c + 1
    }
}

// Steps by one until a free column comes, at most once round the deck.
fn step_to(d: Draws, s: Search) -> Outcome<Found>
    ensures { search_end result ≡ on (step_to s.columns s.columns s.taken s.initial) d }
{
    let mut column = s.initial;
    for _ in 0..s.columns {
        column = next_column(s.columns, column);
        if is_free(s.taken, column) {
            return Ok((Found { column, made: 0 }, d));
        }
    }
    Err(Refused {
        refusal: Refusal::NoColumn,
        draws: d,
    })
}

// A refusal of a search that made `made` draws and left `rest`.
fn search_refused(refusal: Refusal, rest: Draws, made: u32) -> Refused
    ensures { (result.refusal ≡ refusal) × (result.draws ≡ searched made rest) }
{
    let draws = random::after_search(rest, made);
    Refused { refusal, draws }
}

// Draws in lower..upper until a free column comes, and counts its draws. `LongSearch` where SEARCH_LIMIT of them found none.
fn draw_to(d: Draws, s: Search) -> Outcome<Found>
    ensures { search_end result ≡ on (draw_to s.lower s.upper s.taken) d }
{
    let mut rest = d;
    for made in 0..SEARCH_LIMIT {
        let (v, next) = random::draw(rest).map_err(|r| search_refused(r.refusal, r.draws, made))?;
        rest = next;
        let column = random::next_int_range(v, s.lower, s.upper);
        if is_free(s.taken, column) {
            let made = made + 1;
            let after = random::after_search(rest, made);
            return Ok((Found { column, made }, after));
        }
    }
    Err(search_refused(Refusal::LongSearch, rest, SEARCH_LIMIT))
}

// How a search goes on from a column that is taken. `Next` is data: a circle's flags choose it at run time, and the rule keeps and matches it too, so
// that a function for each, or a closure, would be no plainer.
fn search_on(d: Draws, s: Search) -> Outcome<Found>
    ensures { search_end result ≡ on (search_on s.next s.columns s.initial s.lower s.upper s.taken) d }
{
    match s.next {
        Next::Draw => draw_to(d, s),
        Next::Step => step_to(d, s),
    }
}

// `initial` where it is free; else, where lower..upper has a free column, one by draws or by steps.
pub fn column_search(d: Draws, s: Search) -> Outcome<Found>
    ensures { search_end result ≡ on (column_search s.next s.columns s.initial s.lower s.upper s.taken) d }
{
    if is_free(s.taken, s.initial) {
        return Ok((
            Found {
                column: s.initial,
                made: 0,
            },
            d,
        ));
    }
    if any_free(s.taken, s.lower, s.upper) {
        return search_on(d, s);
    }
    Err(Refused {
        refusal: Refusal::NoColumn,
        draws: d,
    })
}

// The column of a search. The tally has its draws where no search before made more. A free column is tested here too, so that the compiler takes that
// test into each caller and calls only for a search that goes on.
pub fn find_available_column(d: Draws, s: Search) -> Outcome<u8>
    ensures { number result ≡ on (find_available_column s.next s.columns s.initial s.lower s.upper s.taken) d }
{
    if is_free(s.taken, s.initial) {
        return Ok((s.initial, d));
    }
    let (found, after) = column_search(d, s)?;
    Ok((found.column, after))
}
