// The notes of a slider, one word a note in a lent buffer, and the loops that write them. Each loop is a rule of mania/specs/PathObject.antt: one loop for
// them all would be no plainer, as each asks another mask and other times, in its own order. Whoever calls lends the room, since there is no heap, and each loop
// asks what its own turns take.
#![tactic(auto)]

pub mod turns;

ghost use Rattle.std.specs.Prelude.{◌≡◌, false, ◌&&◌, eqb, ◌+◌, ◌-◌, ◌*◌, ◌^◌, ◌≤◌, ◌<◌, map, length, take, if◌then◌else◌};
ghost use Rattle.random.specs.Play.{on};
ghost use Rattle.mania.specs.PathObject as Path;
ghost use Rattle.mania.specs.declared.Next.TheVariants.{Draw};
ghost use Rattle.mania.specs.PatternGenerator.{random_start, get_random_column, find_available_column};
ghost use Rattle.random.specs.Answers.{number};
ghost use Rattle.pattern.specs.Answers.{pattern};
ghost use Rattle.slider_notes.specs.Words.{of_word, note_of_word, slider_note, Put, PutOther, rises};
ghost use Rattle.slider_notes.specs.Answers.{Places, Reaches};
ghost use Rattle.slider_notes.specs.Turns.{OnDeck};
ghost use Rattle.slider_notes.specs.Order.{endings, Others, Endings, Ordered};

use mania::{Next, Note, PathObjectPatternGenerator};
use pattern::Pattern;
use pattern::search::Search;
use random::{Draws, Outcome};
use turns::Turns;

// A pattern with the column of its last note.
#[derive(Clone, Copy)]
pub struct Reached {
    pub column: u8,
    pub pattern: Pattern,
}

// ---- notes and columns. Columns and times are numbers, and no types of a deck or a bound: each function asks another part of a deck's bounds, and a time would
// be made anew at each step of a loop

// A note as a word: from the lowest bit on, 4 bits of column, 26 of start, 26 of end. Fixed memory: a lent buffer has one word a note.
pub fn word(column: u8, start: u32, end: u32) -> u64
    requires { (column < 9) × (start < 2 ^ 26) × (end < 2 ^ 26) }
    ensures { result ≡ end * 2 ^ 30 + start * 2 ^ 4 + column }
{
    (end as u64) * 1073741824 + (start as u64) * 16 + (column as u64)
}

// Writes one word more.
fn put_word(words: &mut [u64], p: Pattern, w: u64) -> Pattern
    requires { p.count < length words.old }
    ensures { Put words.old words.new p (of_word w) result }
{
    let column = pattern::column_of(w);
    let mask = pattern::with_column(p.mask, column);
    let count = p.count;
    words[count] = w;
    Pattern {
        mask,
        last: column,
        count: count + 1,
    }
}

// Writes one note more.
pub fn put_slider_note(words: &mut [u64], p: Pattern, column: u8, start: u32, end: u32) -> Pattern
    requires { (column < 9) × (start < 2 ^ 26) × (end < 2 ^ 26) × (p.count < length words.old) }
    ensures { Put words.old words.new p (slider_note column start end) result }
{
    put_word(words, p, word(column, start, end))
}

// A column on the deck that is not taken, by draws.
pub fn find_column(d: Draws, columns: u8, initial: u8, taken: u16) -> Outcome<u8>
    requires { (initial < columns) × (columns ≤ 9) }
    ensures { number result ≡ on (find_available_column Draw columns initial (random_start columns) columns taken) d }
{
    let low = pattern::random_start(columns);
    let search = Search {
        next: Next::Draw,
        columns,
        initial,
        lower: low,
        upper: columns,
        taken,
    };
    pattern::find_available_column(d, search)
}

// A drawn column.
pub fn any_column(d: Draws, columns: u8) -> Outcome<u8>
    requires { (1 ≤ columns) × (columns ≤ 9) }
    ensures { number result ≡ on (get_random_column (random_start columns) columns) d }
{
    let low = pattern::random_start(columns);
    pattern::get_random_column(d, low, columns)
}

// ---- the loops

// `add_row`
pub fn add_row(d: Draws, turns: Turns, words: &mut [u64], before: Pattern) -> Outcome<Pattern>
    requires { before.count + turns.n ≤ length words.old }
    ensures { Places words.new (on (Path.add_row turns.g turns.n turns.from turns.first (pattern of_word words.old before)) d) (before.count + turns.n) result }
{
    let mut rest = d;
    let mut p = before;
    let mut time = turns.from;
    let mut c = turns.first;
    for _ in 0..turns.n {
        p = put_slider_note(words, p, c, time, time);
        let own = pattern::with_column(0, c);
        let (e, next) = find_column(rest, turns.g.columns, c, own)?;
        rest = next;
        c = e;
        time += turns.g.length;
    }
    Ok((p, rest))
}

// `add_holds`. The deck is a clause here and in `add_beside`: a type for these two would be no plainer, as only the loops a span apart share a `Turns`.
pub fn add_holds(
    d: Draws,
    g: PathObjectPatternGenerator,
    words: &mut [u64],
    barred: u16,
    n: u32,
    first: u8,
    before: Pattern,
) -> Outcome<Reached>
    requires { OnDeck g first × (g.start < 2 ^ 26) × (g.end < 2 ^ 26) × (before.count + n ≤ length words.old) }
    ensures { Reaches words.new (on (Path.add_holds g barred n first (pattern of_word words.old before)) d) (before.count + n) g.columns result }
{
    let mut rest = d;
    let mut p = before;
    let mut c = first;
    for _ in 0..n {
        let (e, next) = find_column(rest, g.columns, c, p.mask | barred)?;
        p = put_slider_note(words, p, e, g.start, g.end);
        rest = next;
        c = e;
    }
    Ok((
        Reached {
            column: c,
            pattern: p,
        },
        rest,
    ))
}

// Whether a stair goes up from a column: it turns at the ends of the deck.
fn rises(columns: u8, c: u8, up: bool) -> bool
    requires { 2 ≤ columns }
    ensures { result ≡ rises columns c up }
{
    if up {
        c < columns - 1
    } else {
        c <= pattern::random_start(columns)
    }
}

// One column up or down.
fn step(c: u8, up: bool) -> u8
    requires { (c < 9) × (up ≡ false → 1 ≤ c) }
    ensures { result ≡ (if up then c + 1 else c - 1) }
{
    if up { c + 1 } else { c - 1 }
}

// `add_stair`. It draws nothing and is never refused, but answers as the other loops do, since its rule is one of theirs.
pub fn add_stair(
    d: Draws,
    turns: Turns,
    words: &mut [u64],
    rising: bool,
    before: Pattern,
) -> Outcome<Pattern>
    requires { (2 ≤ turns.g.columns) × (before.count + turns.n ≤ length words.old) }
    ensures { Places words.new (on (Path.add_stair turns.g turns.n turns.from turns.first rising (pattern of_word words.old before)) d) (before.count + turns.n) result }
{
    let mut p = before;
    let mut time = turns.from;
    let mut c = turns.first;
    let mut up = rising;
    for _ in 0..turns.n {
        p = put_slider_note(words, p, c, time, time);
        up = rises(turns.g.columns, c, up);
        c = step(c, up);
        time += turns.g.length;
    }
    Ok((p, d))
}

// `legacy`: 1 for 4 to 8 columns.
pub fn legacy(columns: u8) -> u8
    ensures { result ≡ Path.legacy columns }
{
    let middle = (4 <= columns) & (columns <= 8);
    if middle { 1 } else { 0 }
}

// `other_column`: the second column of a row.
pub fn other_column(columns: u8, interval: u8, c: u8) -> u8
    requires { (columns ≤ 9) × (c < columns) × (interval + Path.legacy columns < columns) }
    ensures { result ≡ Path.other_column columns interval c }
{
    let start = pattern::random_start(columns);
    if c + interval < columns - start {
        c + interval + start
    } else {
        c + interval + legacy(columns) - columns
    }
}

// Writes the second note of a row, where there are more than 2 columns.
fn put_other(words: &mut [u64], p: Pattern, columns: u8, interval: u8, c: u8, time: u32) -> Pattern
    requires { (columns ≤ 9) × (c < columns) × (interval + Path.legacy columns < columns) × (time < 2 ^ 26) × (p.count < length words.old) }
    ensures { PutOther words.old words.new p columns (slider_note (Path.other_column columns interval c) time time) result }
{
    if 2 < columns {
        let other = other_column(columns, interval, c);
        return put_slider_note(words, p, other, time, time);
    }
    p
}

// `add_rows`
pub fn add_rows(
    d: Draws,
    turns: Turns,
    words: &mut [u64],
    interval: u8,
    before: Pattern,
) -> Outcome<Pattern>
    requires { (before.count + 2 * turns.n ≤ length words.old) × (interval + Path.legacy turns.g.columns < turns.g.columns) }
    ensures { Places words.new (on (Path.add_rows turns.g interval turns.n turns.from turns.first (pattern of_word words.old before)) d) (before.count + 2 * turns.n) result }
{
    let mut rest = d;
    let mut p = before;
    let mut time = turns.from;
    let mut c = turns.first;
    for _ in 0..turns.n {
        p = put_slider_note(words, p, c, time, time);
        p = put_other(words, p, turns.g.columns, interval, c, time);
        let (e, next) = any_column(rest, turns.g.columns)?;
        rest = next;
        c = e;
        time += turns.g.length;
    }
    Ok((p, rest))
}

// `add_tiles`
pub fn add_tiles(
    d: Draws,
    turns: Turns,
    words: &mut [u64],
    until: u32,
    before: Pattern,
) -> Outcome<Pattern>
    requires { (before.count + turns.n ≤ length words.old) × (until < 2 ^ 26) }
    ensures { Places words.new (on (Path.add_tiles turns.g until turns.n turns.from turns.first (pattern of_word words.old before)) d) (before.count + turns.n) result }
{
    let mut rest = d;
    let mut p = before;
    let mut time = turns.from;
    let mut c = turns.first;
    for _ in 0..turns.n {
        let (e, next) = find_column(rest, turns.g.columns, c, p.mask)?;
        p = put_slider_note(words, p, e, time, until);
        rest = next;
        c = e;
        time += turns.g.length;
    }
    Ok((p, rest))
}

// `add_beside`
pub fn add_beside(
    d: Draws,
    g: PathObjectPatternGenerator,
    words: &mut [u64],
    hold: u8,
    time: u32,
    n: u32,
    first: u8,
    mask: u16,
    before: Pattern,
) -> Outcome<Reached>
    requires { OnDeck g first × (hold < 9) × (time < 2 ^ 26) × (before.count + n ≤ length words.old) }
    ensures { Reaches words.new (on (Path.add_beside g hold time n first mask (pattern of_word words.old before)) d) (before.count + n) g.columns result }
{
    let mut rest = d;
    let mut p = before;
    let mut c = first;
    let mut row = mask;
    for _ in 0..n {
        let taken = pattern::with_column(row, hold);
        let (e, next) = find_column(rest, g.columns, c, taken)?;
        p = put_slider_note(words, p, e, time, time);
        rest = next;
        c = e;
        row = pattern::with_column(row, e);
    }
    Ok((
        Reached {
            column: c,
            pattern: p,
        },
        rest,
    ))
}

// How many circles a row has: none at the slider's start where its sound is plain.
fn beside(bare: bool, time: u32, start: u32, k: u32) -> u32
    ensures { result ≡ (if bare && eqb time start then 0 else k) }
{
    let none = bare & (time == start);
    if none { 0 } else { k }
}

// `add_besides`
pub fn add_besides(
    d: Draws,
    turns: Turns,
    words: &mut [u64],
    hold: u8,
    bare: bool,
    k: u32,
    before: Pattern,
) -> Outcome<Pattern>
    requires { (before.count + 6 * turns.n ≤ length words.old) × (hold < 9) × (k ≤ 6) }
    ensures { Places words.new (on (Path.add_besides turns.g hold bare k turns.n turns.from turns.first (pattern of_word words.old before)) d) (before.count + 6 * turns.n) result }
{
    let mut rest = d;
    let mut p = before;
    let mut time = turns.from;
    let mut c = turns.first;
    for _ in 0..turns.n {
        let here = beside(bare, time, turns.g.start, k);
        let (row, next) = add_beside(rest, turns.g, words, hold, time, here, c, 0, p)?;
        rest = next;
        p = row.pattern;
        c = row.column;
        time += turns.g.length;
    }
    Ok((p, rest))
}

// ---- walk order: first the notes that do not end at the slider's end, then those that do, which are the next object's previous pattern

// The end of a word's note. It and the start are one line each.
pub fn end_of(w: u64) -> u32
    ensures { result ≡ (of_word w).end }
{
    (w / 1073741824 % 67108864) as u32
}

// The start of a word's note.
fn start_of(w: u64) -> u32
    ensures { result ≡ (of_word w).start }
{
    (w / 16 % 67108864) as u32
}

// A word's note: a circle where its two times are equal.
pub fn note_of(w: u64) -> Note
    ensures { result ≡ note_of_word w }
{
    let column = pattern::column_of(w);
    let start = start_of(w);
    let end = end_of(w);
    let from = start as f64;
    if start == end {
        return Note {
            column,
            hold: false,
            start: from,
            duration: 0.0,
        };
    }
    let to = end as f64;
    Note {
        column,
        hold: true,
        start: from,
        duration: to - from,
    }
}

// Copies the notes that do not end at a time, and gives their number, `k`: a `filter` has nowhere to collect without a heap, and std does not say what a
// `zip` with an `iter_mut` writes.
pub fn put_others(src: &[u64], end: u32, dst: &mut [u64]) -> usize
    requires { length src.now ≤ length dst.old }
    ensures { Others src.now (length src.now) end dst.new result }
{
    let mut k = 0;
    for w in src {
        if end_of(*w) != end {
            dst[k] = *w;
            k += 1;
        }
    }
    k
}

// Adds the notes that end at a time to a pattern.
pub fn put_ending(src: &[u64], end: u32, dst: &mut [u64], before: Pattern) -> Pattern
    requires { before.count + endings end (map of_word src.now) ≤ length dst.old }
    ensures { Endings src.now (length src.now) end dst.old dst.new before result }
{
    let mut p = before;
    for w in src {
        if end_of(*w) == end {
            p = put_word(dst, p, *w);
        }
    }
    p
}

// The notes in walk order, and the mask and last column that the next object meets: a single note is not split.
pub fn split(src: &[u64], p: Pattern, end: u32, dst: &mut [u64]) -> Pattern
    requires { (p.count ≤ length src.now) × (p.count ≤ length dst.old) }
    ensures { Ordered end src.now dst.new p result }
{
    let n = p.count;
    let notes = &src[..n];
    let k = put_others(notes, end, dst);
    let first = Pattern {
        count: k,
        ..pattern::EMPTY
    };
    let q = put_ending(notes, end, dst, first);
    if n == 1 {
        return Pattern {
            count: q.count,
            ..p
        };
    }
    q
}
