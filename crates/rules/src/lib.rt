// The language of the conversion's rules: definitions and their laws, and no code but the refusals.
#![tactic(auto)]

ghost use Rattle.std.specs.Prelude.{◌≡◌, if◌then◌else◌};
ghost use Rattle.rules.specs.Coded.{code, refusal_code};

// What a refusal says, and its number. specs/Numbers.antt says what each is, and include/sumopine.h has the same names and numbers.
#[derive(Clone, Copy, Debug, PartialEq, Eq)]
pub enum Refusal {
    FieldNotWhole = 1,
    Version = 2,
    KeyChoice = 3,
    Setting = 4,
    BreakOrPoint = 5,
    Object = 6,
    Filling = 7,
    SliderEnd = 8,
    NoColumn = 9,
    OffDeck = 10,
    ChartTooShort = 11,
    NoDrawLeft = 12,
    ColumnsOrPrevious = 13,
    BrokenChart = 14,
    SheetTooShort = 15,
    LongSearch = 16,
    Times = 17,
    ColumnOffDeck = 18,
    ListTooShort = 19,
    Range = 20,
    Counts = 21,
    NotWhole = 24,
    TextTooShort = 25,
    HitObjects = 26,
}

impl From<Refusal> for u32 {
    ghost from_gives = { λ refusal number. number ≡ code refusal };

    fn from(refusal: Refusal) -> u32 {
        refusal as u32
    }
}

// The refusal, where what it refuses is so.
pub fn refuse(refused: bool, refusal: Refusal) -> Result<(), Refusal>
    ensures { refusal_code result ≡ (if refused then code refusal else 0) }
{
    if refused { Err(refusal) } else { Ok(()) }
}
