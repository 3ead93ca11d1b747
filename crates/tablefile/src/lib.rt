// Table files: what the letters and bytes of a file are, what is wrong with one, and why none is read, opened or written.
#![tactic(auto)]

ghost use Rattle.std.specs.Prelude.{◌≡◌};
ghost use Rattle.tablefile.specs.declared.Unwritten.TheVariants as unwritten;
ghost use Rattle.tablefile.specs.declared.Unopened.TheVariants as unopened;

pub mod layout;
pub mod numbers;
pub mod zeros;

use table::Refusal;

// An edition of the layout, named by the letters that a file opens with: AVB2 has tagged rows.
#[derive(Clone, Copy)]
pub enum Edition {
    Avb1,
    Avb2,
}

// What is wrong with a file. specs/Reading.antt gives each case its number.
#[derive(Clone, Copy)]
pub enum Fault {
    CutShort,
    Letters,
    RowCount,
    MapBit,
    OutOfRange,
    StatesDefault,
    Trailing,
    TwoPaces,
}

// What is wrong with a file, and at which byte.
#[derive(Clone, Copy)]
pub struct Misread {
    pub fault: Fault,
    pub place: usize,
}

// A file that was read: its edition and its table.
#[derive(Clone, Copy)]
pub struct Loaded {
    pub edition: Edition,
    pub table: table::Table,
}

// Why a file is not opened: it is misread, or its table is refused.
#[derive(Clone, Copy)]
pub enum Unopened {
    Misread(Misread),
    Refused(Refusal),
}

impl From<Misread> for Unopened {
    ghost from_gives = { λ m e. e ≡ unopened.Misread m };

    fn from(m: Misread) -> Unopened {
        Unopened::Misread(m)
    }
}

impl From<Refusal> for Unopened {
    ghost from_gives = { λ r e. e ≡ unopened.Refused r };

    fn from(r: Refusal) -> Unopened {
        Unopened::Refused(r)
    }
}

// Why no file is written: too short a buffer, a tagged row, or the table's refusal.
#[derive(Clone, Copy)]
pub enum Unwritten {
    TooShort,
    Tagged(usize),
    Refused(Refusal),
}

impl From<Refusal> for Unwritten {
    ghost from_gives = { λ r e. e ≡ unwritten.Refused r };

    fn from(r: Refusal) -> Unwritten {
        Unwritten::Refused(r)
    }
}
