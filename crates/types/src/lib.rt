// The types that every part of the library shares: a step of the log, a step's numbers, an act of a rival plan, a rule of deduction, and a refusal.
// specs/Types.antt gives the papers' number, letter and values for each of their cases.
#![tactic(auto)]

ghost use Rattle.std.specs.Prelude.{◌≡◌, ◌≤◌};
ghost use Rattle.types.specs.Types.{numbers_of, step_of, step_item, act_kind, act_item, deduction_number, deduction_of, told, telling, refusal_number, refusal_line, refusal_item};

// The code of each letter that stands for a step: R, W, L, A and Q.
pub const READ: u32 = b'R' as u32;

pub const WRITE: u32 = b'W' as u32;

pub const FLUSH: u32 = b'L' as u32;

pub const ARRIVE: u32 = b'A' as u32;

pub const RETIRE: u32 = b'Q' as u32;

// And for an act: D and F.
pub const EVICT: u32 = b'D' as u32;

pub const FETCH: u32 = b'F' as u32;

// A step of the log. Its numbers are as given: nothing here says that they are in range.
#[derive(Clone, Copy, Debug, PartialEq, Eq)]
pub enum Step {
    Read {
        item: u32,
    },
    Write {
        item: u32,
        minutes: u32,
    },
    // paper 01: a landing
    Flush,
    // paper 02: A, adds the next sail number with its three values
    Arrive {
        item: u32,
        blocks: u32,
        load: u32,
        write: u32,
    },
    // paper 02: Q, retires a sail
    Retire {
        item: u32,
    },
}

// A step as a call names it: the code of its letter, and then its values. What a step lacks is not looked at, and is 0 where it is told.
#[derive(Clone, Copy, Debug, Default, PartialEq, Eq)]
pub struct Numbers {
    pub kind: u32,
    pub item: u32,
    pub minutes: u32,
    pub blocks: u32,
    pub load: u32,
    pub write: u32,
}

// An act of a plan, done before a step is served.
#[derive(Clone, Copy, Debug, PartialEq, Eq)]
pub enum Act {
    // paper 01: D, drops a held sail
    Evict { item: u32 },
    // paper 01: F, fetches a sail not held
    Fetch { item: u32 },
}

// The rule of deduction: which of its two credits an item loses from first. It is chosen at the opening.
#[derive(Clone, Copy, Debug, PartialEq, Eq)]
pub enum Deduction {
    // paper 01's: from the write credit first
    WriteFirst,
    // paper 02's: from the load credit first
    LoadFirst,
}

// A refusal, one case for each number of the table: 1 to 17 are paper 01's, 18 to 20 paper 02's. The payload is the line of the text, counted
// from 1; it is 0 where a call is refused and no text was read. Some name the item that they are about.
#[derive(Clone, Copy, Debug, PartialEq, Eq)]
pub enum Refusal {
    // 1, torn
    Malformed { line: u32 },
    // 2, heading
    Heading { line: u32 },
    // 3, off the tape
    OutOfRange { line: u32 },
    // 4, miscounted
    OutOfSequence { line: u32 },
    // 5, outsized rival
    PlanTooLarge { line: u32 },
    // 6, stranger
    UnknownItem { line: u32, item: u32 },
    // 7, too bulky
    ItemTooLarge { line: u32, item: u32 },
    // 8, log full
    LogFull { line: u32 },
    // 9, closed
    Closed { line: u32 },
    // 10, out of turn
    ActOutOfOrder { line: u32 },
    // 11, not aboard
    NotHeld { line: u32, item: u32 },
    // 12, aboard
    AlreadyHeld { line: u32, item: u32 },
    // 13, overstowed
    OverCapacity { line: u32 },
    // 14, missing
    RequestNotHeld { line: u32, item: u32 },
    // 15, short page
    ShortBuffer { line: u32 },
    // 16, long roll
    InputTooLong { line: u32 },
    // 17, foul locker
    InvalidState { line: u32 },
    // 18, odd rule
    UnknownRule { line: u32 },
    // 19, misnumbered
    NotNextNumber { line: u32, item: u32 },
    // 20, gone
    RetiredItem { line: u32, item: u32 },
}

impl Step {
    // The step's numbers. Its letter stands for it in the log, as its code.
    pub fn numbers(self) -> Numbers
        ensures { result ≡ numbers_of self }
    {
        let none = Numbers::default();
        match self {
            Step::Read { item } => Numbers {
                kind: READ,
                item,
                ..none
            },
            Step::Write { item, minutes } => Numbers {
                kind: WRITE,
                item,
                minutes,
                ..none
            },
            Step::Flush => Numbers {
                kind: FLUSH,
                ..none
            },
            Step::Arrive {
                item,
                blocks,
                load,
                write,
            } => Numbers {
                kind: ARRIVE,
                item,
                blocks,
                load,
                write,
                ..none
            },
            Step::Retire { item } => Numbers {
                kind: RETIRE,
                item,
                ..none
            },
        }
    }

    // The item that the step names; 0 for a flush, which names none.
    pub fn item(self) -> u32
        ensures { result ≡ step_item self }
    {
        match self {
            Step::Read { item }
            | Step::Write { item, .. }
            | Step::Arrive { item, .. }
            | Step::Retire { item } => item,
            Step::Flush => 0,
        }
    }
}

// The step of a known kind; every other kind is a flush here: whoever takes numbers asks first whether the kind is one. Kept by hand: a
// `TryFrom` would ask again what the range of a step's numbers, tested before, has told.
#[tactic(auto, unfolding(crate::specs::Types::step_of))]
pub fn step_of(n: Numbers) -> Step
    ensures { result ≡ step_of n }
{
    let item = n.item;
    match n.kind {
        READ => Step::Read { item },
        WRITE => Step::Write {
            item,
            minutes: n.minutes,
        },
        ARRIVE => Step::Arrive {
            item,
            blocks: n.blocks,
            load: n.load,
            write: n.write,
        },
        RETIRE => Step::Retire { item },
        _ => Step::Flush,
    }
}

impl Act {
    // The letter that stands for the act in the text, as its code.
    pub fn kind(self) -> u32
        ensures { result ≡ act_kind self }
    {
        match self {
            Act::Evict { .. } => EVICT,
            Act::Fetch { .. } => FETCH,
        }
    }

    pub fn item(self) -> u32
        ensures { result ≡ act_item self }
    {
        match self {
            Act::Evict { item } | Act::Fetch { item } => item,
        }
    }
}

impl Deduction {
    // The number by which a call names the rule.
    pub fn number(self) -> u32
        ensures { result ≡ deduction_number self }
    {
        match self {
            Deduction::WriteFirst => 0,
            Deduction::LoadFirst => 1,
        }
    }
}

// The rule of deduction of a number: 0 is write-first. Every other is load-first here; whoever takes a number from a call asks first
// whether it is a rule's. Kept by hand: a state's bytes may hold any number, and what they hold is a rule all the same.
pub fn deduction_of(number: u32) -> Deduction
    ensures { result ≡ deduction_of number }
{
    match number {
        0 => Deduction::WriteFirst,
        _ => Deduction::LoadFirst,
    }
}

impl Refusal {
    // The number in the table of refusals.
    pub fn number(self) -> u32
        ensures { result ≡ refusal_number self }
    {
        match self {
            Refusal::Malformed { .. } => 1,
            Refusal::Heading { .. } => 2,
            Refusal::OutOfRange { .. } => 3,
            Refusal::OutOfSequence { .. } => 4,
            Refusal::PlanTooLarge { .. } => 5,
            Refusal::UnknownItem { .. } => 6,
            Refusal::ItemTooLarge { .. } => 7,
            Refusal::LogFull { .. } => 8,
            Refusal::Closed { .. } => 9,
            Refusal::ActOutOfOrder { .. } => 10,
            Refusal::NotHeld { .. } => 11,
            Refusal::AlreadyHeld { .. } => 12,
            Refusal::OverCapacity { .. } => 13,
            Refusal::RequestNotHeld { .. } => 14,
            Refusal::ShortBuffer { .. } => 15,
            Refusal::InputTooLong { .. } => 16,
            Refusal::InvalidState { .. } => 17,
            Refusal::UnknownRule { .. } => 18,
            Refusal::NotNextNumber { .. } => 19,
            Refusal::RetiredItem { .. } => 20,
        }
    }

    // The line of the text, counted from 1; 0 where no text was read.
    pub fn line(self) -> u32
        ensures { result ≡ refusal_line self }
    {
        match self {
            Refusal::Malformed { line }
            | Refusal::Heading { line }
            | Refusal::OutOfRange { line }
            | Refusal::OutOfSequence { line }
            | Refusal::PlanTooLarge { line }
            | Refusal::UnknownItem { line, .. }
            | Refusal::ItemTooLarge { line, .. }
            | Refusal::LogFull { line }
            | Refusal::Closed { line }
            | Refusal::ActOutOfOrder { line }
            | Refusal::NotHeld { line, .. }
            | Refusal::AlreadyHeld { line, .. }
            | Refusal::OverCapacity { line }
            | Refusal::RequestNotHeld { line, .. }
            | Refusal::ShortBuffer { line }
            | Refusal::InputTooLong { line }
            | Refusal::InvalidState { line }
            | Refusal::UnknownRule { line }
            | Refusal::NotNextNumber { line, .. }
            | Refusal::RetiredItem { line, .. } => line,
        }
    }

    // The item that the refusal is about; 0 where it names none.
    pub fn item(self) -> u32
        ensures { result ≡ refusal_item self }
    {
        match self {
            Refusal::UnknownItem { item, .. }
            | Refusal::ItemTooLarge { item, .. }
            | Refusal::NotHeld { item, .. }
            | Refusal::AlreadyHeld { item, .. }
            | Refusal::RequestNotHeld { item, .. }
            | Refusal::NotNextNumber { item, .. }
            | Refusal::RetiredItem { item, .. } => item,
            _ => 0,
        }
    }
}

// The refusal of a number of the table, told on a line of the text. The item is looked at where the number names one.
pub fn refusal_of(number: u32, line: u32, item: u32) -> Refusal
    requires { (1 ≤ number) × (number ≤ 20) }
    ensures { told result ≡ telling number line item }
{
    match number {
        1 => Refusal::Malformed { line },
        2 => Refusal::Heading { line },
        3 => Refusal::OutOfRange { line },
        4 => Refusal::OutOfSequence { line },
        5 => Refusal::PlanTooLarge { line },
        6 => Refusal::UnknownItem { line, item },
        7 => Refusal::ItemTooLarge { line, item },
        8 => Refusal::LogFull { line },
        9 => Refusal::Closed { line },
        10 => Refusal::ActOutOfOrder { line },
        11 => Refusal::NotHeld { line, item },
        12 => Refusal::AlreadyHeld { line, item },
        13 => Refusal::OverCapacity { line },
        14 => Refusal::RequestNotHeld { line, item },
        15 => Refusal::ShortBuffer { line },
        16 => Refusal::InputTooLong { line },
        17 => Refusal::InvalidState { line },
        18 => Refusal::UnknownRule { line },
        19 => Refusal::NotNextNumber { line, item },
        _ => Refusal::RetiredItem { line, item },
    }
}
