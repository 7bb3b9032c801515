// What a bench refuses, and the number of each refusal.
ghost use Rattle.std.specs.Prelude.{◌≡◌};
ghost use Rattle.bench.specs.Faults.{bench_number, bench_layer, solve_fault, records_fault};
ghost use Rattle.bench.specs.declared.faults.BenchFault.TheVariants.{Tape as of_tape, Room as of_room};

use listing::NoRoom;
use recording::{RecordsFault, TapeFault};
use scale::Layer;
use solver::SolveFault;

#[derive(Clone, Copy, PartialEq, Eq, Debug)]
pub enum BenchFault {
    // The tape refused, or the scale beneath it.
    Tape(TapeFault),
    // A record was refused; records are counted from 0.
    Record { record: usize, fault: TapeFault },
    // A part of the rule does not go with the recording; parts are counted from 0.
    Part { part: usize, fault: TapeFault },
    NoRule,
    Unsolved,
    // The list of this part at this point would have had a 33rd box.
    Full { point: usize, part: usize },
    // The bytes are no whole number of records.
    Ragged,
    // The output has less room than the listing needs.
    Room { needed: usize },
}

// Each `From` says by `from_gives` what it makes of a fault, which the one that the toolchain derives does not.
impl From<TapeFault> for BenchFault {
    ghost from_gives = { λ fault out. out ≡ of_tape fault };

    fn from(fault: TapeFault) -> BenchFault {
        BenchFault::Tape(fault)
    }
}

impl From<RecordsFault> for BenchFault {
    ghost from_gives = { λ fault out. out ≡ records_fault fault };

    fn from(fault: RecordsFault) -> BenchFault {
        match fault {
            RecordsFault::Ragged => BenchFault::Ragged,
            RecordsFault::Record { record, fault } => BenchFault::Record { record, fault },
        }
    }
}

impl From<SolveFault> for BenchFault {
    ghost from_gives = { λ fault out. out ≡ solve_fault fault };

    fn from(fault: SolveFault) -> BenchFault {
        match fault {
            SolveFault::Blank => BenchFault::NoRule,
            SolveFault::NoPoint => BenchFault::Tape(TapeFault::NoPoint),
            SolveFault::Full { point, part } => BenchFault::Full { point, part },
        }
    }
}

impl From<NoRoom> for BenchFault {
    ghost from_gives = { λ fault out. out ≡ of_room fault.needed };

    fn from(fault: NoRoom) -> BenchFault {
        BenchFault::Room {
            needed: fault.needed,
        }
    }
}

impl BenchFault {
    // The number that stands for the fault outside the program.
    pub fn number(self) -> u32
        ensures { result ≡ bench_number self }
    {
        match self {
            BenchFault::Tape(fault)
            | BenchFault::Record { fault, .. }
            | BenchFault::Part { fault, .. } => fault.number(),
            BenchFault::NoRule => 12,
            BenchFault::Unsolved => 13,
            BenchFault::Full { .. } => 14,
            BenchFault::Ragged => 15,
            BenchFault::Room { .. } => 16,
        }
    }

    // The layer that raised the fault.
    pub fn layer(self) -> Layer
        ensures { result ≡ bench_layer self }
    {
        match self {
            BenchFault::Tape(fault)
            | BenchFault::Record { fault, .. }
            | BenchFault::Part { fault, .. } => fault.layer(),
            _ => Layer::Bench,
        }
    }
}
