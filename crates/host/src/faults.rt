// What the call for hosts refuses: what lies beneath it refuses, or memory that is not to be had.
ghost use Rattle.std.specs.Prelude.{◌≡◌, ◌≤◌};
ghost use Rattle.host.specs.Faults.{host_number, records_fault};
ghost use Rattle.host.specs.declared.faults.HostFault.TheVariants.{Memory, Text as of_text, Bench as of_bench};

use bench::BenchFault;
use recording::RecordsFault;
use std::alloc::AllocError;
use text::TextFault;

#[derive(Clone, Copy, PartialEq, Eq, Debug)]
pub enum HostFault {
    Memory,
    Text(TextFault),
    Bench(BenchFault),
}

// Each `From` says by `from_gives` what it makes of a fault, which the one that the toolchain derives does not.
impl From<AllocError> for HostFault {
    ghost from_gives = { λ _ out. out ≡ Memory };

    fn from(_fault: AllocError) -> HostFault {
        HostFault::Memory
    }
}

impl From<TextFault> for HostFault {
    ghost from_gives = { λ fault out. out ≡ of_text fault };

    fn from(fault: TextFault) -> HostFault {
        HostFault::Text(fault)
    }
}

impl From<BenchFault> for HostFault {
    ghost from_gives = { λ fault out. out ≡ of_bench fault };

    fn from(fault: BenchFault) -> HostFault {
        HostFault::Bench(fault)
    }
}

impl From<RecordsFault> for HostFault {
    ghost from_gives = { λ fault out. out ≡ of_bench (records_fault fault) };

    fn from(fault: RecordsFault) -> HostFault {
        HostFault::Bench(BenchFault::from(fault))
    }
}

impl HostFault {
    // The number that stands for the fault outside the program.
    pub fn number(self) -> u32
        ensures value { result ≡ host_number self }
        ensures bound { result ≤ 99 }
    {
        match self {
            HostFault::Memory => 99,
            HostFault::Text(fault) => fault.number(),
            HostFault::Bench(fault) => fault.number(),
        }
    }
}
