//! Why bytes, or a source of bytes, give no root.

use braid_io::ReadStop;
use ring_file::ProblemFault;
use root_system::RootFault;

/// Why bytes give no root.
#[derive(Clone, Copy, Debug, PartialEq)]
pub enum RootStop {
    /// The bytes state no problem; the fault is never `OutOfMemory`.
    Problem(ProblemFault),
    /// The ring has `count` unknowns, more than 4,096.
    TooManyUnknowns { count: u64 },
    /// The root has `count` equations, more than 65,536, and its unknowns are within their limit.
    TooManyEquations { count: u64 },
    /// Memory could not be had.
    OutOfMemory,
}

/// Why a source gives no root.
#[derive(Clone, Copy, Debug, PartialEq)]
pub enum InputFault {
    /// A read failed, and at most 1,048,576 bytes came before.
    ReadFault,
    /// More than 1,048,576 bytes came before the end.
    TooLong,
    /// All bytes were read, and they state no problem; the fault is never `OutOfMemory`.
    Problem(ProblemFault),
    /// The ring has `count` unknowns, more than 4,096.
    TooManyUnknowns { count: u64 },
    /// The root has `count` equations, more than 65,536, and its unknowns are within their limit.
    TooManyEquations { count: u64 },
    /// Memory could not be had.
    OutOfMemory,
}

impl From<ProblemFault> for RootStop {
    ghost use Rattle.std.specs.Prelude.{◌≡◌};
    ghost use Rattle.root_input.specs.Faults.{problem_stop};

    ghost from_gives = { λ fault stop. stop ≡ problem_stop fault };

    fn from(fault: ProblemFault) -> RootStop {
        match fault {
            ProblemFault::OutOfMemory => RootStop::OutOfMemory,
            fault => RootStop::Problem(fault),
        }
    }
}

impl From<RootFault> for RootStop {
    ghost use Rattle.std.specs.Prelude.{◌≡◌};
    ghost use Rattle.root_input.specs.Faults.{root_stop};

    ghost from_gives = { λ fault stop. stop ≡ root_stop fault };

    fn from(fault: RootFault) -> RootStop {
        match fault {
            RootFault::TooManyUnknowns { count } => RootStop::TooManyUnknowns { count },
            RootFault::TooManyEquations { count } => RootStop::TooManyEquations { count },
            RootFault::OutOfMemory => RootStop::OutOfMemory,
        }
    }
}

impl From<ReadStop> for InputFault {
    ghost use Rattle.std.specs.Prelude.{◌≡◌};
    ghost use Rattle.root_input.specs.Faults.{read_fault};

    ghost from_gives = { λ stop fault. fault ≡ read_fault stop };

    fn from(stop: ReadStop) -> InputFault {
        match stop {
            ReadStop::Fault => InputFault::ReadFault,
            ReadStop::TooLong => InputFault::TooLong,
            ReadStop::OutOfMemory => InputFault::OutOfMemory,
        }
    }
}

impl From<RootStop> for InputFault {
    ghost use Rattle.std.specs.Prelude.{◌≡◌};
    ghost use Rattle.root_input.specs.Faults.{input_fault};

    ghost from_gives = { λ stop fault. fault ≡ input_fault stop };

    fn from(stop: RootStop) -> InputFault {
        match stop {
            RootStop::Problem(fault) => InputFault::Problem(fault),
            RootStop::TooManyUnknowns { count } => InputFault::TooManyUnknowns { count },
            RootStop::TooManyEquations { count } => InputFault::TooManyEquations { count },
            RootStop::OutOfMemory => InputFault::OutOfMemory,
        }
    }
}
