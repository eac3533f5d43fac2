//! Why a call of a scope gave nothing.
use pdl_engine::{ReshapeFault, ViewFault};
use pdl_image::ImageFault;
use pdl_kernel::{KernelFault, RunFault};
use pdl_machine::Fault;
use pdl_ops::OpFault;
use pdl_reduce::ReduceFault;
use pdl_sig::{ResolveFault, SigFault};
use pdl_slices::SliceFault;
use std::alloc::{AllocError, AllocFailed};

/// Why a call gave nothing. What it leaves then is said at the call, and is the same for both.
#[derive(Clone, Copy, PartialEq, Eq, Debug)]
pub enum ScopeFault {
    /// The fault that the script has by the machine's definition.
    Script(Fault),
    /// There was no memory, whatever the definition says.
    NoMemory,
}

impl From<AllocError> for ScopeFault {
    ghost use Rattle.std.specs.Prelude.{◌≡◌};
    ghost use Rattle.pdl_scope.specs.declared.fault.ScopeFault.TheVariants.{NoMemory};

    ghost from_gives = { λ _ fault. fault ≡ NoMemory };

    fn from(_: AllocError) -> ScopeFault {
        ScopeFault::NoMemory
    }
}

impl<T: Drop> From<AllocFailed<T>> for ScopeFault {
    ghost use Rattle.std.specs.Prelude.{◌≡◌};
    ghost use Rattle.pdl_scope.specs.declared.fault.ScopeFault.TheVariants.{NoMemory};

    ghost from_gives = { λ _ fault. fault ≡ NoMemory };

    fn from(_: AllocFailed<T>) -> ScopeFault {
        ScopeFault::NoMemory
    }
}

impl From<ViewFault> for ScopeFault {
    ghost use Rattle.std.specs.Prelude.{◌≡◌};
    ghost use Rattle.pdl_scope.specs.Faults.{of_view};

    ghost from_gives = { λ refused fault. fault ≡ of_view refused };

    fn from(refused: ViewFault) -> ScopeFault {
        match refused {
            ViewFault::BadDimension => ScopeFault::Script(Fault::BadDimension),
            ViewFault::Mismatch => ScopeFault::Script(Fault::Mismatch),
            ViewFault::OutOfRange => ScopeFault::Script(Fault::OutOfRange),
            ViewFault::TooManyDims => ScopeFault::Script(Fault::TooManyDims),
            ViewFault::TooLarge => ScopeFault::Script(Fault::TooLarge),
            ViewFault::TooDeep => ScopeFault::Script(Fault::TooDeep),
            ViewFault::NoMemory => ScopeFault::NoMemory,
        }
    }
}

impl From<ReshapeFault> for ScopeFault {
    ghost use Rattle.std.specs.Prelude.{◌≡◌};
    ghost use Rattle.pdl_scope.specs.Faults.{of_reshape};

    ghost from_gives = { λ refused fault. fault ≡ of_reshape refused };

    fn from(refused: ReshapeFault) -> ScopeFault {
        match refused {
            ReshapeFault::Breaks => ScopeFault::Script(Fault::ReshapeBreaks),
            ReshapeFault::NoMemory => ScopeFault::NoMemory,
        }
    }
}

impl From<ImageFault> for ScopeFault {
    ghost use Rattle.std.specs.Prelude.{◌≡◌};
    ghost use Rattle.pdl_scope.specs.Dumping.{of_image};

    ghost from_gives = { λ refused fault. fault ≡ of_image refused };

    fn from(refused: ImageFault) -> ScopeFault {
        match refused {
            ImageFault::TooLong => ScopeFault::Script(Fault::DumpTooLong),
            ImageFault::NoMemory => ScopeFault::NoMemory,
        }
    }
}

impl From<OpFault> for ScopeFault {
    ghost use Rattle.std.specs.Prelude.{◌≡◌};
    ghost use Rattle.pdl_scope.specs.Faults.{of_operator};

    ghost from_gives = { λ refused fault. fault ≡ of_operator refused };

    fn from(refused: OpFault) -> ScopeFault {
        match refused {
            OpFault::Mismatch => ScopeFault::Script(Fault::Mismatch),
            OpFault::TooLarge => ScopeFault::Script(Fault::TooLarge),
            OpFault::DivideByZero { .. } => ScopeFault::Script(Fault::DivideByZero),
            OpFault::NoMemory => ScopeFault::NoMemory,
        }
    }
}

impl From<ReduceFault> for ScopeFault {
    ghost use Rattle.std.specs.Prelude.{◌≡◌};
    ghost use Rattle.pdl_scope.specs.Faults.{of_reduce};

    ghost from_gives = { λ refused fault. fault ≡ of_reduce refused };

    fn from(refused: ReduceFault) -> ScopeFault {
        match refused {
            ReduceFault::Mismatch => ScopeFault::Script(Fault::Mismatch),
            ReduceFault::TooManyDims => ScopeFault::Script(Fault::TooManyDims),
            ReduceFault::TooLarge => ScopeFault::Script(Fault::TooLarge),
            ReduceFault::TooMuchWork => ScopeFault::Script(Fault::TooMuchWork),
            ReduceFault::EmptyReduce => ScopeFault::Script(Fault::EmptyReduce),
            ReduceFault::NoMemory => ScopeFault::NoMemory,
        }
    }
}

impl From<SliceFault> for ScopeFault {
    ghost use Rattle.std.specs.Prelude.{◌≡◌};
    ghost use Rattle.pdl_scope.specs.Faults.{of_slice};

    ghost from_gives = { λ refused fault. fault ≡ of_slice refused };

    fn from(refused: SliceFault) -> ScopeFault {
        match refused {
            SliceFault::BadText { .. } => ScopeFault::Script(Fault::BadSlice),
            SliceFault::TooManyArgs => ScopeFault::Script(Fault::BadSlice),
            SliceFault::NumberTooLarge => ScopeFault::Script(Fault::BadSlice),
            SliceFault::ZeroStep => ScopeFault::Script(Fault::BadSlice),
            SliceFault::NoMemory => ScopeFault::NoMemory,
        }
    }
}

impl From<ResolveFault> for ScopeFault {
    ghost use Rattle.std.specs.Prelude.{◌≡◌};
    ghost use Rattle.pdl_scope.specs.Faults.{of_resolve};

    ghost from_gives = { λ refused fault. fault ≡ of_resolve refused };

    fn from(refused: ResolveFault) -> ScopeFault {
        match refused {
            ResolveFault::ArgCount => ScopeFault::Script(Fault::WrongArguments),
            ResolveFault::CoreMismatch => ScopeFault::Script(Fault::Mismatch),
            ResolveFault::BroadcastMismatch => ScopeFault::Script(Fault::Mismatch),
            ResolveFault::StretchedInOut => ScopeFault::Script(Fault::Mismatch),
            ResolveFault::TooManyDims => ScopeFault::Script(Fault::TooManyDims),
            ResolveFault::TooLarge => ScopeFault::Script(Fault::TooLarge),
            ResolveFault::TooMuchWork => ScopeFault::Script(Fault::TooMuchWork),
            ResolveFault::NoMemory => ScopeFault::NoMemory,
        }
    }
}

impl From<RunFault> for ScopeFault {
    ghost use Rattle.std.specs.Prelude.{◌≡◌};
    ghost use Rattle.pdl_scope.specs.Faults.{of_run};

    ghost from_gives = { λ refused fault. fault ≡ of_run refused };

    fn from(refused: RunFault) -> ScopeFault {
        match refused {
            RunFault::DivideByZero { .. } => ScopeFault::Script(Fault::DivideByZero),
            RunFault::IndexOutOfRange { .. } => ScopeFault::Script(Fault::OutOfRange),
            RunFault::NoMemory => ScopeFault::NoMemory,
        }
    }
}

impl From<SigFault> for ScopeFault {
    ghost use Rattle.std.specs.Prelude.{◌≡◌};
    ghost use Rattle.pdl_scope.specs.Faults.{of_signature};

    ghost from_gives = { λ refused fault. fault ≡ of_signature refused };

    fn from(refused: SigFault) -> ScopeFault {
        match refused {
            SigFault::NoMemory => ScopeFault::NoMemory,
            _ => ScopeFault::Script(Fault::BadSignature),
        }
    }
}

impl From<KernelFault> for ScopeFault {
    ghost use Rattle.std.specs.Prelude.{◌≡◌};
    ghost use Rattle.pdl_scope.specs.Faults.{of_code};

    ghost from_gives = { λ refused fault. fault ≡ of_code refused };

    fn from(refused: KernelFault) -> ScopeFault {
        match refused {
            KernelFault::NoMemory => ScopeFault::NoMemory,
            _ => ScopeFault::Script(Fault::BadKernel),
        }
    }
}
