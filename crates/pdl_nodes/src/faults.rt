//! Why there is no view.
ghost use Rattle.std.specs.Prelude.{◌≡◌};

use pdl_affine::PlanFault;
use pdl_choice::ChoiceFault;
use std::alloc::AllocError;

/// Why there is no such view, in the order in which `view` answers these.
#[derive(Clone, Copy, PartialEq, Eq, Debug)]
pub enum ViewFault {
    /// The parent hasn't the dimensions that the transformation needs.
    BadDimension,
    /// Dimensions that must fit don't.
    Mismatch,
    /// A number is outside its dimension.
    OutOfRange,
    /// The view would have more than 16 dimensions.
    TooManyDims,
    /// The view's sizes that aren't 0 would have a product above 1,048,576.
    TooLarge,
    /// The view's path to the root would have more than 64 views.
    TooDeep,
    /// There was no memory. This one may come in place of any other.
    NoMemory,
}

impl From<AllocError> for ViewFault {
    ghost use Rattle.pdl_nodes.specs.declared.faults.ViewFault.{ViewFault};

    ghost from_gives = { λ e fault. fault ≡ ViewFault.NoMemory };

    fn from(_: AllocError) -> ViewFault {
        ViewFault::NoMemory
    }
}

impl From<PlanFault> for ViewFault {
    ghost use Rattle.pdl_nodes.specs.Faults.{of_plan};

    ghost from_gives = { λ e fault. fault ≡ of_plan e };

    fn from(fault: PlanFault) -> ViewFault {
        match fault {
            PlanFault::BadDimension => ViewFault::BadDimension,
            PlanFault::OutOfRange => ViewFault::OutOfRange,
            PlanFault::TooManyDims => ViewFault::TooManyDims,
            PlanFault::TooLarge => ViewFault::TooLarge,
            PlanFault::NoMemory => ViewFault::NoMemory,
        }
    }
}

impl From<ChoiceFault> for ViewFault {
    ghost use Rattle.pdl_nodes.specs.Faults.{of_choice};

    ghost from_gives = { λ e fault. fault ≡ of_choice e };

    fn from(fault: ChoiceFault) -> ViewFault {
        match fault {
            ChoiceFault::BadDimension => ViewFault::BadDimension,
            ChoiceFault::Mismatch => ViewFault::Mismatch,
            ChoiceFault::OutOfRange { .. } => ViewFault::OutOfRange,
            ChoiceFault::TooManyDims => ViewFault::TooManyDims,
            ChoiceFault::TooLarge => ViewFault::TooLarge,
            ChoiceFault::NoMemory => ViewFault::NoMemory,
        }
    }
}
