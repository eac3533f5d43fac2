//! The faults of statements.
ghost use Rattle.std.specs.Prelude.{◌≡◌};
ghost use Rattle.pdl_machine.specs.Fault.{text_of};

/// Why a statement or a script was refused, in the order of their numbers: from 1, without 23.
#[derive(Clone, Copy, PartialEq, Eq, Debug)]
pub enum Fault {
    /// The text isn't a statement.
    Syntax,
    /// A statement's text has more than 65,536 bytes.
    StatementTooLong,
    /// A script has more than 16,777,216 bytes.
    ScriptTooLong,
    /// A number is above 9223372036854775807.
    NumberTooLarge,
    /// A list holds numbers beside lists, or lists of different dimensions.
    Ragged,
    /// Too many brackets are open at once, or there are too many operators; or an array would have
    /// more than 64 views on its path to its root.
    TooDeep,
    /// A name isn't bound.
    UnknownName,
    /// There is no such call.
    UnknownFunction,
    /// The arguments don't fit the call.
    WrongArguments,
    /// More than 512 names would be bound, by the statement or where a dump runs.
    TooManyNames,
    /// There would be more than 256 kernels.
    TooManyKernels,
    /// A slice's text isn't of the form.
    BadSlice,
    /// A number is outside its dimension.
    OutOfRange,
    /// There is no such dimension, or a size is below 0.
    BadDimension,
    /// Dimensions don't fit each other.
    Mismatch,
    /// The product of the sizes that aren't 0 is above 1,048,576.
    TooLarge,
    /// There are more than 16 dimensions.
    TooManyDims,
    /// A number would be divided by 0.
    DivideByZero,
    /// An extreme of no elements was asked for.
    EmptyReduce,
    /// A kernel's signature isn't of the form.
    BadSignature,
    /// A kernel's code isn't of the form.
    BadKernel,
    /// One call would do too much work.
    TooMuchWork,
    /// A slot that has no watcher, or is attached already; or, to finish one, that isn't attached.
    BadWatcher,
    /// The formula of a view that reaches the array refuses its new dimensions.
    ReshapeBreaks,
    /// The array is watched, or one that reaches it is; or, for a dump, some array is.
    StillWatched,
    /// A dump would have more than 8,388,608 bytes, or a statement of more than 65,536.
    DumpTooLong,
    /// An assignment to a flow's root or through a view of it, or other dimensions for one.
    FlowTarget,
    /// Other dimensions for an array that a flow reads, or on the path of one that it reads.
    FlowReads,
    /// A dump while there is a flow.
    DumpFlow,
}

/// The text that names the fault in a script's output.
pub fn fault_text(fault: Fault) -> &'static str
    ensures { result.now ≡ text_of fault }
{
    match fault {
        Fault::Syntax => "syntax error",
        Fault::StatementTooLong => "statement too long",
        Fault::ScriptTooLong => "script too long",
        Fault::NumberTooLarge => "number too large",
        Fault::Ragged => "ragged list",
        Fault::TooDeep => "too deep",
        Fault::UnknownName => "unknown name",
        Fault::UnknownFunction => "unknown function",
        Fault::WrongArguments => "wrong arguments",
        Fault::TooManyNames => "too many names",
        Fault::TooManyKernels => "too many kernels",
        Fault::BadSlice => "bad slice",
        Fault::OutOfRange => "out of range",
        Fault::BadDimension => "bad dimension",
        Fault::Mismatch => "mismatch",
        Fault::TooLarge => "too large",
        Fault::TooManyDims => "too many dimensions",
        Fault::DivideByZero => "divide by zero",
        Fault::EmptyReduce => "empty reduction",
        Fault::BadSignature => "bad signature",
        Fault::BadKernel => "bad kernel",
        Fault::TooMuchWork => "too much work",
        Fault::BadWatcher => "bad watcher",
        Fault::ReshapeBreaks => "reshape breaks a view",
        Fault::StillWatched => "still watched",
        Fault::DumpTooLong => "dump too long",
        Fault::FlowTarget => "flow target",
        Fault::FlowReads => "flow reads it",
        Fault::DumpFlow => "flow in dump",
    }
}
