//! Writes the dump of a session: a script that makes its kernels, its arrays and its names again.
//!
//! `ImageWriter` is called in the order of the script: each kernel, each array from the oldest on,
//! each name, and the end. Each call appends its lines, and `specs/Dump.antt` says which.
#![tactic(auto)]

ghost use Rattle.std.specs.Prelude.{◌≡◌};

mod calls;
mod content;
mod draft;
mod given;
mod laws;
mod lines;
mod masks;
mod numbers;
mod own;
mod page;
mod pieces;
mod stems;
mod views;
mod writer;

pub use laws::{dump_laws, worked_dumps};
use std::alloc::AllocError;
pub use stems::Stems;
pub use writer::ImageWriter;

/// The most bytes of a dump.
pub const LONGEST_DUMP: usize = 8_388_608;

/// How many elements of an array stand in one statement.
pub const PIECE: usize = 1_000;

/// How many numbers are read at once.
const PART: usize = 64;

/// Why lines weren't written.
#[derive(Clone, Copy, PartialEq, Eq, Debug)]
pub enum ImageFault {
    /// The text would have more than 8,388,608 bytes, or one of its statements more than 65,536.
    TooLong,
    /// Memory has run out.
    NoMemory,
}

impl From<AllocError> for ImageFault {
    ghost use Rattle.pdl_image.specs.declared.ImageFault.{ImageFault};

    ghost from_gives = { λ _ e. e ≡ ImageFault.NoMemory };

    fn from(_e: AllocError) -> ImageFault {
        ImageFault::NoMemory
    }
}
