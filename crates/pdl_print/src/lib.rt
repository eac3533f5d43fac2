//! The printed text of arrays.
#![tactic(auto)]

ghost use Rattle.std.specs.Prelude.{◌≡◌, ◌++◌, take, OnOk, OnErr};
ghost use Rattle.pdl_print.specs.Printed.{array_text, info, LimitIs};

mod pieces;

use pdl_buf::{NoMemory, Strided};
use pdl_elem::Ty;
use pdl_shape::Dims;
pub use pieces::MOST_PRINTED;

/// Appends an array's text, which ends with a newline. After `NoMemory` the bytes are as before.
pub fn write_array(elems: &Strided<'_>, into: &mut Vec<u8>) -> Result<(), NoMemory>
    ensures ok { OnOk result (into.new.items ≡ into.old.items
        ++ array_text elems.now.dims elems.now.elems) }
    ensures err { OnErr result (into.new.items ≡ into.old.items) }
{
    let mark = into.len();
    let done = pieces::push_array(into, elems);
    settled(done, into, mark)
}

/// Appends what `info` tells of an array: its type and its sizes. There is no newline. After
/// `NoMemory` the bytes are as before.
pub fn info_text(ty: Ty, dims: &Dims, into: &mut Vec<u8>) -> Result<(), NoMemory>
    ensures ok { OnOk result (into.new.items ≡ into.old.items ++ info ty dims.now) }
    ensures err { OnErr result (into.new.items ≡ into.old.items) }
{
    let mark = into.len();
    let done = pieces::push_info(into, ty, dims);
    settled(done, into, mark)
}

/// Out of memory, it takes back what stands past the mark.
fn settled(done: Result<(), NoMemory>, into: &mut Vec<u8>, mark: usize) -> Result<(), NoMemory>
    ensures result { result ≡ done }
    ensures ok { OnOk done (into.new.items ≡ into.old.items) }
    ensures err { OnErr done (into.new.items ≡ take mark into.old.items) }
{
    match done {
        Ok(()) => Ok(()),
        Err(fault) => {
            into.truncate(mark);
            Err(fault)
        }
    }
}

/// An array of more than 10,000 elements isn't printed. The call does nothing when it runs.
pub fn limits_law()
    ensures { LimitIs }
{}
