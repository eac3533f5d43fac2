//! The arguments that the caller hands in, each with what is given for it.
ghost use Rattle.std.specs.Prelude.{◌≡◌, ◌<◌, length, slice_index_or};
ghost use Rattle.pdl_sig.specs.Resolution.{is_given, is_output, inputs, higher, generic_type, type_in};
ghost use Rattle.pdl_sig.specs.declared.SigArg.{SigArg};

use crate::{ArgShape, ArgType, Role, SigArg};
use pdl_elem::{Ty, promote};

/// Whether the caller hands in an argument of this role.
pub fn is_given(role: Role) -> bool
    ensures { result ≡ is_given role }
{
    matches!(role, Role::Input | Role::Both)
}

/// Whether the call answers an argument of this role.
pub fn is_output(role: Role) -> bool
    ensures { result ≡ is_output role }
{
    matches!(role, Role::Output | Role::Both)
}

/// How many arguments the caller hands in.
pub fn count_inputs(args: &[SigArg]) -> usize
    ensures { result ≡ length (inputs args.now) }
{
    args.iter().filter(|arg| is_given(arg.role)).count()
}

/// The argument for which the shape at this place is given.
pub fn input(args: &[SigArg], place: usize) -> &SigArg
    requires { place < length (inputs args.now) }
    ensures { (other : SigArg) → result.now ≡ slice_index_or (inputs args.now) place other }
{
    let mut left = place;
    for arg in args {
        if is_given(arg.role) {
            if left == 0 {
                return arg;
            }
            left -= 1;
        }
    }
    unreachable!()
}

/// The type of higher rank of a generic argument's and the one found so far.
fn higher(arg: ArgType, ty: Ty, found: Option<Ty>) -> Option<Ty>
    ensures { result ≡ higher arg ty found }
{
    match (arg, found) {
        (ArgType::Generic, None) => Some(ty),
        (ArgType::Generic, Some(found)) => Some(promote(found, ty)),
        (_, found) => found,
    }
}

/// The generic type of a call.
pub fn generic_type(args: &[SigArg], given: &[ArgShape]) -> Ty
    requires { length given.now ≡ length (inputs args.now) }
    ensures { result ≡ generic_type args.now given.now }
{
    let mut found = None;
    for (place, shape) in given.iter().enumerate() {
        found = higher(input(args, place).ty, shape.ty, found);
    }
    found.unwrap_or(Ty::Long)
}

/// An argument's type, by the generic one.
pub fn type_in(generic: Ty, ty: ArgType) -> Ty
    ensures { result ≡ type_in generic ty }
{
    match ty {
        ArgType::Generic => generic,
        ArgType::Fixed(ty) => ty,
        ArgType::AtLeast(ty) => promote(generic, ty),
    }
}
