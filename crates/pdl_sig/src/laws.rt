//! Laws of signatures and of what calls resolve to. Each is the contract of a function with an
//! empty body.
ghost use Rattle.std.specs.Prelude.{◌≡◌, ℕ, List, Ok, codes};
ghost use Rattle.pdl_sig.specs.Known.{inner, outer_product, matmult};
ghost use Rattle.pdl_sig.specs.Limits.{LimitsAre};
ghost use Rattle.pdl_sig.specs.Meaning.{TextsHaveOneMeaning};
ghost use Rattle.pdl_sig.specs.Refusals.{Signs, IsWellFormed};
ghost use Rattle.pdl_sig.specs.Resolution.{resolution};
ghost use Rattle.pdl_sig.specs.Solutions.{Solves};
ghost use Rattle.pdl_sig.specs.declared.ArgShape.{ArgShape};
ghost use Rattle.pdl_sig.specs.declared.Resolved.{Resolved};
ghost use Rattle.pdl_sig.specs.declared.Signature.{Signature};

/// A text spells at most one signature.
pub fn one_signature()
    ensures { (signature other : Signature) (text : List ℕ) →
        Signs signature text → Signs other text → signature ≡ other }
{}

/// The signature that a text spells is well formed.
pub fn signatures_are_well_formed()
    ensures { (signature : Signature) (text : List ℕ) →
        Signs signature text → IsWellFormed signature }
{}

/// A text has one meaning: its signature where it spells one and no refusal holds, else the first
/// refusal. `signature_in` is that meaning as a function.
pub fn signature_meaning()
    ensures { TextsHaveOneMeaning }
{}

/// What a call resolves to solves the equations on sizes, shapes and types.
pub fn resolutions_solve()
    ensures { (signature : Signature) (given : List ArgShape) (resolved : Resolved) →
        resolution signature given ≡ Ok resolved → Solves signature given resolved }
{}

/// The signatures of `inner`, `outer` and `matmult` are those of their texts (PDL::Primitive).
pub fn pairings_are_signed()
    ensures inner { Signs inner (codes "a(n); b(n); [o]c()") }
    ensures outer { Signs outer_product (codes "a(n); b(m); [o]c(n,m)") }
    ensures matmult { Signs matmult (codes "a(t,h); b(w,t); [o]c(w,h)") }
{}

/// A signature has at most 16 arguments and 8 names of dimensions, and a call does work of at most
/// 16,777,216.
pub fn limits_law()
    ensures { LimitsAre }
{}
