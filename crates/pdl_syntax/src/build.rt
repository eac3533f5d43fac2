//! The parts of a tree that take memory.

ghost use Rattle.std.specs.Prelude.{◌≡◌, IfOk, IfErr};
ghost use Rattle.pdl_syntax.specs.Readers.{text_at};
ghost use Rattle.pdl_syntax.specs.Tree.{named, unary, binary, call, value, text as text_after, of_type, none};
ghost use Rattle.pdl_syntax.specs.TreeOf.{tree_of, args_of};

use crate::reader::Reader;
use crate::tree::{Arg, Expr};
use pdl_elem::{BinaryOp, Name, Text, Ty, UnaryOp};
use pdl_lexemes::{Refusal, Span, bytes};
use std::alloc::{AllocError, Global};

impl<'s> Reader<'s> {
    pub fn name_of(&self, span: Span) -> Result<Name, AllocError>
        ensures { IfOk result (λ n. n ≡ text_at self.now span) }
    {
        Ok(Name::new(bytes(self.source, span).to_vec(self.alloc)?))
    }

    pub fn text_of(&self, span: Span) -> Result<Text, AllocError>
        ensures { IfOk result (λ n. n ≡ text_at self.now span) }
    {
        Ok(Text::new(bytes(self.source, span).to_vec(self.alloc)?))
    }

    pub fn named_expr(&self, span: Span) -> Result<Expr, Refusal>
        ensures ok { IfOk result (λ e. tree_of e ≡ named (text_at self.now span)) }
        ensures err { IfErr result (λ r. r ≡ Refusal.NoMemory) }
    {
        Ok(Expr::Named(self.name_of(span)?))
    }

    pub fn call_expr(&self, span: Span, args: Vec<Arg>) -> Result<Expr, Refusal>
        ensures ok { IfOk result
            (λ e. tree_of e ≡ call (text_at self.now span) (args_of args.items none)) }
        ensures err { IfErr result (λ r. r ≡ Refusal.NoMemory) }
    {
        Ok(Expr::Call(self.name_of(span)?, args))
    }

    #[tactic(auto, using(crate::proofs::TreeLemmas::args_of_push))]
    pub fn with_text(&self, span: Span, mut args: Vec<Arg>) -> Result<Vec<Arg>, Refusal>
        ensures ok { IfOk result
            (λ all. args_of all.items none
            ≡ text_after (args_of args.items none) (text_at self.now span)) }
        ensures err { IfErr result (λ r. r ≡ Refusal.NoMemory) }
    {
        let text = self.text_of(span)?;
        args.push(Arg::Str(text)).map_err(AllocError::from)?;
        Ok(args)
    }
}

fn boxed(alloc: Global, e: Expr) -> Result<Box<Expr>, AllocError>
    ensures { IfOk result (λ b. b.value ≡ e) }
{
    Box::new(alloc, e).map_err(AllocError::from)
}

pub fn unary_expr(alloc: Global, op: UnaryOp, a: Expr) -> Result<Expr, Refusal>
    ensures ok { IfOk result (λ e. tree_of e ≡ unary op (tree_of a)) }
    ensures err { IfErr result (λ r. r ≡ Refusal.NoMemory) }
{
    Ok(Expr::Unary(op, boxed(alloc, a)?))
}

pub fn binary_expr(alloc: Global, op: BinaryOp, a: Expr, b: Expr) -> Result<Expr, Refusal>
    ensures ok { IfOk result (λ e. tree_of e ≡ binary op (tree_of a) (tree_of b)) }
    ensures err { IfErr result (λ r. r ≡ Refusal.NoMemory) }
{
    Ok(Expr::Binary(op, boxed(alloc, a)?, boxed(alloc, b)?))
}

#[tactic(auto, using(crate::proofs::TreeLemmas::args_of_push))]
pub fn with_value(mut args: Vec<Arg>, e: Expr) -> Result<Vec<Arg>, Refusal>
    ensures ok { IfOk result
        (λ all. args_of all.items none ≡ value (args_of args.items none) (tree_of e)) }
    ensures err { IfErr result (λ r. r ≡ Refusal.NoMemory) }
{
    args.push(Arg::Value(e)).map_err(AllocError::from)?;
    Ok(args)
}

#[tactic(auto, using(crate::proofs::TreeLemmas::args_of_push))]
pub fn with_type(mut args: Vec<Arg>, ty: Ty) -> Result<Vec<Arg>, Refusal>
    ensures ok { IfOk result
        (λ all. args_of all.items none ≡ of_type (args_of args.items none) ty) }
    ensures err { IfErr result (λ r. r ≡ Refusal.NoMemory) }
{
    args.push(Arg::OfType(ty)).map_err(AllocError::from)?;
    Ok(args)
}
