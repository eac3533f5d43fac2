//! The reader of expressions: a recursive descent over the lexemes.

ghost use Rattle.std.specs.Prelude.{◌≡◌, ◌≤◌, ◌<◌, suc, length, option_map, IfSome};
ghost use Rattle.pdl_syntax.specs.Tree.{none};
ghost use Rattle.pdl_syntax.specs.Readers.{reads, with_tree, with_args};
ghost use Rattle.pdl_syntax.specs.TreeOf.{tree_of, args_of};
ghost use Rattle.pdl_lexemes.specs.ReadAnswers.{Gives};
ghost use Rattle.pdl_syntax.specs.ExpressionReading.{expression, operand, reader, number_before, level_at, grown_at, chain_at, limit_of, unary_at, postfix_at, methods_at, primary_at, call_at, round_at, arg_at, more_at, closed_at, maybe_at};
ghost use Rattle.pdl_lexemes.specs.Lists.{signed};

use crate::reader::Reader;
use crate::tree::{Arg, Expr};
use crate::{build, levels, literal};
use pdl_lexemes::{Keyword, Lexeme, Lexemes, Refusal, Span};

/// What is read, and what follows it.
type Read<'a, T> = Result<(T, Lexemes<'a>), Refusal>;

impl<'s> Reader<'s> {
    /// A whole expression in which at most `fuel` parts are open at once.
    #[cycle(parser)]
    #[tactic(auto, unfolding(crate::specs::ExpressionReading::reader))]
    pub fn expression<'a>(&self, tokens: &Lexemes<'a>) -> Read<'a, Expr>
        ensures read { Gives with_tree result
            (reader self.now.source.now self.now.fuel expression tokens.now) }
    {
        if self.fuel == 0 {
            return Err(Refusal::Refused);
        }
        let inner = Reader {
            fuel: self.fuel - 1,
            ..*self
        };
        match inner.alone(tokens) {
            Some(value) => value,
            None => inner.level_expr(7, tokens),
        }
    }

    // The value that a number or a name at the end is, which is all of the expression: no operator
    // and no method is looked for.
    #[tactic(auto, unfolding(crate::specs::ExpressionReading::level_at, crate::specs::ExpressionReading::unary_at, crate::specs::ExpressionReading::postfix_at, crate::specs::ExpressionReading::primary_at, crate::specs::ExpressionReading::methods_at, crate::specs::ExpressionReading::chain_at))]
    fn alone<'a>(&self, tokens: &Lexemes<'a>) -> Option<Read<'a, Expr>>
        ensures read { IfSome result
            (λ r. Gives with_tree r (reads level_at self.now 7 tokens.now)) }
    {
        match tokens.split_first() {
            Some((Lexeme::Number(n), rest)) => match rest.split_first() {
                None => match pdl_lexemes::signed(n) {
                    Some(z) => Some(Ok((Expr::Number(z), rest))),
                    None => Some(Err(Refusal::Refused)),
                },
                Some(_) => None,
            },
            Some((Lexeme::Name(span), rest)) => match rest.split_first() {
                None => match self.named_expr(span) {
                    Ok(value) => Some(Ok((value, rest))),
                    Err(refusal) => Some(Err(refusal)),
                },
                Some(_) => None,
            },
            _ => None,
        }
    }

    #[cycle(parser)]
    #[tactic(auto, unfolding(crate::specs::ExpressionReading::reader))]
    fn operand<'a>(&self, tokens: &Lexemes<'a>) -> Read<'a, Expr>
        ensures read { Gives with_tree result
            (reader self.now.source.now self.now.fuel operand tokens.now) }
    {
        if self.fuel == 0 {
            return Err(Refusal::Refused);
        }
        let inner = Reader {
            fuel: self.fuel - 1,
            ..*self
        };
        inner.unary(tokens)
    }

    #[cycle(parser)]
    fn level_expr<'a>(&self, level: u8, tokens: &Lexemes<'a>) -> Read<'a, Expr>
        requires level { level ≤ 7 }
        ensures read { Gives with_tree result (reads level_at self.now level tokens.now) }
    {
        let (first, rest) = self.unary(tokens)?;
        self.grown(level, first, &rest)
    }

    #[cycle(parser)]
    #[tactic(auto, unfolding(crate::specs::ExpressionReading::chain_at))]
    fn chain<'a>(&self, below: u8, first: Expr, tokens: &Lexemes<'a>) -> Read<'a, Expr>
        requires level { below < 7 }
        ensures read { Gives with_tree result
            (chain_at (reads level_at self.now below) (suc below)
            (limit_of (suc below) tokens.now) (tree_of first) tokens.now) }
    {
        let mut left = first;
        let mut rest = tokens.copy();
        for _ in 0..levels::limit(below + 1, tokens) {
            match levels::operator(below + 1, &rest) {
                None => return Ok((left, rest)),
                Some((op, after)) => {
                    let (right, after) = self.level_expr(below, &after)?;
                    left = build::binary_expr(self.alloc, op, left, right)?;
                    rest = after;
                }
            }
        }
        Ok((left, rest))
    }

    /// An expression of a level whose first operand is read. Only the levels of operators that
    /// follow are gone through, from the tightest on.
    #[cycle(parser)]
    pub fn grown<'a>(&self, level: u8, first: Expr, tokens: &Lexemes<'a>) -> Read<'a, Expr>
        requires level { level ≤ 7 }
        ensures read { Gives with_tree result
            (reads grown_at self.now level (tree_of first) tokens.now) }
    {
        let mut left = first;
        let mut rest = tokens.copy();
        let mut below = 0;
        while let Some(next) = levels::level_between(below, level, &rest) {
            let (joined, after) = self.chain(next - 1, left, &rest)?;
            left = joined;
            rest = after;
            below = next;
        }
        Ok((left, rest))
    }

    #[cycle(parser)]
    #[tactic(auto, unfolding(crate::specs::ExpressionReading::unary_at))]
    fn unary<'a>(&self, tokens: &Lexemes<'a>) -> Read<'a, Expr>
        ensures read { Gives with_tree result (reads unary_at self.now tokens.now) }
    {
        match tokens.prefix() {
            None => self.postfix(tokens),
            Some((op, rest)) => {
                let (a, rest) = self.operand(&rest)?;
                Ok((build::unary_expr(self.alloc, op, a)?, rest))
            }
        }
    }

    #[cycle(parser)]
    #[tactic(auto, unfolding(crate::specs::ExpressionReading::postfix_at))]
    pub fn postfix<'a>(&self, tokens: &Lexemes<'a>) -> Read<'a, Expr>
        ensures read { Gives with_tree result (reads postfix_at self.now tokens.now) }
    {
        let (first, rest) = self.primary(tokens)?;
        self.methods(first, &rest)
    }

    #[cycle(parser)]
    #[tactic(auto, unfolding(crate::specs::ExpressionReading::methods_at))]
    pub fn methods<'a>(&self, first: Expr, tokens: &Lexemes<'a>) -> Read<'a, Expr>
        ensures read { Gives with_tree result
            (reads methods_at self.now (length tokens.now) (tree_of first) tokens.now) }
    {
        let mut value = first;
        let mut rest = tokens.copy();
        for _ in 0..tokens.len() {
            match rest.method() {
                None => return Ok((value, rest)),
                Some((word, after)) => {
                    let front = build::with_value(Vec::new(self.alloc), value)?;
                    let (args, after) = self.maybe_args(front, &after)?;
                    value = self.call_expr(word, args)?;
                    rest = after;
                }
            }
        }
        Ok((value, rest))
    }

    #[cycle(parser)]
    #[tactic(auto, unfolding(crate::specs::ExpressionReading::primary_at))]
    pub fn primary<'a>(&self, tokens: &Lexemes<'a>) -> Read<'a, Expr>
        ensures read { Gives with_tree result (reads primary_at self.now tokens.now) }
    {
        match tokens.split_first() {
            Some((Lexeme::Number(n), rest)) => number(n, rest),
            Some((Lexeme::Name(span), rest)) => Ok((self.named_expr(span)?, rest)),
            Some((Lexeme::Keyword(Keyword::Pdl), rest)) => literal::literal(self.alloc, &rest),
            Some((Lexeme::Word(_, span), rest)) => self.call(span, &rest),
            Some((Lexeme::Open, rest)) => self.round(&rest),
            _ => Err(Refusal::Refused),
        }
    }

    #[cycle(parser)]
    fn call<'a>(&self, word: Span, tokens: &Lexemes<'a>) -> Read<'a, Expr>
        ensures read { Gives with_tree result (reads call_at self.now word tokens.now) }
    {
        let rest = tokens.after(Lexeme::Open).ok_or(Refusal::Refused)?;
        let (args, rest) = self.closed_args(Vec::new(self.alloc), &rest)?;
        Ok((self.call_expr(word, args)?, rest))
    }

    #[cycle(parser)]
    fn round<'a>(&self, tokens: &Lexemes<'a>) -> Read<'a, Expr>
        ensures read { Gives with_tree result (reads round_at self.now tokens.now) }
    {
        let (inner, rest) = self.expression(tokens)?;
        let rest = rest.after(Lexeme::Close).ok_or(Refusal::Refused)?;
        Ok((inner, rest))
    }

    #[cycle(parser)]
    #[tactic(auto, unfolding(crate::specs::ExpressionReading::maybe_at))]
    pub fn maybe_args<'a>(&self, front: Vec<Arg>, tokens: &Lexemes<'a>) -> Read<'a, Vec<Arg>>
        ensures read { Gives with_args result
            (reads maybe_at self.now (args_of front.items none) tokens.now) }
    {
        match tokens.after(Lexeme::Open) {
            None => Ok((front, tokens.copy())),
            Some(rest) => self.closed_args(front, &rest),
        }
    }

    #[cycle(parser)]
    #[tactic(auto, unfolding(crate::specs::ExpressionReading::closed_at))]
    pub fn closed_args<'a>(&self, front: Vec<Arg>, tokens: &Lexemes<'a>) -> Read<'a, Vec<Arg>>
        ensures read { Gives with_args result
            (reads closed_at self.now (args_of front.items none) tokens.now) }
    {
        if let Some(rest) = tokens.after(Lexeme::Close) {
            return Ok((front, rest));
        }
        let (args, rest) = self.arg(front, tokens)?;
        let (args, rest) = self.more_args(args, &rest)?;
        let rest = rest.after(Lexeme::Close).ok_or(Refusal::Refused)?;
        Ok((args, rest))
    }

    #[cycle(parser)]
    #[tactic(auto, unfolding(crate::specs::ExpressionReading::more_at))]
    fn more_args<'a>(&self, front: Vec<Arg>, tokens: &Lexemes<'a>) -> Read<'a, Vec<Arg>>
        ensures read { Gives with_args result
            (reads more_at self.now (length tokens.now) (args_of front.items none) tokens.now) }
    {
        let mut args = front;
        let mut rest = tokens.copy();
        for _ in 0..tokens.len() {
            match rest.after(Lexeme::Comma) {
                None => return Ok((args, rest)),
                Some(after) => {
                    let (all, after) = self.arg(args, &after)?;
                    args = all;
                    rest = after;
                }
            }
        }
        Ok((args, rest))
    }

    #[cycle(parser)]
    #[tactic(auto, unfolding(crate::specs::ExpressionReading::arg_at))]
    fn arg<'a>(&self, front: Vec<Arg>, tokens: &Lexemes<'a>) -> Read<'a, Vec<Arg>>
        ensures read { Gives with_args result
            (reads arg_at self.now (args_of front.items none) tokens.now) }
    {
        if let Some((span, rest)) = tokens.quoted() {
            return Ok((self.with_text(span, front)?, rest));
        }
        if let Some((ty, rest)) = tokens.type_word() {
            return Ok((build::with_type(front, ty)?, rest));
        }
        let (value, rest) = self.expression(tokens)?;
        Ok((build::with_value(front, value)?, rest))
    }
}

fn number<'a>(n: u64, rest: Lexemes<'a>) -> Read<'a, Expr>
    ensures read { Gives with_tree result (option_map (number_before rest.entry) (signed n)) }
{
    match pdl_lexemes::signed(n) {
        Some(z) => Ok((Expr::Number(z), rest)),
        None => Err(Refusal::Refused),
    }
}
