//! The parts of statements that are lists: names, and the views of a target.

ghost use Rattle.std.specs.Prelude.{◌≡◌, ◌∷◌, ◌++◌, [], length, IfOk, IfErr, map, option_map, if◌then◌else◌, Some, None};
ghost use Rattle.pdl_lexemes.specs.ReadAnswers.{Gives};
ghost use Rattle.pdl_syntax.specs.ExpressionReading.{maybe_at};
ghost use Rattle.pdl_syntax.specs.Readers.{reads, text_at, with_args};
ghost use Rattle.pdl_syntax.specs.StatementReading.{names_at, all_names_at, views_at};
ghost use Rattle.pdl_syntax.specs.StatementTree.{view_of};
ghost use Rattle.pdl_syntax.specs.Tree.{none};
ghost use Rattle.pdl_syntax.specs.TreeOf.{tree_of, args_of};

use crate::reader::Reader;
use crate::tree::{Arg, Expr, ViewCall};
use pdl_elem::Name;
use pdl_lexemes::{Lexeme, Lexemes, Refusal, Span};
use std::alloc::AllocError;

impl<'s> Reader<'s> {
    fn with_name(&self, mut names: Vec<Name>, name: Span) -> Result<Vec<Name>, Refusal>
        ensures ok { IfOk result
            (λ all. all.items ≡ names.items ++ text_at self.now name ∷ []) }
        ensures err { IfErr result (λ r. r ≡ Refusal.NoMemory) }
    {
        let name = self.name_of(name)?;
        names.push(name).map_err(AllocError::from)?;
        Ok(names)
    }

    /// Names with commas between them.
    pub fn names<'a>(&self, tokens: &Lexemes<'a>) -> Result<(Vec<Name>, Lexemes<'a>), Refusal>
        ensures read { Gives (λ x. (x.0.items, x.1)) result
            (all_names_at self.now.source.now tokens.now) }
    {
        let (first, rest) = tokens.name().ok_or(Refusal::Refused)?;
        let names = self.with_name(Vec::new(self.alloc), first)?;
        self.more_names(names, &rest)
    }

    #[tactic(auto, unfolding(crate::specs::StatementReading::names_at))]
    fn more_names<'a>(
        &self,
        first: Vec<Name>,
        tokens: &Lexemes<'a>,
    ) -> Result<(Vec<Name>, Lexemes<'a>), Refusal>
        ensures read { Gives (λ x. (x.0.items, x.1)) result
            (names_at self.now.source.now (length tokens.now) first.items tokens.now) }
    {
        let mut names = first;
        let mut rest = tokens.copy();
        for _ in 0..tokens.len() {
            match rest.after(Lexeme::Comma) {
                None => return Ok((names, rest)),
                Some(after) => match after.name() {
                    None => return Err(Refusal::Refused),
                    Some((name, after)) => {
                        names = self.with_name(names, name)?;
                        rest = after;
                    }
                },
            }
        }
        Ok((names, rest))
    }

    fn with_view(
        &self,
        mut views: Vec<ViewCall>,
        method: Span,
        args: Vec<Arg>,
    ) -> Result<Vec<ViewCall>, Refusal>
        ensures ok { IfOk result
            (λ all. map view_of all.items ≡ map view_of views.items
            ++ (text_at self.now method, args_of args.items none) ∷ []) }
        ensures err { IfErr result (λ r. r ≡ Refusal.NoMemory) }
    {
        let method = self.name_of(method)?;
        views
            .push(ViewCall { method, args })
            .map_err(AllocError::from)?;
        Ok(views)
    }

    fn view_args<'a>(&self, tokens: &Lexemes<'a>) -> Result<(Vec<Arg>, Lexemes<'a>), Refusal>
        ensures read { Gives with_args result (reads maybe_at self.now none tokens.now) }
    {
        self.maybe_args(Vec::new(self.alloc), tokens)
    }

    /// The views of a target, in order.
    #[tactic(auto, unfolding(crate::specs::StatementReading::views_at))]
    pub fn views<'a>(&self, tokens: &Lexemes<'a>) -> Result<(Vec<ViewCall>, Lexemes<'a>), Refusal>
        ensures read { Gives (λ x. (map view_of x.0.items, x.1)) result
            (reads views_at self.now (length tokens.now) [] tokens.now) }
    {
        let mut views = Vec::new(self.alloc);
        let mut rest = tokens.copy();
        for _ in 0..tokens.len() {
            match rest.view() {
                None => return Ok((views, rest)),
                Some((method, after)) => {
                    let (args, after) = self.view_args(&after)?;
                    views = self.with_view(views, method, args)?;
                    rest = after;
                }
            }
        }
        Ok((views, rest))
    }
}
