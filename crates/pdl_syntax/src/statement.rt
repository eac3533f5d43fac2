//! The reader of statements.

ghost use Rattle.std.specs.Prelude.{◌≡◌, ◌∷◌, map, option_map, IfOk, IfErr, None};
ghost use Rattle.pdl_lexemes.specs.Peeks.{after, slot_at};
ghost use Rattle.pdl_lexemes.specs.ReadAnswers.{Gives};
ghost use Rattle.pdl_syntax.specs.Readers.{reads, text_at, with_tree};
ghost use Rattle.pdl_syntax.specs.StatementReading.{expression_to_end_at, behind_at, valued_at, called_at, bind_at, bind_list_at, binding_at, assignment_at, reshape_at, sever_at, statement_of_name_at, value_at, show_at, flow_at, flow_value_at, undef_at, watch_at, define_at, signature_at, code_at, texts_at, statement_at, at_end};
ghost use Rattle.pdl_syntax.specs.StatementTree.{assign, statement_of, view_of, dump, vars, unwatch};
ghost use Rattle.pdl_syntax.specs.TreeOf.{tree_of};

use crate::formula::is_formula;
use crate::reader::Reader;
use crate::tree::{Expr, Statement, Target, ViewCall};
use pdl_lexemes::{AssignOp, Keyword, Lexeme, Lexemes, Refusal, Span, WordKind};

impl<'s> Reader<'s> {
    /// The statement that all lexemes spell.
    #[tactic(auto, unfolding(crate::specs::StatementReading::statement_at))]
    pub fn statement(&self, tokens: &Lexemes<'_>) -> Result<Statement, Refusal>
        ensures read { Gives statement_of result (reads statement_at self.now tokens.now) }
    {
        match tokens.split_first() {
            Some((Lexeme::Keyword(word), rest)) => self.keyword(word, &rest),
            Some((Lexeme::Open, rest)) => self.bind_list(&rest),
            Some((Lexeme::Name(name), rest)) => self.statement_of_name(name, &rest),
            _ => Err(Refusal::Refused),
        }
    }

    #[tactic(auto, unfolding(crate::specs::StatementReading::statement_at))]
    fn keyword(&self, word: Keyword, tokens: &Lexemes<'_>) -> Result<Statement, Refusal>
        ensures read { Gives statement_of result
            (reads statement_at self.now (Lexeme.Keyword word ∷ tokens.now)) }
    {
        match word {
            Keyword::My => self.binding(tokens),
            Keyword::Print => self.show(tokens),
            Keyword::Undef => self.undef(tokens),
            Keyword::Vars => vars(tokens),
            Keyword::Dump => dump(tokens),
            Keyword::Flow => self.flow(tokens),
            Keyword::PpDef => self.define(tokens),
            Keyword::Watch => self.watch(tokens),
            Keyword::Unwatch => unwatch(tokens),
            Keyword::Pdl | Keyword::Info | Keyword::Sever | Keyword::Reshape => Err(
                Refusal::Refused,
            ),
        }
    }

    // An expression up to the end.
    #[tactic(auto, unfolding(crate::specs::StatementReading::expression_to_end_at))]
    fn expression_to_end(&self, tokens: &Lexemes<'_>) -> Result<Expr, Refusal>
        ensures read { Gives tree_of result (reads expression_to_end_at self.now tokens.now) }
    {
        let (value, rest) = self.expression(tokens)?;
        ended(value, &rest)
    }

    // A postfix form before an arrow, this word and the end, or else an expression up to the end;
    // with it, whether it's the first. What stands at the front is read once.
    #[tactic(auto, unfolding(crate::specs::StatementReading::valued_at))]
    fn valued(&self, word: Keyword, tokens: &Lexemes<'_>) -> Result<(Expr, bool), Refusal>
        ensures read { Gives with_tree result (reads valued_at self.now word tokens.now) }
    {
        match tokens.prefix() {
            Some((_, _)) => Ok((self.expression_to_end(tokens)?, false)),
            None => {
                let (first, rest) = self.postfix(tokens)?;
                self.behind(word, first, &rest)
            }
        }
    }

    fn behind(
        &self,
        word: Keyword,
        first: Expr,
        tokens: &Lexemes<'_>,
    ) -> Result<(Expr, bool), Refusal>
        ensures read { Gives with_tree result
            (reads behind_at self.now word (tree_of first, tokens.now)) }
    {
        match tokens.after_keyword(word) {
            None => {
                let (value, rest) = self.grown(7, first, tokens)?;
                Ok((ended(value, &rest)?, false))
            }
            Some(rest) => {
                if rest.is_brackets() {
                    Ok((first, true))
                } else {
                    Err(Refusal::Refused)
                }
            }
        }
    }

    // A call up to the end, by a word or by a method.
    #[tactic(auto, unfolding(crate::specs::StatementReading::called_at))]
    fn called(&self, tokens: &Lexemes<'_>) -> Result<Expr, Refusal>
        ensures read { Gives tree_of result (reads called_at self.now tokens.now) }
    {
        let by_word = tokens.begins_word();
        let (first, left) = self.primary(tokens)?;
        let (value, rest) = self.methods(first, &left)?;
        if !by_word && left.len() <= rest.len() {
            return Err(Refusal::Refused);
        }
        ended(value, &rest)
    }

    fn bind(&self, name: Span, tokens: &Lexemes<'_>) -> Result<Statement, Refusal>
        ensures read { Gives statement_of result
            (reads bind_at self.now (text_at self.now name) tokens.now) }
    {
        let (value, sever) = self.valued(Keyword::Sever, tokens)?;
        let name = self.name_of(name)?;
        Ok(Statement::Bind { name, value, sever })
    }

    #[tactic(auto, unfolding(crate::specs::StatementReading::bind_list_at))]
    fn bind_list(&self, tokens: &Lexemes<'_>) -> Result<Statement, Refusal>
        ensures read { Gives statement_of result (reads bind_list_at self.now tokens.now) }
    {
        let (names, rest) = self.names(tokens)?;
        let rest = rest.after_names().ok_or(Refusal::Refused)?;
        let value = self.called(&rest)?;
        Ok(Statement::BindList { names, value })
    }

    // A binding behind `my`.
    #[tactic(auto, unfolding(crate::specs::StatementReading::binding_at))]
    fn binding(&self, tokens: &Lexemes<'_>) -> Result<Statement, Refusal>
        ensures read { Gives statement_of result (reads binding_at self.now tokens.now) }
    {
        if let Some(rest) = tokens.after(Lexeme::Open) {
            return self.bind_list(&rest);
        }
        let (name, rest) = tokens.name().ok_or(Refusal::Refused)?;
        let rest = rest.after(Lexeme::Equals).ok_or(Refusal::Refused)?;
        self.bind(name, &rest)
    }

    // A statement that begins with a name. What follows the name says of which form it is.
    #[tactic(auto, unfolding(crate::specs::StatementReading::statement_of_name_at, crate::specs::StatementReading::assignment_at, crate::specs::StatementReading::views_at))]
    fn statement_of_name(&self, name: Span, tokens: &Lexemes<'_>) -> Result<Statement, Refusal>
        ensures read { Gives statement_of result
            (reads statement_of_name_at self.now (text_at self.now name) tokens.now) }
    {
        match tokens.split_first() {
            Some((Lexeme::Equals, rest)) => self.bind(name, &rest),
            Some((Lexeme::Assign(op), rest)) => self.assign(name, Vec::new(self.alloc), op, &rest),
            Some((Lexeme::Arrow, _)) => self.statement_of_arrow(name, tokens),
            _ => Err(Refusal::Refused),
        }
    }

    // A statement that begins with a name, behind which an arrow stands.
    #[tactic(auto, unfolding(crate::specs::StatementReading::statement_of_name_at))]
    fn statement_of_arrow(&self, name: Span, tokens: &Lexemes<'_>) -> Result<Statement, Refusal>
        requires { after Lexeme.Equals tokens.now ≡ None }
        ensures read { Gives statement_of result
            (reads statement_of_name_at self.now (text_at self.now name) tokens.now) }
    {
        if let Some(rest) = tokens.after_keyword(Keyword::Sever) {
            return self.sever(name, &rest);
        }
        if let Some(rest) = tokens.after_reshape() {
            return self.reshape(name, &rest);
        }
        self.assignment(name, tokens)
    }

    fn sever(&self, name: Span, tokens: &Lexemes<'_>) -> Result<Statement, Refusal>
        ensures read { Gives statement_of result (sever_at (text_at self.now name) tokens.now) }
    {
        if !tokens.is_brackets() {
            return Err(Refusal::Refused);
        }
        let name = self.name_of(name)?;
        Ok(Statement::Sever { name })
    }

    fn reshape(&self, name: Span, tokens: &Lexemes<'_>) -> Result<Statement, Refusal>
        ensures read { Gives statement_of result
            (reads reshape_at self.now (text_at self.now name) tokens.now) }
    {
        let (sizes, rest) = self.closed_args(Vec::new(self.alloc), tokens)?;
        rest.end()?;
        let name = self.name_of(name)?;
        Ok(Statement::Reshape { name, sizes })
    }

    #[tactic(auto, unfolding(crate::specs::StatementReading::assignment_at))]
    fn assignment(&self, name: Span, tokens: &Lexemes<'_>) -> Result<Statement, Refusal>
        ensures read { Gives statement_of result
            (reads assignment_at self.now (text_at self.now name) tokens.now) }
    {
        let (views, rest) = self.views(tokens)?;
        let (op, rest) = rest.assign().ok_or(Refusal::Refused)?;
        self.assign(name, views, op, &rest)
    }

    // An assignment by this sign to the last of these views of a name, from its value on.
    fn assign(
        &self,
        name: Span,
        views: Vec<ViewCall>,
        op: AssignOp,
        tokens: &Lexemes<'_>,
    ) -> Result<Statement, Refusal>
        ensures read { let to = map view_of views.items in
            Gives statement_of result (option_map (assign (text_at self.now name) to op)
            (reads expression_to_end_at self.now tokens.now)) }
    {
        let value = self.expression_to_end(tokens)?;
        let name = self.name_of(name)?;
        let target = Target { name, views };
        Ok(Statement::Assign { target, op, value })
    }

    // What `p` shows.
    #[tactic(auto, unfolding(crate::specs::StatementReading::show_at))]
    fn show(&self, tokens: &Lexemes<'_>) -> Result<Statement, Refusal>
        ensures read { Gives statement_of result (reads show_at self.now tokens.now) }
    {
        match tokens.quoted() {
            None => self.show_value(tokens),
            Some((text, rest)) => {
                rest.end()?;
                let text = self.text_of(text)?;
                Ok(Statement::ShowText { text })
            }
        }
    }

    fn show_value(&self, tokens: &Lexemes<'_>) -> Result<Statement, Refusal>
        ensures read { Gives statement_of result (reads value_at self.now tokens.now) }
    {
        let (value, info) = self.valued(Keyword::Info, tokens)?;
        Ok(Statement::Show { value, info })
    }

    // A flow, behind its keyword.
    fn flow(&self, tokens: &Lexemes<'_>) -> Result<Statement, Refusal>
        ensures read { Gives statement_of result (reads flow_at self.now tokens.now) }
    {
        let (name, rest) = tokens.name().ok_or(Refusal::Refused)?;
        let rest = rest.after(Lexeme::Equals).ok_or(Refusal::Refused)?;
        self.flow_value(name, &rest)
    }

    // A flow of this name, from its formula on.
    fn flow_value(&self, name: Span, tokens: &Lexemes<'_>) -> Result<Statement, Refusal>
        ensures read { Gives statement_of result
            (reads flow_value_at self.now (text_at self.now name) tokens.now) }
    {
        let value = self.expression_to_end(tokens)?;
        if !is_formula(&value) || tokens.has_arrow() {
            return Err(Refusal::Refused);
        }
        let name = self.name_of(name)?;
        Ok(Statement::Flow { name, value })
    }

    fn undef(&self, tokens: &Lexemes<'_>) -> Result<Statement, Refusal>
        ensures read { Gives statement_of result (undef_at self.now.source.now tokens.now) }
    {
        let (name, rest) = tokens.name().ok_or(Refusal::Refused)?;
        rest.end()?;
        let name = self.name_of(name)?;
        Ok(Statement::Undef { name })
    }

    fn watch(&self, tokens: &Lexemes<'_>) -> Result<Statement, Refusal>
        ensures read { Gives statement_of result (watch_at self.now.source.now tokens.now) }
    {
        let (name, rest) = tokens.name().ok_or(Refusal::Refused)?;
        let rest = rest.after(Lexeme::Comma).ok_or(Refusal::Refused)?;
        let slot = rest.slot().ok_or(Refusal::Refused)?;
        let name = self.name_of(name)?;
        Ok(Statement::Watch { name, slot })
    }

    fn define(&self, tokens: &Lexemes<'_>) -> Result<Statement, Refusal>
        ensures read { Gives statement_of result (define_at self.now.source.now tokens.now) }
    {
        let rest = tokens.after(Lexeme::Open).ok_or(Refusal::Refused)?;
        let (name, rest) = rest.quoted().ok_or(Refusal::Refused)?;
        let rest = rest.after(Lexeme::Comma).ok_or(Refusal::Refused)?;
        self.define_signature(name, &rest)
    }

    // A definition of this name, from its signature on.
    fn define_signature(&self, name: Span, tokens: &Lexemes<'_>) -> Result<Statement, Refusal>
        ensures read { Gives statement_of result
            (signature_at self.now.source.now name tokens.now) }
    {
        let rest = tokens.after_label(WordKind::Pars);
        let (signature, rest) = rest.quoted().ok_or(Refusal::Refused)?;
        let rest = rest.after(Lexeme::Comma).ok_or(Refusal::Refused)?;
        self.define_code(name, signature, &rest)
    }

    // A definition of this name and signature, from its code on.
    fn define_code(
        &self,
        name: Span,
        signature: Span,
        tokens: &Lexemes<'_>,
    ) -> Result<Statement, Refusal>
        ensures read { Gives statement_of result
            (code_at self.now.source.now name signature tokens.now) }
    {
        let rest = tokens.after_label(WordKind::Code);
        let (code, rest) = rest.quoted().ok_or(Refusal::Refused)?;
        let rest = rest.after(Lexeme::Close).ok_or(Refusal::Refused)?;
        rest.end()?;
        self.definition(name, signature, code)
    }

    // A definition of the three strings at these places.
    fn definition(&self, name: Span, signature: Span, code: Span) -> Result<Statement, Refusal>
        ensures ok { IfOk result
            (λ s. statement_of s ≡ texts_at self.now.source.now name signature code) }
        ensures err { IfErr result (λ r. r ≡ Refusal.NoMemory) }
    {
        let name = self.text_of(name)?;
        let signature = self.text_of(signature)?;
        let code = self.text_of(code)?;
        Ok(Statement::PpDef {
            name,
            signature,
            code,
        })
    }
}

// A value behind which nothing is left.
fn ended(value: Expr, rest: &Lexemes<'_>) -> Result<Expr, Refusal>
    ensures read { Gives tree_of result (at_end (tree_of value) rest.now) }
{
    rest.end()?;
    Ok(value)
}

fn vars(tokens: &Lexemes<'_>) -> Result<Statement, Refusal>
    ensures read { Gives statement_of result (at_end vars tokens.now) }
{
    tokens.end()?;
    Ok(Statement::Vars)
}

fn dump(tokens: &Lexemes<'_>) -> Result<Statement, Refusal>
    ensures read { Gives statement_of result (at_end dump tokens.now) }
{
    tokens.end()?;
    Ok(Statement::Dump)
}

fn unwatch(tokens: &Lexemes<'_>) -> Result<Statement, Refusal>
    ensures read { Gives statement_of result (option_map unwatch (slot_at tokens.now)) }
{
    let slot = tokens.slot().ok_or(Refusal::Refused)?;
    Ok(Statement::Unwatch { slot })
}
