//! Calls once each, worked by hand. The program `pdl_cases` shows the lexemes of many texts.
use crate::comparing::{same, same_list};
use pdl_elem::BinaryOp;
use pdl_lexemes::*;

#[test]
fn parts_and_numbers(rt: HostRuntime) {
    let rt = &rt;
    let name = Span { from: 3, to: 7 };
    same_list(rt, bytes(b"my $abc += 7", name), b"$abc");
    same(rt, signed(9_223_372_036_854_775_807), Some(i64::MAX));
    same(rt, signed(9_223_372_036_854_775_808), None);
}

const MINUS: Lexeme = Lexeme::Operator(BinaryOp::Sub);

#[test]
fn lexemes_are_split_off(rt: HostRuntime) {
    let rt = &rt;
    let all = [MINUS, Lexeme::Number(1)];
    let tokens = Lexemes::of(&all).expect(rt, "shallow lexemes");
    same(rt, tokens.len(), 2);
    let (first, rest) = tokens.split_first().expect(rt, "a lexeme");
    same(rt, first, MINUS);
    same(rt, rest.end().is_err(), true);
    let (second, rest) = rest.copy().split_first().expect(rt, "a lexeme");
    same(rt, second, Lexeme::Number(1));
    same(rt, rest.is_empty(), true);
    same(rt, rest.end().is_ok(), true);
    same(rt, rest.split_first().is_none(), true);
}

// The lexemes of `[-7] + [[1],2]`.
const LISTS: [Lexeme; 12] = [
    Lexeme::OpenSquare,
    MINUS,
    Lexeme::Number(7),
    Lexeme::CloseSquare,
    Lexeme::Operator(BinaryOp::Add),
    Lexeme::OpenSquare,
    Lexeme::OpenSquare,
    Lexeme::Number(1),
    Lexeme::CloseSquare,
    Lexeme::Comma,
    Lexeme::Number(2),
    Lexeme::CloseSquare,
];

#[test]
fn a_list_is_read(rt: HostRuntime) {
    let rt = &rt;
    let tokens = Lexemes::of(&LISTS).expect(rt, "shallow lexemes");
    let (row, rest) = list::read(rt.alloc(), &tokens).expect(rt, "a list");
    let shape = row.shape.expect(rt, "dimensions");
    same_list(rt, shape.list(), &[1]);
    same_list(rt, row.elems.as_slice(), &[-7]);
    same(rt, rest.len(), 8);
    same(rt, has_large(&LISTS), false);
}
