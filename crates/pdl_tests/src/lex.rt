//! The limit of a statement, counted by hand. The program `pdl_cases` cuts many texts, and shows
//! their tokens.
use crate::comparing::same;
use pdl_lex::*;
use std::process::Abort;

// The piece that a part completes is of a statement of the first line that is too long.
fn is_too_long(rt: &impl Abort, cut: &Option<Piece>) {
    assert!(rt; matches!(cut, Some(Piece::TooLong { line: 1 })));
}

// A statement is too long at the byte past the limit, and its rest is taken without an answer.
#[test]
fn answers_too_long(rt: HostRuntime) {
    let rt = &rt;
    let text = vec![in rt.alloc(); b'a'; 65_535].expect(rt, "memory");
    let mut cutter = StatementCutter::new(rt.alloc());
    let within = cutter.feed(&text).expect(rt, "memory");
    same(rt, within.cut.is_none(), true);
    let past = cutter.feed(b"'\n;';").expect(rt, "memory");
    same(rt, past.used, 2);
    is_too_long(rt, &past.cut);
    let rest = cutter.feed(b";';").expect(rt, "memory");
    same(rt, rest.cut.is_none(), true);
    same(rt, cutter.line(), 2);
    same(rt, cutter.end().is_none(), true);
}
