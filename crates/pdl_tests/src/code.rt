//! Code whose parts were counted by hand. The program `pdl_cases` shows the trees of many more.
use crate::comparing::same;
use pdl_code::read_code;
use pdl_sig::read_signature;

#[test]
fn a_sum(rt: HostRuntime) {
    let rt = &rt;
    let signature = read_signature(rt.alloc(), b"a(n); [o]b()").expect(rt, "a signature");
    let text = b"long s; loop(n) %{ s += $a(); %} $b() = s * 2;";
    let code = read_code(rt.alloc(), &signature, text).expect(rt, "code");
    same(rt, code.locals, 1);
    same(rt, code.stmts.as_slice().len(), 3);
}
