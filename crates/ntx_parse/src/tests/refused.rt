//! Scripts that are refused.

use super::refuses;
use ntx_syntax::SyntaxWhy;
use std::process::Abort;

/// Asserts that a token on this line cannot follow.
fn stops(rt: &(impl Abort + AllocGlobal), text: &[u8], line: u64) {
    refuses(rt, text, line, SyntaxWhy::Expected)
}

#[test]
fn statements(rt: HostRuntime) {
    stops(&rt, b"x = = 1", 1);
    stops(&rt, b"x", 1);
    stops(&rt, b"x =", 1);
    stops(&rt, b"x\n=\n", 3);
    stops(&rt, b"f() = 1", 1);
    stops(&rt, b"f(),\na = 1", 1);
    stops(&rt, b"a,\nf()\n= 1", 3);
    stops(&rt, b"(a)\n= 1", 2);
    stops(&rt, b"a\nb = 1", 2);
    stops(&rt, b"a f()", 1);
    stops(&rt, b"(f)", 1);
    stops(&rt, b"a.\n1 = 2", 2);
}

#[test]
fn blocks(rt: HostRuntime) {
    stops(&rt, b"if a then\n", 2);
    stops(&rt, b"if a\ndo", 2);
    stops(&rt, b"end", 1);
    stops(&rt, b"do", 1);
    stops(&rt, b"return 1\nx = 2", 2);
    stops(&rt, b"return;\n;", 2);
    stops(&rt, b"if a then else\nelseif b then end", 2);
    stops(&rt, b"while a do\nuntil b", 2);
    stops(&rt, b"repeat\nend", 2);
    stops(&rt, b"goto\nx", 1);
}

#[test]
fn loops_and_declarations(rt: HostRuntime) {
    stops(&rt, b"for a\ndo end", 2);
    stops(&rt, b"for a,b\n= 1", 2);
    stops(&rt, b"for a.b in c do end", 1);
    stops(&rt, b"for i = 1\ndo end", 2);
    stops(&rt, b"for i = 1,2,3\n,4 do end", 2);
    stops(&rt, b"for i = 1,2\nx = 1", 2);
    stops(&rt, b"local\n1", 2);
    stops(&rt, b"local a.b", 1);
    stops(&rt, b"local function a.b() end", 1);
    stops(&rt, b"function\n() end", 2);
    stops(&rt, b"function f(a,) end", 1);
    stops(&rt, b"function f a", 1);
}

#[test]
fn expressions(rt: HostRuntime) {
    stops(&rt, b"x = 1 +\n* 2", 2);
    stops(&rt, b"x = a not b", 1);
    stops(&rt, b"x = {a b}", 1);
    stops(&rt, b"x = {a\n", 2);
    stops(&rt, b"x = {,}", 1);
    stops(&rt, b"x = {[a]\n}", 2);
    stops(&rt, b"x = {[a] = }", 1);
    stops(&rt, b"x = {1 = 2}", 1);
    stops(&rt, b"f(a,)", 1);
    stops(&rt, b"f(a\n;b)", 2);
    stops(&rt, b"x = a[]", 1);
    stops(&rt, b"x = ()", 1);
    stops(&rt, b"f 'a'", 1);
    stops(&rt, b"f {}", 1);
    stops(&rt, b"x = 'a'.b", 1);
    stops(&rt, b"x = {}(a)", 1);
}

#[test]
fn breaks(rt: HostRuntime) {
    refuses(&rt, b"break", 1, SyntaxWhy::Break);
    refuses(&rt, b"x = 1\nif a then break\nend", 2, SyntaxWhy::Break);
    refuses(
        &rt,
        b"while a do f = function()\nbreak end end",
        2,
        SyntaxWhy::Break,
    );
    refuses(
        &rt,
        b"repeat until function()\nbreak end",
        2,
        SyntaxWhy::Break,
    );
    refuses(&rt, b"break\nx", 1, SyntaxWhy::Break);
    refuses(&rt, b"x\nbreak", 2, SyntaxWhy::Expected);
}
