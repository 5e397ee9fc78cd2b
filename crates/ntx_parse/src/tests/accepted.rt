//! Scripts that are accepted.

use super::reads;

#[test]
fn precedences(rt: HostRuntime) {
    reads(&rt, b"x=a or b and c", b"1@x=(a or (b and c));");
    reads(&rt, b"x=a and b or c", b"1@x=((a and b) or c);");
    reads(&rt, b"x=a<b and c>=d", b"1@x=((a<b) and (c>=d));");
    reads(&rt, b"x=a<=b|c", b"1@x=(a<=(b|c));");
    reads(&rt, b"x=a|b~=c", b"1@x=((a|b)~=c);");
    reads(&rt, b"x=a|b~c", b"1@x=(a|(b~c));");
    reads(&rt, b"x=a~b|c", b"1@x=((a~b)|c);");
    reads(&rt, b"x=a~b&c", b"1@x=(a~(b&c));");
    reads(&rt, b"x=a&b<<c", b"1@x=(a&(b<<c));");
    reads(&rt, b"x=a>>b&c", b"1@x=((a>>b)&c);");
}

#[test]
fn tighter_precedences(rt: HostRuntime) {
    reads(&rt, b"x=a<<b..c", b"1@x=(a<<(b..c));");
    reads(&rt, b"x=a..b<<c", b"1@x=((a..b)<<c);");
    reads(&rt, b"x=a..b+c", b"1@x=(a..(b+c));");
    reads(&rt, b"x=a-b..c", b"1@x=((a-b)..c);");
    reads(&rt, b"x=a+b*c", b"1@x=(a+(b*c));");
    reads(&rt, b"x=a%b-c", b"1@x=((a%b)-c);");
    reads(&rt, b"x=-a//b", b"1@x=((-a)//b);");
    reads(&rt, b"x=a*-b", b"1@x=(a*(-b));");
    reads(&rt, b"x=not a==b", b"1@x=((not a)==b);");
    reads(&rt, b"x=#a.b", b"1@x=(#a.b);");
}

#[test]
fn runs(rt: HostRuntime) {
    reads(&rt, b"x=a-b-c", b"1@x=(a-b-c);");
    reads(&rt, b"x=a*b//c%d", b"1@x=(a*b//c%d);");
    reads(&rt, b"x=a==b~=c", b"1@x=(a==b~=c);");
    reads(&rt, b"x=a or b or c", b"1@x=(a or b or c);");
    reads(&rt, b"x=a..b..c", b"1@x=(a..(b..c));");
    reads(&rt, b"x=a..b+c..d", b"1@x=(a..((b+c)..d));");
    reads(&rt, b"x=a- -b", b"1@x=(a-(-b));");
    reads(&rt, b"x=not not a", b"1@x=(not (not a));");
    reads(&rt, b"x=-~#a", b"1@x=(-(~(#a)));");
    reads(&rt, b"x=a~~b", b"1@x=(a~(~b));");
    reads(&rt, b"x=(a-b)-(c)", b"1@x=(<(a-b)>-<c>);");
    reads(&rt, b"x=a..-b..c", b"1@x=(a..((-b)..c));");
}

#[test]
fn simple_expressions(rt: HostRuntime) {
    reads(&rt, b"x=nil", b"1@x=nil;");
    reads(&rt, b"x=false,true", b"1@x=false,true;");
    reads(&rt, b"x=0x10", b"1@x=16;");
    reads(&rt, b"x='a\\65'", b"1@x=\"aA\";");
    reads(&rt, b"x=function() end", b"1@x=function() end;");
    reads(
        &rt,
        b"x=function(a,b)\nreturn a end",
        b"1@x=function(1@a,1@b) 2@return a;end;",
    );
    reads(&rt, b"x=(a)", b"1@x=<a>;");
    reads(&rt, b"x=(a)(b)[c].d", b"1@x=<a>(b)[c].d;");
    reads(&rt, b"x=f()", b"1@x=f();");
    reads(&rt, b"x=f(a,b)(c)", b"1@x=f(a,b)(c);");
}

#[test]
fn tables(rt: HostRuntime) {
    reads(&rt, b"x={}", b"1@x={};");
    reads(&rt, b"x={a}", b"1@x={a;};");
    reads(&rt, b"x={a,}", b"1@x={a;};");
    reads(&rt, b"x={a;b}", b"1@x={a;b;};");
    reads(&rt, b"x={a=b}", b"1@x={a=b;};");
    reads(&rt, b"x={a==b}", b"1@x={(a==b);};");
    reads(&rt, b"x={[a]=b,c;}", b"1@x={[a]=b;c;};");
    reads(&rt, b"x={a.b,{c}}", b"1@x={a.b;{c;};};");
}

#[test]
fn blocks(rt: HostRuntime) {
    reads(&rt, b"", b"");
    reads(&rt, b";", b"1@empty;");
    reads(&rt, b"return", b"1@return ;");
    reads(&rt, b"return;", b"1@return ;");
    reads(&rt, b"return a,b;", b"1@return a,b;");
    reads(&rt, b"return -a", b"1@return (-a);");
    reads(
        &rt,
        b"\ndo x=1\nreturn y end z=2",
        b"2@do 2@x=1;3@return y;end;3@z=2;",
    );
    reads(&rt, b"while a do break end", b"1@while a do 1@break;end;");
    reads(&rt, b"repeat break until a", b"1@repeat 1@break;until a;");
    reads(
        &rt,
        b"while a do do break end end",
        b"1@while a do 1@do 1@break;end;end;",
    );
}

#[test]
fn choices(rt: HostRuntime) {
    reads(&rt, b"if a then end", b"1@if a then end;");
    reads(
        &rt,
        b"if a then b() else c() end",
        b"1@if a then 1@call b();else 1@call c();end;",
    );
    reads(
        &rt,
        b"if a then elseif b then x=1 end",
        b"1@if a then if b then 1@x=1;end;",
    );
    reads(
        &rt,
        b"if a then\nelseif b then\nelse\nx=1 end",
        b"1@if a then if b then else 4@x=1;end;",
    );
}

#[test]
fn loops(rt: HostRuntime) {
    reads(&rt, b"for i=1,2 do end", b"1@for 1@i=1,2 do end;");
    reads(
        &rt,
        b"for i=1,2,3 do f() end",
        b"1@for 1@i=1,2,3 do 1@call f();end;",
    );
    reads(&rt, b"for k in f do end", b"1@for 1@k in f do end;");
    reads(
        &rt,
        b"for k,\nv in f,g do break end",
        b"1@for 1@k,2@v in f,g do 2@break;end;",
    );
}

#[test]
fn declarations(rt: HostRuntime) {
    reads(&rt, b"local a", b"1@local 1@a=;");
    reads(&rt, b"local a,\nb=1,2", b"1@local 1@a,2@b=1,2;");
    reads(
        &rt,
        b"local function f(a) end",
        b"1@local function 1@f(1@a) end;",
    );
    reads(&rt, b"function f() end", b"1@function f() end;");
    reads(
        &rt,
        b"function a.b.c(x,\ny) end",
        b"1@function a.b.c(1@x,2@y) end;",
    );
}

#[test]
fn assignments(rt: HostRuntime) {
    reads(&rt, b"a=1", b"1@a=1;");
    reads(&rt, b"a,b=1,2", b"1@a,b=1,2;");
    reads(&rt, b"a.b,c[d]=1", b"1@a.b,c[d]=1;");
    reads(&rt, b"f().x=1", b"1@f().x=1;");
    reads(&rt, b"(a).x=1", b"1@<a>.x=1;");
    reads(&rt, b"a=1 b=2", b"1@a=1;1@b=2;");
    reads(&rt, b"a=b\n(c)()", b"1@a=b(c)();");
    reads(&rt, b"a=b;(c)()", b"1@a=b;1@empty;1@call <c>();");
}

#[test]
fn calls(rt: HostRuntime) {
    reads(&rt, b"f()", b"1@call f();");
    reads(&rt, b"f(a)(b)(c)", b"1@call f(a)(b)(c);");
    reads(&rt, b"a\n(b)()", b"1@call a(b)();");
    reads(&rt, b"a();(b)()", b"1@call a();1@empty;1@call <b>();");
    reads(&rt, b"a.b[c](d)", b"1@call a.b[c](d);");
    reads(&rt, b"(f)()", b"1@call <f>();");
    reads(&rt, b"f(g(h),nil)", b"1@call f(g(h),nil);");
}
