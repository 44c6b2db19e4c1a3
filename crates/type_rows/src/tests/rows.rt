//! Texts with the fault of names or types that stands in each, and texts that are accepted. Printed by scripts/type_rows.py.

use c_types::TypeFault;

pub const UNKNOWN: [(&[u8], TypeFault); 12] = [
    (b"int main(void) { return x; }", TypeFault::Unknown(24)),
    (b"int main(void) { f(); }", TypeFault::Unknown(17)),
    (b"int main(void) { a[0] = 1; }", TypeFault::Unknown(17)),
    (b"int main(void) { x++; }", TypeFault::Unknown(17)),
    (b"int main(void) { x = 1; int x; }", TypeFault::Unknown(17)),
    (
        b"int main(void) { { int x; } return x; }",
        TypeFault::Unknown(35),
    ),
    (
        b"int main(void) { for (int i = 0; i < 3; i++) ; return i; }",
        TypeFault::Unknown(54),
    ),
    (
        b"int main(void) { switch (1) { int x; default: ; } return x; }",
        TypeFault::Unknown(57),
    ),
    (
        b"int f(int a) { return a; } int main(void) { return a; }",
        TypeFault::Unknown(51),
    ),
    (
        b"int f(int a); int g(void) { return a; } int main(void) {}",
        TypeFault::Unknown(35),
    ),
    (
        b"int main(void) { return f(); } int f(void) { return 1; }",
        TypeFault::Unknown(24),
    ),
    (
        b"int f(void) { return x; } int x; int main(void) {}",
        TypeFault::Unknown(21),
    ),
];

pub const REDECLARED: [(&[u8], TypeFault); 18] = [
    (
        b"int x; char x; int main(void) {}",
        TypeFault::Redeclared(12),
    ),
    (b"int x, x; int main(void) {}", TypeFault::Redeclared(7)),
    (
        b"int main(void) { int x; int x; }",
        TypeFault::Redeclared(28),
    ),
    (
        b"int main(void) { int x, y, x[2]; }",
        TypeFault::Redeclared(27),
    ),
    (
        b"int f(int a) { int a; return a; } int main(void) {}",
        TypeFault::Redeclared(19),
    ),
    (
        b"int f(int a, char a); int main(void) {}",
        TypeFault::Redeclared(18),
    ),
    (
        b"int f(int a, char a) { return a; } int main(void) {}",
        TypeFault::Redeclared(18),
    ),
    (
        b"int f(void); char f(void); int main(void) {}",
        TypeFault::Redeclared(18),
    ),
    (
        b"int f(int a); int f(char a); int main(void) {}",
        TypeFault::Redeclared(18),
    ),
    (
        b"int f(int a) { return a; } int f(void); int main(void) {}",
        TypeFault::Redeclared(31),
    ),
    (
        b"int f(void) { return 1; } int f(void) { return 2; } int main(void) {}",
        TypeFault::Redeclared(30),
    ),
    (
        b"int getchar(int c); int main(void) {}",
        TypeFault::Redeclared(4),
    ),
    (
        b"int getchar(void) { return 1; } int main(void) {}",
        TypeFault::Redeclared(4),
    ),
    (
        b"int f; int f(void); int main(void) {}",
        TypeFault::Redeclared(11),
    ),
    (
        b"int f(void); int f; int main(void) {}",
        TypeFault::Redeclared(17),
    ),
    (b"int exit; int main(void) {}", TypeFault::Redeclared(4)),
    (
        b"int main(void) { for (int i, i; ; ) ; }",
        TypeFault::Redeclared(29),
    ),
    (
        b"int main(void) { switch (1) { int x; default: ; int x; } }",
        TypeFault::Redeclared(52),
    ),
];

pub const NO_BODY: [(&[u8], TypeFault); 3] = [
    (
        b"int f(void); int main(void) { return f(); }",
        TypeFault::NoBody(37),
    ),
    (
        b"void f(int a); int main(void) { f(1); } void f(int a);",
        TypeFault::NoBody(32),
    ),
    (
        b"void f(void); int main(void) { return 1 + f(); }",
        TypeFault::NoBody(42),
    ),
];

pub const ARG_COUNT: [(&[u8], TypeFault); 5] = [
    (
        b"int f(int a) { return a; } int main(void) { return f(); }",
        TypeFault::ArgCount(51),
    ),
    (
        b"int f() { return 1; } int main(void) { return f(1); }",
        TypeFault::ArgCount(46),
    ),
    (
        b"int main(void) { putchar(1, 2); }",
        TypeFault::ArgCount(17),
    ),
    (
        b"int main(void) { return getchar(1); }",
        TypeFault::ArgCount(24),
    ),
    (b"int main(void) { exit(); }", TypeFault::ArgCount(17)),
];

pub const NOT_A_FUNCTION: [(&[u8], TypeFault); 4] = [
    (
        b"int x; int main(void) { return x(); }",
        TypeFault::NotAFunction(31),
    ),
    (
        b"int f() { return 1; } int main(void) { int f = 0; return f(); }",
        TypeFault::NotAFunction(57),
    ),
    (
        b"int f(int f) { return f(1); } int main(void) {}",
        TypeFault::NotAFunction(22),
    ),
    (
        b"int main(void) { int a[2]; a(1); }",
        TypeFault::NotAFunction(27),
    ),
];

pub const NOT_AN_ARRAY: [(&[u8], TypeFault); 4] = [
    (
        b"int x; int main(void) { return x[0]; }",
        TypeFault::NotAnArray(31),
    ),
    (
        b"int f() { return 1; } int main(void) { return f[0]; }",
        TypeFault::NotAnArray(46),
    ),
    (
        b"int a[2]; int main(void) { int a = 0; a[0] = 1; }",
        TypeFault::NotAnArray(38),
    ),
    (
        b"int main(void) { getchar[1]++; }",
        TypeFault::NotAnArray(17),
    ),
];

pub const NOT_A_VARIABLE: [(&[u8], TypeFault); 15] = [
    (
        b"int f() { return 1; } int main(void) { return f; }",
        TypeFault::NotAVariable(46),
    ),
    (b"int main(void) { getchar; }", TypeFault::NotAVariable(17)),
    (
        b"int main(void) { if (exit) ; }",
        TypeFault::NotAVariable(21),
    ),
    (
        b"int main(void) { putchar(putchar); }",
        TypeFault::NotAVariable(25),
    ),
    (
        b"int f() { return 1; } int main(void) { f = 1; }",
        TypeFault::NotAVariable(41),
    ),
    (
        b"int f() { return 1; } int main(void) { f++; }",
        TypeFault::NotAVariable(40),
    ),
    (
        b"int main(void) { int x; (x) = 1; (1) = 2; }",
        TypeFault::NotAVariable(37),
    ),
    (
        b"int main(void) { int x; -x = 1; }",
        TypeFault::NotAVariable(27),
    ),
    (
        b"int main(void) { int x; x++ = 1; }",
        TypeFault::NotAVariable(28),
    ),
    (
        b"int main(void) { int x; ++x++; }",
        TypeFault::NotAVariable(24),
    ),
    (
        b"int main(void) { getchar() += 1; }",
        TypeFault::NotAVariable(27),
    ),
    (
        b"int main(void) { int x, y; (x, y)--; }",
        TypeFault::NotAVariable(33),
    ),
    (
        b"int main(void) { int x; (x ? x : x) = 1; }",
        TypeFault::NotAVariable(36),
    ),
    (
        b"int main(void) { int x, y; (x = y) = 1; }",
        TypeFault::NotAVariable(35),
    ),
    (b"int main(void) { --EOF; }", TypeFault::NotAVariable(17)),
];

pub const ARRAY_VALUE: [(&[u8], TypeFault); 12] = [
    (
        b"int a[2]; int main(void) { return a; }",
        TypeFault::ArrayValue(34),
    ),
    (
        b"int main(void) { int a[2]; a; }",
        TypeFault::ArrayValue(27),
    ),
    (
        b"int main(void) { int a[2]; if (a) ; }",
        TypeFault::ArrayValue(31),
    ),
    (
        b"int main(void) { int a[2]; putchar(a); }",
        TypeFault::ArrayValue(35),
    ),
    (
        b"int main(void) { int a[2]; a = 1; }",
        TypeFault::ArrayValue(27),
    ),
    (
        b"int main(void) { int a[2]; ++a; }",
        TypeFault::ArrayValue(29),
    ),
    (
        b"int main(void) { int a[2]; (a)++; }",
        TypeFault::ArrayValue(28),
    ),
    (
        b"int main(void) { int a[2], b[2]; return b[a]; }",
        TypeFault::ArrayValue(42),
    ),
    (
        b"int main(void) { int a[2] = 1; }",
        TypeFault::ArrayValue(21),
    ),
    (
        b"int main(void) { int x = {1}; }",
        TypeFault::ArrayValue(21),
    ),
    (b"int a[2] = 1; int main(void) {}", TypeFault::ArrayValue(4)),
    (b"int x = {1}; int main(void) {}", TypeFault::ArrayValue(4)),
];

pub const VOID_VALUE: [(&[u8], TypeFault); 26] = [
    (
        b"void f() {} int main(void) { return 1 + f(); }",
        TypeFault::VoidValue(40),
    ),
    (
        b"void f() {} int main(void) { return f(); }",
        TypeFault::VoidValue(36),
    ),
    (
        b"void f() {} int main(void) { if (f()) ; }",
        TypeFault::VoidValue(33),
    ),
    (
        b"void f() {} int main(void) { putchar(f()); }",
        TypeFault::VoidValue(37),
    ),
    (
        b"void f() {} int main(void) { int x = f(); }",
        TypeFault::VoidValue(37),
    ),
    (
        b"void f() {} int main(void) { return -(f()); }",
        TypeFault::VoidValue(37),
    ),
    (
        b"void f() {} int main(void) { return 1 + (1, f()); }",
        TypeFault::VoidValue(40),
    ),
    (
        b"void f() {} int main(void) { int x = 1 ? f() : f(); }",
        TypeFault::VoidValue(39),
    ),
    (
        b"void f() {} int main(void) { 1 ? f() : 1; }",
        TypeFault::VoidValue(33),
    ),
    (
        b"void f() {} int main(void) { 1 ? 1 : f(); }",
        TypeFault::VoidValue(37),
    ),
    (
        b"void f() {} int main(void) { (int)f(); }",
        TypeFault::VoidValue(34),
    ),
    (
        b"int main(void) { return (void)1; }",
        TypeFault::VoidValue(24),
    ),
    (
        b"int main(void) { int a[2]; a[(void)0] = 1; }",
        TypeFault::VoidValue(29),
    ),
    (
        b"int main(void) { switch ((void)0) { default: ; } }",
        TypeFault::VoidValue(25),
    ),
    (
        b"int main(void) { while (exit(1)) ; }",
        TypeFault::VoidValue(24),
    ),
    (b"void x; int main(void) {}", TypeFault::VoidValue(5)),
    (b"int main(void) { void x; }", TypeFault::VoidValue(22)),
    (b"int main(void) { void a[2]; }", TypeFault::VoidValue(22)),
    (
        b"int f(void x); int main(void) {}",
        TypeFault::VoidValue(11),
    ),
    (
        b"int f(void x) { return 1; } int main(void) {}",
        TypeFault::VoidValue(11),
    ),
    (
        b"int f(void, int); int main(void) {}",
        TypeFault::VoidValue(6),
    ),
    (
        b"int f(int a, void); int main(void) {}",
        TypeFault::VoidValue(13),
    ),
    (
        b"int f(int a, void b); int main(void) {}",
        TypeFault::VoidValue(18),
    ),
    (
        b"void f() { return 1; } int main(void) {}",
        TypeFault::VoidValue(11),
    ),
    (
        b"void g() {} void f() { return g(); } int main(void) {}",
        TypeFault::VoidValue(23),
    ),
    (b"int main(void) { return; }", TypeFault::VoidValue(17)),
];

pub const BAD_CASE: [(&[u8], TypeFault); 13] = [
    (
        b"int main(void) { int x; switch (1) { case x: ; } }",
        TypeFault::BadCase(37),
    ),
    (
        b"int main(void) { switch (1) { case getchar(): ; } }",
        TypeFault::BadCase(30),
    ),
    (
        b"int main(void) { switch (1) { case 1 / 0: ; } }",
        TypeFault::BadCase(30),
    ),
    (
        b"int main(void) { switch (1) { case 2147483647 + 1: ; } }",
        TypeFault::BadCase(30),
    ),
    (
        b"int main(void) { switch (1) { case 1 << 32: ; } }",
        TypeFault::BadCase(30),
    ),
    (
        b"int main(void) { switch (1) { case -1 << 0: ; } }",
        TypeFault::BadCase(30),
    ),
    (
        b"int main(void) { switch (1) { case 1 || getchar(): ; } }",
        TypeFault::BadCase(30),
    ),
    (
        b"int main(void) { switch (1) { case 0 || 1 % 0: ; } }",
        TypeFault::BadCase(30),
    ),
    (
        b"int main(void) { switch (1) { case (1, 2): ; } }",
        TypeFault::BadCase(30),
    ),
    (
        b"int main(void) { int x; switch (1) { case (x = 1): ; } }",
        TypeFault::BadCase(37),
    ),
    (
        b"int main(void) { switch (1) { case 0 ? getchar() : 1: ; } }",
        TypeFault::BadCase(30),
    ),
    (
        b"int main(void) { int a[2]; switch (1) { case a[0]: ; } }",
        TypeFault::BadCase(40),
    ),
    (
        b"int main(void) { switch (1) { case -2147483647 - 2: ; } }",
        TypeFault::BadCase(30),
    ),
];

pub const NOT_CONSTANT: [(&[u8], TypeFault); 12] = [
    (
        b"int x; int y = x; int main(void) {}",
        TypeFault::NotConstant(11),
    ),
    (
        b"int x = getchar(); int main(void) {}",
        TypeFault::NotConstant(4),
    ),
    (
        b"int x = 1 / 0; int main(void) {}",
        TypeFault::NotConstant(4),
    ),
    (
        b"int x = -2147483647 - 2; int main(void) {}",
        TypeFault::NotConstant(4),
    ),
    (
        b"int x = 1 << 31; int main(void) {}",
        TypeFault::NotConstant(4),
    ),
    (
        b"int x = (1, 2); int main(void) {}",
        TypeFault::NotConstant(4),
    ),
    (
        b"int x, a[2] = {1, x}; int main(void) {}",
        TypeFault::NotConstant(7),
    ),
    (b"int x = x; int main(void) {}", TypeFault::NotConstant(4)),
    (
        b"int x = 0 ? getchar() : 1; int main(void) {}",
        TypeFault::NotConstant(4),
    ),
    (
        b"int x, y = (x = 1); int main(void) {}",
        TypeFault::NotConstant(7),
    ),
    (
        b"int x = 1 ? 1 >> 32 : 1; int main(void) {}",
        TypeFault::NotConstant(4),
    ),
    (
        b"int x, y = x++; int main(void) {}",
        TypeFault::NotConstant(7),
    ),
];

pub const TWICE_CASE: [(&[u8], TypeFault); 8] = [
    (
        b"int main(void) { switch (1) { case 1: case 1: ; } }",
        TypeFault::TwiceCase(38),
    ),
    (
        b"int main(void) { switch (1) { case 1: ; case 2: ; case 3 - 2: ; } }",
        TypeFault::TwiceCase(50),
    ),
    (
        b"int main(void) { switch (1) { default: ; default: ; } }",
        TypeFault::TwiceCase(41),
    ),
    (
        b"int main(void) { switch (1) { case 0: ; case 4294967296: ; } }",
        TypeFault::TwiceCase(40),
    ),
    (
        b"int main(void) { switch (1u) { case -1: ; case 4294967295: ; } }",
        TypeFault::TwiceCase(42),
    ),
    (
        b"int f(char c) { switch (c) { case 255: ; case -1: ; case 4294967295: ; } return 1; } int main(void) {}",
        TypeFault::TwiceCase(52),
    ),
    (
        b"int main(void) { switch (1) { case 'a': ; case 97: ; } }",
        TypeFault::TwiceCase(42),
    ),
    (
        b"int main(void) { switch (1) { case EOF: ; case -1: ; } }",
        TypeFault::TwiceCase(42),
    ),
];

pub const OUTSIDE_LOOP: [(&[u8], TypeFault); 8] = [
    (b"int main(void) { break; }", TypeFault::OutsideLoop(17)),
    (b"int main(void) { continue; }", TypeFault::OutsideLoop(17)),
    (
        b"int main(void) { if (1) break; else ; }",
        TypeFault::OutsideLoop(24),
    ),
    (
        b"int main(void) { while (1) ; break; }",
        TypeFault::OutsideLoop(29),
    ),
    (
        b"int main(void) { switch (1) { default: continue; } }",
        TypeFault::OutsideLoop(39),
    ),
    (
        b"int main(void) { switch (1) { case 1: { continue; } } }",
        TypeFault::OutsideLoop(40),
    ),
    (
        b"int main(void) { do break; while (1); continue; }",
        TypeFault::OutsideLoop(38),
    ),
    (
        b"void f() { while (1) ; } void g() { break; } int main(void) {}",
        TypeFault::OutsideLoop(36),
    ),
];

pub const ARRAY_SIZE: [(&[u8], TypeFault); 14] = [
    (b"int a[0]; int main(void) {}", TypeFault::ArraySize(4)),
    (b"int a[-1]; int main(void) {}", TypeFault::ArraySize(4)),
    (
        b"int a[1048577]; int main(void) {}",
        TypeFault::ArraySize(4),
    ),
    (b"int x, a[x]; int main(void) {}", TypeFault::ArraySize(7)),
    (b"int a[1 / 0]; int main(void) {}", TypeFault::ArraySize(4)),
    (b"int a[]; int main(void) {}", TypeFault::ArraySize(4)),
    (
        b"int a[2] = {1, 2, 3}; int main(void) {}",
        TypeFault::ArraySize(4),
    ),
    (b"int main(void) { int a[0]; }", TypeFault::ArraySize(21)),
    (
        b"int main(void) { int x; int a[x]; }",
        TypeFault::ArraySize(28),
    ),
    (b"int main(void) { int a[]; }", TypeFault::ArraySize(21)),
    (
        b"int main(void) { int a[1] = {1, 2}; }",
        TypeFault::ArraySize(21),
    ),
    (
        b"int main(void) { int a[4294967296]; }",
        TypeFault::ArraySize(21),
    ),
    (
        b"int main(void) { int a[1 || getchar()]; }",
        TypeFault::ArraySize(21),
    ),
    (
        b"int main(void) { int a[(1, 2)]; }",
        TypeFault::ArraySize(21),
    ),
];

pub const TOO_MANY_PARAMETERS: [(&[u8], TypeFault); 2] = [
    (
        b"int f(int p0, int p1, int p2, int p3, int p4, int p5, int p6, int p7, int p8, int p9, int p10, int p11, int p12, int p13, int p14, int p15, int p16, int p17, int p18, int p19, int p20, int p21, int p22, int p23, int p24, int p25, int p26, int p27, int p28, int p29, int p30, int p31, int p32, int p33, int p34, int p35, int p36, int p37, int p38, int p39, int p40, int p41, int p42, int p43, int p44, int p45, int p46, int p47, int p48, int p49, int p50, int p51, int p52, int p53, int p54, int p55, int p56, int p57, int p58, int p59, int p60, int p61, int p62, int p63, int p64); int main(void) {}",
        TypeFault::TooManyParameters(4),
    ),
    (
        b"int f(int p0, int p1, int p2, int p3, int p4, int p5, int p6, int p7, int p8, int p9, int p10, int p11, int p12, int p13, int p14, int p15, int p16, int p17, int p18, int p19, int p20, int p21, int p22, int p23, int p24, int p25, int p26, int p27, int p28, int p29, int p30, int p31, int p32, int p33, int p34, int p35, int p36, int p37, int p38, int p39, int p40, int p41, int p42, int p43, int p44, int p45, int p46, int p47, int p48, int p49, int p50, int p51, int p52, int p53, int p54, int p55, int p56, int p57, int p58, int p59, int p60, int p61, int p62, int p63, int p64) { return p0; } int main(void) {}",
        TypeFault::TooManyParameters(4),
    ),
];

pub const NO_MAIN: [(&[u8], TypeFault); 8] = [
    (b"", TypeFault::NoMain(0)),
    (b" /* nothing */ ", TypeFault::NoMain(0)),
    (b"int x; \n", TypeFault::NoMain(6)),
    (b"int main(void);", TypeFault::NoMain(15)),
    (b"void main(void) {}", TypeFault::NoMain(18)),
    (b"int main(int a) { return a; }", TypeFault::NoMain(29)),
    (b"int main;", TypeFault::NoMain(9)),
    (b"int moin() {}", TypeFault::NoMain(13)),
];

pub const ACCEPTED: [&[u8]; 30] = [
    b"int f(int); int f(int a) { return a; } int f(int b); int main(void) { return f(1); }",
    b"int getchar(void); int getchar(); int putchar(int c); int putchar(int); void exit(int status); int main(void) {}",
    b"int main() { return main(); }",
    b"int f() { return 1; } int f(void); int main(void) { return f(); }",
    b"int main(void) { switch (1) { case (char)257: ; case 2: ; case (1 || 1 / 0) + 2: ; } }",
    b"int main(void) { switch (1) { case 1 ? 5 : 1 / 0: ; case 'a' + 1: ; case EOF: ; case (unsigned char)-1: ; case !0: ; } }",
    b"int main(void) { switch (0l) { case 0: ; case 4294967296: ; } }",
    b"int main(void) { switch (1) { } }",
    b"int main(void) { switch (1) { case 1: } }",
    b"int main(void) { switch (1) { case 1: int x; } }",
    b"int main(void) { switch (1) { int x; default: x = 1; break; } }",
    b"int main(void) { int y = y; return y; }",
    b"int main(void) { int x = 1; { char x = 2; x++; } return x; }",
    b"int f(int a) { { int a = 1; return a; } } int main(void) {}",
    b"int main(void) { int n = 3, a[3]; { int n[2] = {1, 2,}; n[0] = a[n[1]]; } return n; }",
    b"int main(void) { int a[] = {1, 2,}; return a[1]; }",
    b"int a[2 * 3], b['a'], c[1048576], d[(1 || 1 / 0) + 1] = {1}; int main(void) {}",
    b"int f(int a, char b); void g(); int main(void) {}",
    b"void f() {} int main(void) { (void)f(); 1, f(); 1 ? f() : f(); (f()); for (f(); 1; f()) break; }",
    b"int main(void) { int x, a[2]; (x) = 1; ((a[0]))++; (a[1]) += x; return x, 1; }",
    b"int main(void) { for (;;) { switch (1) { case 1: continue; default: break; } break; } }",
    b"int f(int a); int g(int a) { return f(a); } int f(int a) { return g(a); } int main(void) {}",
    b"int main(void) { int getchar = 1, putchar[2]; putchar[0] = getchar; }",
    b"int f(int p0, int p1, int p2, int p3, int p4, int p5, int p6, int p7, int p8, int p9, int p10, int p11, int p12, int p13, int p14, int p15, int p16, int p17, int p18, int p19, int p20, int p21, int p22, int p23, int p24, int p25, int p26, int p27, int p28, int p29, int p30, int p31, int p32, int p33, int p34, int p35, int p36, int p37, int p38, int p39, int p40, int p41, int p42, int p43, int p44, int p45, int p46, int p47, int p48, int p49, int p50, int p51, int p52, int p53, int p54, int p55, int p56, int p57, int p58, int p59, int p60, int p61, int p62, int p63) { return p0; } int main(void) {}",
    b"int main(void) { for (int i = 0; i < 3; i++) { int i = 5; } for (int i = 0; ; ) break; }",
    b"_Bool b = 2; unsigned char c = -1, d[3] = {300, -1}; long l = 4294967296; int main(void) {}",
    b"int x = 1 ? 2 : 1 % 0, y = 0 && 1 / 0; int main(void) {}",
    b"void f(void) { return; } int main(void) { int main = 1; return main; }",
    b"#include <stdio.h>\n\nint lines, words;\n\nint blank(int c) {\n  switch (c) {\n  case ' ':\n  case '\\n':\n  case '\\t':\n    return 1;\n  default:\n    return 0;\n  }\n}\n\nvoid number(int n) {\n  if (n >= 10)\n    number(n / 10);\n  putchar('0' + n % 10);\n}\n\nint main(void) {\n  int c, inside = 0;\n  while ((c = getchar()) != EOF) {\n    if (c == '\\n')\n      lines++;\n    if (blank(c))\n      inside = 0;\n    else if (!inside) {\n      inside = 1;\n      words++;\n    }\n  }\n  number(lines);\n  putchar(' ');\n  number(words);\n  putchar('\\n');\n  return 0;\n}\n",
    b"int f0(int n) {\nint s = 0;\nwhile (n > 0) {\nif (n % 2 == 0)\ns = s + n;\nelse\ns = s - 1;\nn = n - 1;\n}\nreturn s;\n}\nint f1(int n) {\nint s = 1;\nwhile (n > 0) {\nif (n % 2 == 0)\ns = s + n;\nelse\ns = s - 1;\nn = n - 1;\n}\nreturn s;\n}\nint main(void) {\nint t = 0;\nt = t + f0(0);\nt = t + f1(1);\nreturn 0;\n}\n",
];
