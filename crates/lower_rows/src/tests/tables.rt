//! Statements of a main function with the blocks that they have by the tables of lowering, worked out by hand.

/// What stands before the statements: the cells 0 and 1, 2, 3 and 4 of the globals, 5 to 7 and 8 to 9 of arrays, and the functions 0 and 1.
pub const BEFORE: &str =
    "int x, y; char c; unsigned u; long l; int a[3]; char d[2]; int f(int n) { return n; } void g(void) {} int main(void) { ";

/// Each form of a value.
pub const VALUES: [(&str, &str); 44] = [
    ("7;", "2: Push(7) Drop Push(0) Return | 1\n"),
    ("EOF;", "2: Push(-1) Drop Push(0) Return | 1\n"),
    ("x;", "2: LoadGlobal(0) Drop Push(0) Return | 1\n"),
    ("int i; i;", "2: LoadLocal(0) Drop Push(0) Return | 1\n"),
    (
        "a[x];",
        "2: LoadGlobal(0) CheckIndex(3, 1) LoadGlobalAt(5, 3) Drop Push(0) Return | 1\n",
    ),
    (
        "int i, b[2]; b[1];",
        "2: Push(1) CheckIndex(2, 1) LoadLocalAt(1, 2) Drop Push(0) Return | 1\n",
    ),
    ("+x;", "2: LoadGlobal(0) Drop Push(0) Return | 1\n"),
    (
        "+c;",
        "2: LoadGlobal(2) Convert(Int) Drop Push(0) Return | 1\n",
    ),
    (
        "-c;",
        "2: LoadGlobal(2) Convert(Int) Minus(Int, 1) Drop Push(0) Return | 1\n",
    ),
    (
        "-u;",
        "2: LoadGlobal(3) Minus(UnsignedInt, 1) Drop Push(0) Return | 1\n",
    ),
    (
        "~c;",
        "2: LoadGlobal(2) Convert(Int) Complement(Int, 1) Drop Push(0) Return | 1\n",
    ),
    ("!c;", "2: LoadGlobal(2) Not Drop Push(0) Return | 1\n"),
    (
        "(char)x;",
        "2: LoadGlobal(0) Convert(Char) Drop Push(0) Return | 1\n",
    ),
    ("(int)x;", "2: LoadGlobal(0) Drop Push(0) Return | 1\n"),
    ("(void)x;", "2: LoadGlobal(0) Drop Push(0) Return | 1\n"),
    (
        "(void)g();",
        "2: Call(1, 1, 3) | 1\n3: Push(0) Return | 1\n",
    ),
    (
        "c + l;",
        "2: LoadGlobal(2) Convert(Long) LoadGlobal(4) Add(Long, 1) Drop Push(0) Return | 1\n",
    ),
    (
        "x < u;",
        "2: LoadGlobal(0) Convert(UnsignedInt) LoadGlobal(3) Less(UnsignedInt, 1) Drop Push(0) Return | 1\n",
    ),
    (
        "c << l;",
        "2: LoadGlobal(2) Convert(Int) LoadGlobal(4) Shl(Int, 1) Drop Push(0) Return | 1\n",
    ),
    (
        "l >> c;",
        "2: LoadGlobal(4) LoadGlobal(2) Convert(Int) Shr(Long, 1) Drop Push(0) Return | 1\n",
    ),
    (
        "c = x;",
        "2: LoadGlobal(0) Convert(Char) StoreGlobal(2) Drop Push(0) Return | 1\n",
    ),
    (
        "int i; i = x;",
        "2: LoadGlobal(0) StoreLocal(0) Drop Push(0) Return | 1\n",
    ),
    (
        "a[x] = c;",
        "2: LoadGlobal(0) CheckIndex(3, 1) LoadGlobal(2) Convert(Int) StoreGlobalAt(5, 3) Drop Push(0) Return | 1\n",
    ),
    (
        "c += l;",
        "2: LoadGlobal(2) Convert(Long) LoadGlobal(4) Add(Long, 1) Convert(Char) StoreGlobal(2) Drop Push(0) Return | 1\n",
    ),
    (
        "x <<= c;",
        "2: LoadGlobal(0) LoadGlobal(2) Convert(Int) Shl(Int, 1) StoreGlobal(0) Drop Push(0) Return | 1\n",
    ),
    (
        "d[x] -= u;",
        "2: LoadGlobal(0) CheckIndex(2, 1) Dup LoadGlobalAt(8, 2) Convert(UnsignedInt) LoadGlobal(3) Sub(UnsignedInt, 1) Convert(Char) StoreGlobalAt(8, 2) Drop Push(0) Return | 1\n",
    ),
    (
        "++c;",
        "2: LoadGlobal(2) Convert(Int) Push(1) Add(Int, 1) Convert(Char) StoreGlobal(2) Drop Push(0) Return | 1\n",
    ),
    (
        "--u;",
        "2: LoadGlobal(3) Push(1) Sub(UnsignedInt, 1) StoreGlobal(3) Drop Push(0) Return | 1\n",
    ),
    (
        "++d[x];",
        "2: LoadGlobal(0) CheckIndex(2, 1) Dup LoadGlobalAt(8, 2) Convert(Int) Push(1) Add(Int, 1) Convert(Char) StoreGlobalAt(8, 2) Drop Push(0) Return | 1\n",
    ),
    (
        "c--;",
        "2: LoadGlobal(2) Dup Convert(Int) Push(1) Sub(Int, 1) Convert(Char) StoreGlobal(2) Drop Drop Push(0) Return | 1\n",
    ),
    (
        "d[x]++;",
        "2: LoadGlobal(0) CheckIndex(2, 1) Dup LoadGlobalAt(8, 2) Swap Over Convert(Int) Push(1) Add(Int, 1) Convert(Char) StoreGlobalAt(8, 2) Drop Drop Push(0) Return | 1\n",
    ),
    (
        "f(c);",
        "2: LoadGlobal(2) Convert(Int) Call(0, 1, 3) | 1\n3: Drop Push(0) Return | 1\n",
    ),
    ("g();", "2: Call(1, 1, 3) | 1\n3: Push(0) Return | 1\n"),
    ("getchar();", "2: GetChar Drop Push(0) Return | 1\n"),
    (
        "putchar(c);",
        "2: LoadGlobal(2) Convert(Int) PutChar(1) Drop Push(0) Return | 1\n",
    ),
    (
        "exit(c);",
        "2: LoadGlobal(2) Convert(Int) Exit | 1\n3: Push(0) Return | 1\n",
    ),
    (
        "x = c && u;",
        "2: LoadGlobal(2) Branch(3, 5) | 1\n3: LoadGlobal(3) Branch(4, 5) | 1\n4: Push(1) Jump(6) | 1\n5: Push(0) Jump(6) | 1\n6: StoreGlobal(0) Drop Push(0) Return | 1\n",
    ),
    (
        "x = c || u;",
        "2: LoadGlobal(2) Branch(4, 3) | 1\n3: LoadGlobal(3) Branch(4, 5) | 1\n4: Push(1) Jump(6) | 1\n5: Push(0) Jump(6) | 1\n6: StoreGlobal(0) Drop Push(0) Return | 1\n",
    ),
    (
        "x = !(c && u);",
        "2: LoadGlobal(2) Branch(3, 5) | 1\n3: LoadGlobal(3) Branch(4, 5) | 1\n4: Push(1) Jump(6) | 1\n5: Push(0) Jump(6) | 1\n6: Not StoreGlobal(0) Drop Push(0) Return | 1\n",
    ),
    (
        "x = c ? u : l;",
        "2: LoadGlobal(2) Branch(3, 4) | 1\n3: LoadGlobal(3) Convert(Long) Jump(5) | 1\n4: LoadGlobal(4) Jump(5) | 1\n5: Convert(Int) StoreGlobal(0) Drop Push(0) Return | 1\n",
    ),
    (
        "c ? g() : g();",
        "2: LoadGlobal(2) Branch(3, 5) | 1\n3: Call(1, 1, 4) | 1\n4: Jump(7) | 1\n5: Call(1, 1, 6) | 1\n6: Jump(7) | 1\n7: Push(0) Return | 1\n",
    ),
    (
        "x = (c, u);",
        "2: LoadGlobal(2) Drop LoadGlobal(3) Convert(Int) StoreGlobal(0) Drop Push(0) Return | 1\n",
    ),
    (
        "g(), x;",
        "2: Call(1, 1, 3) | 1\n3: LoadGlobal(0) Drop Push(0) Return | 1\n",
    ),
    (
        "f(f(1) + (exit(2), 3));",
        "2: Push(1) Call(0, 1, 3) | 1\n3: Push(2) Exit | 1\n4: Push(3) Add(Int, 1) Call(0, 1, 5) | 1\n5: Drop Push(0) Return | 1\n",
    ),
];

/// Each form of a condition.
pub const CONDITIONS: [(&str, &str); 9] = [
    (
        "if (c && u) x = 1;",
        "2: LoadGlobal(2) Branch(3, 5) | 1\n3: LoadGlobal(3) Branch(4, 5) | 1\n4: Push(1) StoreGlobal(0) Drop Jump(5) | 1\n5: Push(0) Return |\n",
    ),
    (
        "if (c || u) x = 1;",
        "2: LoadGlobal(2) Branch(4, 3) | 1\n3: LoadGlobal(3) Branch(4, 5) | 1\n4: Push(1) StoreGlobal(0) Drop Jump(5) | 1\n5: Push(0) Return |\n",
    ),
    (
        "if (!c) x = 1;",
        "2: LoadGlobal(2) Branch(4, 3) | 1\n3: Push(1) StoreGlobal(0) Drop Jump(4) | 1\n4: Push(0) Return |\n",
    ),
    (
        "if (!(c && !u)) ;",
        "2: LoadGlobal(2) Branch(3, 4) | 1\n3: LoadGlobal(3) Branch(4, 5) | 1\n4: Jump(5) |\n5: Push(0) Return |\n",
    ),
    (
        "if ((c || u) && x) ;",
        "2: LoadGlobal(2) Branch(4, 3) | 1\n3: LoadGlobal(3) Branch(4, 6) | 1\n4: LoadGlobal(0) Branch(5, 6) | 1\n5: Jump(6) |\n6: Push(0) Return |\n",
    ),
    (
        "if (c < x) ;",
        "2: LoadGlobal(2) Convert(Int) LoadGlobal(0) Less(Int, 1) Branch(3, 4) | 1\n3: Jump(4) |\n4: Push(0) Return |\n",
    ),
    (
        "if (x, c) ;",
        "2: LoadGlobal(0) Drop LoadGlobal(2) Branch(3, 4) | 1\n3: Jump(4) |\n4: Push(0) Return |\n",
    ),
    (
        "if (c ? u : x) ;",
        "2: LoadGlobal(2) Branch(3, 4) | 1\n3: LoadGlobal(3) Jump(5) | 1\n4: LoadGlobal(0) Convert(UnsignedInt) Jump(5) | 1\n5: Branch(6, 7) | 1\n6: Jump(7) |\n7: Push(0) Return |\n",
    ),
    (
        "while (f(c) && x) ;",
        "2: Jump(3) | 1\n3: LoadGlobal(2) Convert(Int) Call(0, 1, 4) | 1\n4: Branch(5, 7) | 1\n5: LoadGlobal(0) Branch(6, 7) | 1\n6: Back(3) |\n7: Push(0) Return |\n",
    ),
];

/// Each form of a statement but for jumps.
pub const STATEMENTS: [(&str, &str); 23] = [
    (
        "int i = c;",
        "2: LoadGlobal(2) Convert(Int) StoreLocal(0) Drop Push(0) Return | 1\n",
    ),
    ("int i;", "2: Push(0) Return | 1\n"),
    ("int b[3];", "2: Push(0) Return | 1\n"),
    (
        "int b[3] = {c, 7};",
        "2: Push(0) LoadGlobal(2) Convert(Int) StoreLocalAt(0, 3) Drop Push(1) Push(7) StoreLocalAt(0, 3) Drop Push(2) Push(0) StoreLocalAt(0, 3) Drop Push(0) Return | 1\n",
    ),
    (
        "char b[] = {x};",
        "2: Push(0) LoadGlobal(0) Convert(Char) StoreLocalAt(0, 1) Drop Push(0) Return | 1\n",
    ),
    (";", "2: Push(0) Return | 1\n"),
    (
        "{ x; { } y; }",
        "2: LoadGlobal(0) Drop LoadGlobal(1) Drop Push(0) Return | 1\n",
    ),
    (
        "if (x) c; else u;",
        "2: LoadGlobal(0) Branch(3, 4) | 1\n3: LoadGlobal(2) Drop Jump(5) | 1\n4: LoadGlobal(3) Drop Jump(5) | 1\n5: Push(0) Return |\n",
    ),
    (
        "while (x) c;",
        "2: Jump(3) | 1\n3: LoadGlobal(0) Branch(4, 5) | 1\n4: LoadGlobal(2) Drop Back(3) | 1\n5: Push(0) Return |\n",
    ),
    (
        "do c; while (x);",
        "2: Jump(3) | 1\n3: LoadGlobal(2) Drop Jump(4) | 1\n4: LoadGlobal(0) Branch(5, 6) | 1\n5: Back(3) | 1\n6: Push(0) Return |\n",
    ),
    (
        "for (x = 1; c; u) l;",
        "2: Push(1) StoreGlobal(0) Drop Jump(3) | 1\n3: LoadGlobal(2) Branch(4, 6) | 1\n4: LoadGlobal(4) Drop Jump(5) | 1\n5: LoadGlobal(3) Drop Back(3) | 1\n6: Push(0) Return |\n",
    ),
    (
        "for (int i = 1; c; ) l;",
        "2: Push(1) StoreLocal(0) Drop Jump(3) | 1\n3: LoadGlobal(2) Branch(4, 5) | 1\n4: LoadGlobal(4) Drop Back(3) | 1\n5: Push(0) Return |\n",
    ),
    (
        "for (; ; g()) ;",
        "2: Jump(3) | 1\n3: Jump(4) |\n4: Call(1, 1, 5) | 1\n5: Back(3) | 1\n6: Push(0) Return |\n",
    ),
    (
        "for (; ; ) ;",
        "2: Jump(3) | 1\n3: Back(3) |\n4: Push(0) Return |\n",
    ),
    (
        "switch (c) { case 1: case 2: x; case 300: u; default: ; }",
        "2: LoadGlobal(2) Convert(Int) Switch([(1, 3), (2, 3), (300, 4)], 5) | 1\n3: LoadGlobal(0) Drop Jump(4) | 1\n4: LoadGlobal(3) Drop Jump(5) | 1\n5: Jump(6) |\n6: Push(0) Return |\n",
    ),
    (
        "switch (u) { case -1: x; }",
        "2: LoadGlobal(3) Switch([(4294967295, 3)], 4) | 1\n3: LoadGlobal(0) Drop Jump(4) | 1\n4: Push(0) Return |\n",
    ),
    (
        "switch (x) { case 1: ; case 2: { } }",
        "2: LoadGlobal(0) Switch([(1, 3), (2, 4)], 5) | 1\n3: Jump(4) |\n4: Jump(5) |\n5: Push(0) Return |\n",
    ),
    (
        "switch (l) { case 1: default: ; }",
        "2: LoadGlobal(4) Switch([(1, 3)], 3) | 1\n3: Jump(4) |\n4: Push(0) Return |\n",
    ),
    (
        "switch (x) { }",
        "2: LoadGlobal(0) Switch([], 3) | 1\n3: Push(0) Return |\n",
    ),
    (
        "switch (x) { y; case 1: c; }",
        "2: LoadGlobal(0) Switch([(1, 4)], 5) | 1\n3: LoadGlobal(1) Drop Jump(4) | 1\n4: LoadGlobal(2) Drop Jump(5) | 1\n5: Push(0) Return |\n",
    ),
    ("return c;", "2: LoadGlobal(2) Convert(Int) Return | 1\n"),
    (
        "return 1; return 2;",
        "2: Push(1) Return | 1\n3: Push(2) Return | 1\n",
    ),
    (
        "return 1; x;",
        "2: Push(1) Return | 1\n3: LoadGlobal(0) Drop Push(0) Return | 1\n",
    ),
];

/// `break` and `continue` in each loop and switch, and behind a closed block.
pub const JUMPS: [(&str, &str); 12] = [
    (
        "while (x) break;",
        "2: Jump(3) | 1\n3: LoadGlobal(0) Branch(4, 5) | 1\n4: Jump(5) | 1\n5: Push(0) Return |\n",
    ),
    (
        "while (x) continue;",
        "2: Jump(3) | 1\n3: LoadGlobal(0) Branch(4, 5) | 1\n4: Back(3) | 1\n5: Push(0) Return |\n",
    ),
    (
        "do break; while (x);",
        "2: Jump(3) | 1\n3: Jump(6) | 1\n4: LoadGlobal(0) Branch(5, 6) | 1\n5: Back(3) | 1\n6: Push(0) Return |\n",
    ),
    (
        "do continue; while (x);",
        "2: Jump(3) | 1\n3: Jump(4) | 1\n4: LoadGlobal(0) Branch(5, 6) | 1\n5: Back(3) | 1\n6: Push(0) Return |\n",
    ),
    (
        "for (; x; ) break;",
        "2: Jump(3) | 1\n3: LoadGlobal(0) Branch(4, 5) | 1\n4: Jump(5) | 1\n5: Push(0) Return |\n",
    ),
    (
        "for (; ; x) continue;",
        "2: Jump(3) | 1\n3: Jump(4) | 1\n4: LoadGlobal(0) Drop Back(3) | 1\n5: Push(0) Return |\n",
    ),
    (
        "for (; ; ) continue;",
        "2: Jump(3) | 1\n3: Back(3) | 1\n4: Push(0) Return |\n",
    ),
    (
        "switch (x) { default: break; }",
        "2: LoadGlobal(0) Switch([], 3) | 1\n3: Jump(4) | 1\n4: Push(0) Return |\n",
    ),
    (
        "while (x) switch (y) { case 1: continue; default: break; }",
        "2: Jump(3) | 1\n3: LoadGlobal(0) Branch(4, 8) | 1\n4: LoadGlobal(1) Switch([(1, 5)], 6) | 1\n5: Back(3) | 1\n6: Jump(7) | 1\n7: Back(3) |\n8: Push(0) Return |\n",
    ),
    (
        "while (x) { return 1; break; }",
        "2: Jump(3) | 1\n3: LoadGlobal(0) Branch(4, 5) | 1\n4: Push(1) Return | 1\n5: Push(0) Return |\n",
    ),
    (
        "while (x) { break; continue; }",
        "2: Jump(3) | 1\n3: LoadGlobal(0) Branch(4, 5) | 1\n4: Jump(5) | 1\n5: Push(0) Return |\n",
    ),
    (
        "for (; ; ) { for (; x; ) { break; } break; }",
        "2: Jump(3) | 1\n3: Jump(4) |\n4: LoadGlobal(0) Branch(5, 6) | 1\n5: Jump(6) | 1\n6: Jump(7) | 1\n7: Push(0) Return |\n",
    ),
];
