//! Worked sources with the blocks of their graphs, an empty line between two functions.

pub const GRAPHS: [(&[u8], &str); 11] = [
    (
        b"int main(void) {\nint n = 0;\nwhile (getchar() == 'a')\nn++;\nreturn n;\n}\n",
        "2: Push(0) StoreLocal(0) Drop Jump(3) | 1 2\n3: GetChar Push(97) Equal(Int, 3) Branch(4, 5) | 3\n4: LoadLocal(0) Dup Push(1) Add(Int, 4) StoreLocal(0) Drop Drop Back(3) | 4\n5: LoadLocal(0) Return | 5\n",
    ),
    (
        b"int main(void) {\nint i = 0;\nwhile (i < 10) i++;\nreturn i;\n}\n",
        "2: Push(0) StoreLocal(0) Drop Jump(3) | 1 2\n3: LoadLocal(0) Push(10) Less(Int, 3) Branch(4, 5) | 3\n4: LoadLocal(0) Dup Push(1) Add(Int, 3) StoreLocal(0) Drop Drop Back(3) | 3\n5: LoadLocal(0) Return | 4\n",
    ),
    (
        b"int main(void) {\nint i, s = 0;\nfor (i = 0; i < 3; i++)\ns += i;\nreturn s;\n}\n",
        "2: Push(0) StoreLocal(1) Drop Push(0) StoreLocal(0) Drop Jump(3) | 1 2 3\n3: LoadLocal(0) Push(3) Less(Int, 3) Branch(4, 6) | 3\n4: LoadLocal(1) LoadLocal(0) Add(Int, 4) StoreLocal(1) Drop Jump(5) | 4\n5: LoadLocal(0) Dup Push(1) Add(Int, 3) StoreLocal(0) Drop Drop Back(3) | 3\n6: LoadLocal(1) Return | 5\n",
    ),
    (
        b"int main(void) {\nint c = getchar();\nif (c == 'x') return 1; else return 2;\n}\n",
        "2: GetChar StoreLocal(0) Drop LoadLocal(0) Push(120) Equal(Int, 3) Branch(3, 4) | 1 2 3\n3: Push(1) Return | 3\n4: Push(2) Return | 3\n5: Push(0) Return |\n",
    ),
    (
        b"void g(void) { exit(5); }\nvoid f(void) { g(); }\nint main(void) { f(); }\n",
        "2: Push(5) Exit | 1\n3: Return | 1\n\n2: Call(0, 2, 3) | 2\n3: Return | 2\n\n2: Call(1, 3, 3) | 3\n3: Push(0) Return | 3\n",
    ),
    (
        b"int f(int n) {\nif (n > 0)\nf(n - 1);\nif (n > 0)\nreturn 1;\nreturn 0;\n}\nint main(void) { return f(1); }\n",
        "2: LoadLocal(0) Push(0) Greater(Int, 2) Branch(3, 5) | 1 2\n3: LoadLocal(0) Push(1) Sub(Int, 3) Call(0, 3, 4) | 3\n4: Drop Jump(5) | 3\n5: LoadLocal(0) Push(0) Greater(Int, 4) Branch(6, 7) | 4\n6: Push(1) Return | 5\n7: Push(0) Return | 6\n\n2: Push(1) Call(0, 8, 3) | 8\n3: Return | 8\n",
    ),
    (
        b"int main(void) { int r = 0; if (1) if (0) r = 1; else r = 2; return r; }",
        "2: Push(0) StoreLocal(0) Drop Push(1) Branch(3, 7) | 1\n3: Push(0) Branch(4, 5) | 1\n4: Push(1) StoreLocal(0) Drop Jump(6) | 1\n5: Push(2) StoreLocal(0) Drop Jump(6) | 1\n6: Jump(7) |\n7: LoadLocal(0) Return | 1\n",
    ),
    (
        b"int f(int c) { switch (c) { case 1: case 2: return 7; default: ; } return 0; }\nint main(void) {}",
        "2: LoadLocal(0) Switch([(1, 3), (2, 3)], 4) | 1\n3: Push(7) Return | 1\n4: Jump(5) |\n5: Push(0) Return | 1\n\n2: Push(0) Return | 2\n",
    ),
    (
        b"#include <stdio.h>\n\nint lines, words;\n\nint blank(int c) {\n  switch (c) {\n  case ' ':\n  case '\\n':\n  case '\\t':\n    return 1;\n  default:\n    return 0;\n  }\n}\n\nvoid number(int n) {\n  if (n >= 10)\n    number(n / 10);\n  putchar('0' + n % 10);\n}\n\nint main(void) {\n  int c, inside = 0;\n  while ((c = getchar()) != EOF) {\n    if (c == '\\n')\n      lines++;\n    if (blank(c))\n      inside = 0;\n    else if (!inside) {\n      inside = 1;\n      words++;\n    }\n  }\n  number(lines);\n  putchar(' ');\n  number(words);\n  putchar('\\n');\n  return 0;\n}\n",
        "2: LoadLocal(0) Switch([(32, 3), (10, 3), (9, 3)], 4) | 5 6\n3: Push(1) Return | 10\n4: Push(0) Return | 12\n5: Push(0) Return |\n\n2: LoadLocal(0) Push(10) GreaterEqual(Int, 17) Branch(3, 5) | 16 17\n3: LoadLocal(0) Push(10) Div(Int, 18) Call(1, 18, 4) | 18\n4: Jump(5) | 18\n5: Push(48) LoadLocal(0) Push(10) Rem(Int, 19) Add(Int, 19) PutChar(19) Drop Return | 19\n\n2: Push(0) StoreLocal(1) Drop Jump(3) | 22 23\n3: GetChar StoreLocal(0) Push(-1) NotEqual(Int, 24) Branch(4, 13) | 24\n4: LoadLocal(0) Push(10) Equal(Int, 25) Branch(5, 6) | 25\n5: LoadGlobal(0) Dup Push(1) Add(Int, 26) StoreGlobal(0) Drop Drop Jump(6) | 26\n6: LoadLocal(0) Call(0, 27, 7) | 27\n7: Branch(8, 9) | 27\n8: Push(0) StoreLocal(1) Drop Jump(12) | 28\n9: LoadLocal(1) Branch(11, 10) | 29\n10: Push(1) StoreLocal(1) Drop LoadGlobal(1) Dup Push(1) Add(Int, 31) StoreGlobal(1) Drop Drop Jump(11) | 30 31\n11: Jump(12) |\n12: Back(3) |\n13: LoadGlobal(0) Call(1, 34, 14) | 34\n14: Push(32) PutChar(35) Drop LoadGlobal(1) Call(1, 36, 15) | 34 35 36\n15: Push(10) PutChar(37) Drop Push(0) Return | 36 37 38\n",
    ),
    (
        b"void f(void) { return; }\nint main(void) { f(); while (1)\n;\nreturn\n0; }\n",
        "2: Return | 1\n\n2: Call(0, 2, 3) | 2\n3: Jump(4) | 2\n4: Push(1) Branch(5, 6) | 2\n5: Back(4) |\n6: Push(0) Return | 4 5\n",
    ),
    (
        b"int main(void) {\nint a[1\n+ 1] = {\n7};\nswitch (a[\n0]) {\ncase\n1:\nbreak;\n}\n}\n",
        "2: Push(0) Push(7) StoreLocalAt(0, 2) Drop Push(1) Push(0) StoreLocalAt(0, 2) Drop Push(0) CheckIndex(2, 5) LoadLocalAt(0, 2) Switch([(1, 3)], 4) | 1 2 4 5 6\n3: Jump(4) | 9\n4: Push(0) Return |\n",
    ),
];
