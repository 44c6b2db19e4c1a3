//! Texts with their graphs, one a line: the arcs, but for that from 0 to 2, and the lines of the blocks.

use crate::SourceFault;
use c_lower::LowerFault;
use c_typing::TypeFault;

pub const GRAPHS: [(&[u8], &str); 9] = [
    (
        b"int main(void) {\nint n = 0;\nwhile (getchar() == 'a')\nn++;\nreturn n;\n}\n",
        "2-3 3-4 3-5 4-3 5-1 | 2:1,2 3:3 4:4 5:5\n",
    ),
    (
        b"int main(void) {\nint i = 0;\nwhile (i < 10) i++;\nreturn i;\n}\n",
        "2-3 3-4 3-5 4-3 5-1 | 2:1,2 3:3 4:3 5:4\n",
    ),
    (
        b"int main(void) {\nint i, s = 0;\nfor (i = 0; i < 3; i++)\ns += i;\nreturn s;\n}\n",
        "2-3 3-4 3-6 4-5 5-3 6-1 | 2:1,2,3 3:3 4:4 5:3 6:5\n",
    ),
    (
        b"int main(void) {\nint c = getchar();\nif (c == 'x') return 1; else return 2;\n}\n",
        "2-3 2-4 3-1 4-1 | 2:1,2,3 3:3 4:3\n",
    ),
    (b"int main(void) { for (;;) ; }\n", "2-3 3-3 | 2:1 3:\n"),
    (
        b"void g(void) { exit(5); }\nvoid f(void) { g(); }\nint main(void) { f(); }\n",
        "2-1x | 2:1\n2-1x 2-3 3-1 | 2:2 3:2\n2-1x 2-3 3-1 | 2:3 3:3\n",
    ),
    (
        b"int f(int n) {\nif (n > 0)\nf(n - 1);\nif (n > 0)\nreturn 1;\nreturn 0;\n}\nint main(void) { return f(1); }\n",
        "2-3 2-5 3-1x 3-4 4-5 5-6 5-7 6-1 7-1 | 2:1,2 3:3 4:3 5:4 6:5 7:6\n2-1x 2-3 3-1 | 2:8 3:8\n",
    ),
    (b"int main(void) {}\n", "2-1 | 2:1\n"),
    (
        b"int f0(int n) {\nint s = 0;\nwhile (n > 0) {\nif (n % 2 == 0)\ns = s + n;\nelse\ns = s - 1;\nn = n - 1;\n}\nreturn s;\n}\nint main(void) {\nint t = 0;\nt = t + f0(0);\nreturn 0;\n}\n",
        "2-3 3-4 3-8 4-5 4-6 5-7 6-7 7-3 8-1 | 2:1,2 3:3 4:4 5:5 6:7 7:8 8:10\n2-1x 2-3 3-1 | 2:12,13,14 3:14,15\n",
    ),
];

pub const FAULTS: [(&[u8], SourceFault); 6] = [
    (b"", SourceFault::Types(TypeFault::NoMain(0))),
    (
        b"int main(void) { switch (1) { case 1: case 1: ; } }",
        SourceFault::Types(TypeFault::TwiceCase(38)),
    ),
    (
        b"int main(void) { return x; }",
        SourceFault::Types(TypeFault::Unknown(24)),
    ),
    (
        b"int main(void) { break; }",
        SourceFault::Types(TypeFault::OutsideLoop(17)),
    ),
    (
        b"int a[0]; int main(void) {}",
        SourceFault::Types(TypeFault::ArraySize(4)),
    ),
    (
        b"int main(void) { int a[5000]; }",
        SourceFault::Lower(LowerFault::FrameTooLarge(0, 5000)),
    ),
];
