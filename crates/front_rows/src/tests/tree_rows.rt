//! Texts with the short forms of their trees. Printed by scripts/tree_rows.py.

pub const SOURCE_TREES: [(&[u8], &str); 5] = [
    (b"", "Tree { outers: [], end: 0"),
    (b" /* nothing */ \n", "Tree { outers: [], end: 0"),
    (
        b"int main(void) { int r = 0; if (1) if (0) r = 1; else r = 2; return r; }",
        "Tree { outers: [Function(Head { base: Int(Int), name: [109, 97, 105, 110], params: []@4:1, [Vars([Var { base: Int(Int), name: [114], size: Scalar, init: One(Number(0, Int)@25:1)@21:1]), If(Number(1, Int)@32:1, If(Number(0, Int)@39:1, Value(Assign(None, Name([114])@42:1, Number(1, Int)@46:1)@44:1), Some(Value(Assign(None, Name([114])@54:1, Number(2, Int)@58:1)@56:1))), None), Return(Some(Name([114])@68:1), 61, 1)])], end: 72",
    ),
    (
        b"#include <stdio.h>\n\nint lines, words;\n\nint blank(int c) {\n  switch (c) {\n  case ' ':\n  case '\\n':\n  case '\\t':\n    return 1;\n  default:\n    return 0;\n  }\n}\n\nvoid number(int n) {\n  if (n >= 10)\n    number(n / 10);\n  putchar('0' + n % 10);\n}\n\nint main(void) {\n  int c, inside = 0;\n  while ((c = getchar()) != EOF) {\n    if (c == '\\n')\n      lines++;\n    if (blank(c))\n      inside = 0;\n    else if (!inside) {\n      inside = 1;\n      words++;\n    }\n  }\n  number(lines);\n  putchar(' ');\n  number(words);\n  putchar('\\n');\n  return 0;\n}\n",
        "Tree { outers: [Vars([Var { base: Int(Int), name: [108, 105, 110, 101, 115], size: Scalar, init: Absent@24:3, Var { base: Int(Int), name: [119, 111, 114, 100, 115], size: Scalar, init: Absent@31:3]), Function(Head { base: Int(Int), name: [98, 108, 97, 110, 107], params: [Param { base: Int(Int), name: Some([99])@53]@43:5, [Switch(Name([99])@68:6, [Case(Number(32, Int)@80:7, 75), Case(Number(10, Int)@92:8, 87), Case(Number(9, Int)@105:9, 100), Item(Return(Some(Number(1, Int)@122:10), 115, 10)), Default(127), Item(Return(Some(Number(0, Int)@147:12), 140, 12))])]), Function(Head { base: Void, name: [110, 117, 109, 98, 101, 114], params: [Param { base: Int(Int), name: Some([110])@173]@162:16, [If(Binary(GreaterEqual, Name([110])@184:17, Number(10, Int)@189:17)@186:17, Value(Call([110, 117, 109, 98, 101, 114], [Binary(Div, Name([110])@204:18, Number(10, Int)@208:18)@206:18])@197:18), None), Value(Call([112, 117, 116, 99, 104, 97, 114], [Binary(Add, Number(48, Int)@223:19, Binary(Rem, Name([110])@229:19, Number(10, Int)@233:19)@231:19)@227:19])@215:19)]), Function(Head { base: Int(Int), name: [109, 97, 105, 110], params: []@245:22, [Vars([Var { base: Int(Int), name: [99], size: Scalar, init: Absent@264:23, Var { base: Int(Int), name: [105, 110, 115, 105, 100, 101], size: Scalar, init: One(Number(0, Int)@276:23)@267:23]), While(Binary(NotEqual, Paren(Assign(None, Name([99])@289:24, Call([103, 101, 116, 99, 104, 97, 114], [])@293:24)@291:24)@288:24, EofName@307:24)@304:24, Block([If(Binary(Equal, Name([99])@322:25, Number(10, Int)@327:25)@324:25, Value(After(Add, Name([108, 105, 110, 101, 115])@339:26)@344:26), None), If(Call([98, 108, 97, 110, 107], [Name([99])@362:27])@356:27, Value(Assign(None, Name([105, 110, 115, 105, 100, 101])@372:28, Number(0, Int)@381:28)@379:28), Some(If(Not(Name([105, 110, 115, 105, 100, 101])@398:29)@397:29, Block([Value(Assign(None, Name([105, 110, 115, 105, 100, 101])@414:30, Number(1, Int)@423:30)@421:30), Value(After(Add, Name([119, 111, 114, 100, 115])@432:31)@437:31)]), None)))])), Value(Call([110, 117, 109, 98, 101, 114], [Name([108, 105, 110, 101, 115])@460:34])@453:34), Value(Call([112, 117, 116, 99, 104, 97, 114], [Number(32, Int)@478:35])@470:35), Value(Call([110, 117, 109, 98, 101, 114], [Name([119, 111, 114, 100, 115])@493:36])@486:36), Value(Call([112, 117, 116, 99, 104, 97, 114], [Number(10, Int)@511:37])@503:37), Return(Some(Number(0, Int)@527:38), 520, 38)])], end: 531",
    ),
    (
        b"int f0(int n) {\nint s = 0;\nwhile (n > 0) {\nif (n % 2 == 0)\ns = s + n;\nelse\ns = s - 1;\nn = n - 1;\n}\nreturn s;\n}\nint f1(int n) {\nint s = 1;\nwhile (n > 0) {\nif (n % 2 == 0)\ns = s + n;\nelse\ns = s - 1;\nn = n - 1;\n}\nreturn s;\n}\nint main(void) {\nint t = 0;\nt = t + f0(0);\nt = t + f1(1);\nreturn 0;\n}\n",
        "Tree { outers: [Function(Head { base: Int(Int), name: [102, 48], params: [Param { base: Int(Int), name: Some([110])@11]@4:1, [Vars([Var { base: Int(Int), name: [115], size: Scalar, init: One(Number(0, Int)@24:2)@20:2]), While(Binary(Greater, Name([110])@34:3, Number(0, Int)@38:3)@36:3, Block([If(Binary(Equal, Binary(Rem, Name([110])@47:4, Number(2, Int)@51:4)@49:4, Number(0, Int)@56:4)@53:4, Value(Assign(None, Name([115])@59:5, Binary(Add, Name([115])@63:5, Name([110])@67:5)@65:5)@61:5), Some(Value(Assign(None, Name([115])@75:7, Binary(Sub, Name([115])@79:7, Number(1, Int)@83:7)@81:7)@77:7))), Value(Assign(None, Name([110])@86:8, Binary(Sub, Name([110])@90:8, Number(1, Int)@94:8)@92:8)@88:8)])), Return(Some(Name([115])@106:10), 99, 10)]), Function(Head { base: Int(Int), name: [102, 49], params: [Param { base: Int(Int), name: Some([110])@122]@115:12, [Vars([Var { base: Int(Int), name: [115], size: Scalar, init: One(Number(1, Int)@135:13)@131:13]), While(Binary(Greater, Name([110])@145:14, Number(0, Int)@149:14)@147:14, Block([If(Binary(Equal, Binary(Rem, Name([110])@158:15, Number(2, Int)@162:15)@160:15, Number(0, Int)@167:15)@164:15, Value(Assign(None, Name([115])@170:16, Binary(Add, Name([115])@174:16, Name([110])@178:16)@176:16)@172:16), Some(Value(Assign(None, Name([115])@186:18, Binary(Sub, Name([115])@190:18, Number(1, Int)@194:18)@192:18)@188:18))), Value(Assign(None, Name([110])@197:19, Binary(Sub, Name([110])@201:19, Number(1, Int)@205:19)@203:19)@199:19)])), Return(Some(Name([115])@217:21), 210, 21)]), Function(Head { base: Int(Int), name: [109, 97, 105, 110], params: []@226:23, [Vars([Var { base: Int(Int), name: [116], size: Scalar, init: One(Number(0, Int)@247:24)@243:24]), Value(Assign(None, Name([116])@250:25, Binary(Add, Name([116])@254:25, Call([102, 48], [Number(0, Int)@261:25])@258:25)@256:25)@252:25), Value(Assign(None, Name([116])@265:26, Binary(Add, Name([116])@269:26, Call([102, 49], [Number(1, Int)@276:26])@273:26)@271:26)@267:26), Return(Some(Number(0, Int)@287:27), 280, 27)])], end: 291",
    ),
];

pub const OPERATOR_TREES: [(&[u8], &str); 16] = [
    (
        b"int x=1-2-3;",
        "Tree { outers: [Vars([Var { base: Int(Int), name: [120], size: Scalar, init: One(Binary(Sub, Binary(Sub, Number(1, Int)@6:1, Number(2, Int)@8:1)@7:1, Number(3, Int)@10:1)@9:1)@4:1])], end: 12",
    ),
    (
        b"int x=1-2*3+4;",
        "Tree { outers: [Vars([Var { base: Int(Int), name: [120], size: Scalar, init: One(Binary(Add, Binary(Sub, Number(1, Int)@6:1, Binary(Mul, Number(2, Int)@8:1, Number(3, Int)@10:1)@9:1)@7:1, Number(4, Int)@12:1)@11:1)@4:1])], end: 14",
    ),
    (
        b"int x=1<<2+3<4==5&6^7|8&&9||0;",
        "Tree { outers: [Vars([Var { base: Int(Int), name: [120], size: Scalar, init: One(OrElse(AndAlso(Binary(Or, Binary(Xor, Binary(And, Binary(Equal, Binary(Less, Binary(Shl, Number(1, Int)@6:1, Binary(Add, Number(2, Int)@9:1, Number(3, Int)@11:1)@10:1)@7:1, Number(4, Int)@13:1)@12:1, Number(5, Int)@16:1)@14:1, Number(6, Int)@18:1)@17:1, Number(7, Int)@20:1)@19:1, Number(8, Int)@22:1)@21:1, Number(9, Int)@25:1)@23:1, Number(0, Int)@28:1)@26:1)@4:1])], end: 30",
    ),
    (
        b"int x=1||2&&3|4^5&6==7<8<<9+1*2;",
        "Tree { outers: [Vars([Var { base: Int(Int), name: [120], size: Scalar, init: One(OrElse(Number(1, Int)@6:1, AndAlso(Number(2, Int)@9:1, Binary(Or, Number(3, Int)@12:1, Binary(Xor, Number(4, Int)@14:1, Binary(And, Number(5, Int)@16:1, Binary(Equal, Number(6, Int)@18:1, Binary(Less, Number(7, Int)@21:1, Binary(Shl, Number(8, Int)@23:1, Binary(Add, Number(9, Int)@26:1, Binary(Mul, Number(1, Int)@28:1, Number(2, Int)@30:1)@29:1)@27:1)@24:1)@22:1)@19:1)@17:1)@15:1)@13:1)@10:1)@7:1)@4:1])], end: 32",
    ),
    (
        b"int x=8/4%3*2;",
        "Tree { outers: [Vars([Var { base: Int(Int), name: [120], size: Scalar, init: One(Binary(Mul, Binary(Rem, Binary(Div, Number(8, Int)@6:1, Number(4, Int)@8:1)@7:1, Number(3, Int)@10:1)@9:1, Number(2, Int)@12:1)@11:1)@4:1])], end: 14",
    ),
    (
        b"int x=1>2<3>=4<=5;",
        "Tree { outers: [Vars([Var { base: Int(Int), name: [120], size: Scalar, init: One(Binary(LessEqual, Binary(GreaterEqual, Binary(Less, Binary(Greater, Number(1, Int)@6:1, Number(2, Int)@8:1)@7:1, Number(3, Int)@10:1)@9:1, Number(4, Int)@13:1)@11:1, Number(5, Int)@16:1)@14:1)@4:1])], end: 18",
    ),
    (
        b"int x=1!=2==3;",
        "Tree { outers: [Vars([Var { base: Int(Int), name: [120], size: Scalar, init: One(Binary(Equal, Binary(NotEqual, Number(1, Int)@6:1, Number(2, Int)@9:1)@7:1, Number(3, Int)@12:1)@10:1)@4:1])], end: 14",
    ),
    (
        b"int x=1>>2<<3;",
        "Tree { outers: [Vars([Var { base: Int(Int), name: [120], size: Scalar, init: One(Binary(Shl, Binary(Shr, Number(1, Int)@6:1, Number(2, Int)@9:1)@7:1, Number(3, Int)@12:1)@10:1)@4:1])], end: 14",
    ),
    (
        b"int x=-1-+2*~3/!4;",
        "Tree { outers: [Vars([Var { base: Int(Int), name: [120], size: Scalar, init: One(Binary(Sub, Minus(Number(1, Int)@7:1)@6:1, Binary(Div, Binary(Mul, Plus(Number(2, Int)@10:1)@9:1, Complement(Number(3, Int)@13:1)@12:1)@11:1, Not(Number(4, Int)@16:1)@15:1)@14:1)@8:1)@4:1])], end: 18",
    ),
    (
        b"int x=- -1;",
        "Tree { outers: [Vars([Var { base: Int(Int), name: [120], size: Scalar, init: One(Minus(Minus(Number(1, Int)@9:1)@8:1)@6:1)@4:1])], end: 11",
    ),
    (
        b"int x=!!a;",
        "Tree { outers: [Vars([Var { base: Int(Int), name: [120], size: Scalar, init: One(Not(Not(Name([97])@8:1)@7:1)@6:1)@4:1])], end: 10",
    ),
    (
        b"int x=(1+2)*3;",
        "Tree { outers: [Vars([Var { base: Int(Int), name: [120], size: Scalar, init: One(Binary(Mul, Paren(Binary(Add, Number(1, Int)@7:1, Number(2, Int)@9:1)@8:1)@6:1, Number(3, Int)@12:1)@11:1)@4:1])], end: 14",
    ),
    (
        b"int x=((1));",
        "Tree { outers: [Vars([Var { base: Int(Int), name: [120], size: Scalar, init: One(Paren(Paren(Number(1, Int)@8:1)@7:1)@6:1)@4:1])], end: 12",
    ),
    (
        b"int x=a&&b||c&&d;",
        "Tree { outers: [Vars([Var { base: Int(Int), name: [120], size: Scalar, init: One(OrElse(AndAlso(Name([97])@6:1, Name([98])@9:1)@7:1, AndAlso(Name([99])@12:1, Name([100])@15:1)@13:1)@10:1)@4:1])], end: 17",
    ),
    (
        b"int x=a+++++b;",
        "Tree { outers: [Vars([Var { base: Int(Int), name: [120], size: Scalar, init: One(Binary(Add, After(Add, After(Add, Name([97])@6:1)@7:1)@9:1, Name([98])@12:1)@11:1)@4:1])], end: 14",
    ),
    (
        b"int x=a---b;",
        "Tree { outers: [Vars([Var { base: Int(Int), name: [120], size: Scalar, init: One(Binary(Sub, After(Sub, Name([97])@6:1)@7:1, Name([98])@10:1)@9:1)@4:1])], end: 12",
    ),
];

pub const CHOICE_TREES: [(&[u8], &str); 5] = [
    (
        b"int x=a?b:c?d:e;",
        "Tree { outers: [Vars([Var { base: Int(Int), name: [120], size: Scalar, init: One(Choose(Name([97])@6:1, Name([98])@8:1, Choose(Name([99])@10:1, Name([100])@12:1, Name([101])@14:1)@11:1)@7:1)@4:1])], end: 16",
    ),
    (
        b"int x=a?b?c:d:e;",
        "Tree { outers: [Vars([Var { base: Int(Int), name: [120], size: Scalar, init: One(Choose(Name([97])@6:1, Choose(Name([98])@8:1, Name([99])@10:1, Name([100])@12:1)@9:1, Name([101])@14:1)@7:1)@4:1])], end: 16",
    ),
    (
        b"int x=a?(b,c):d;",
        "Tree { outers: [Vars([Var { base: Int(Int), name: [120], size: Scalar, init: One(Choose(Name([97])@6:1, Paren(Comma(Name([98])@9:1, Name([99])@11:1)@10:1)@8:1, Name([100])@14:1)@7:1)@4:1])], end: 16",
    ),
    (
        b"int x=a?b,c:d;",
        "Tree { outers: [Vars([Var { base: Int(Int), name: [120], size: Scalar, init: One(Choose(Name([97])@6:1, Comma(Name([98])@8:1, Name([99])@10:1)@9:1, Name([100])@12:1)@7:1)@4:1])], end: 14",
    ),
    (
        b"int x=a||b?c=d:e;",
        "Tree { outers: [Vars([Var { base: Int(Int), name: [120], size: Scalar, init: One(Choose(OrElse(Name([97])@6:1, Name([98])@9:1)@7:1, Assign(None, Name([99])@11:1, Name([100])@13:1)@12:1, Name([101])@15:1)@10:1)@4:1])], end: 17",
    ),
];

pub const ASSIGNMENT_TREES: [(&[u8], &str); 16] = [
    (
        b"int x=a=b=c;",
        "Tree { outers: [Vars([Var { base: Int(Int), name: [120], size: Scalar, init: One(Assign(None, Name([97])@6:1, Assign(None, Name([98])@8:1, Name([99])@10:1)@9:1)@7:1)@4:1])], end: 12",
    ),
    (
        b"int x=a+=b-=c*=d;",
        "Tree { outers: [Vars([Var { base: Int(Int), name: [120], size: Scalar, init: One(Assign(Some(Add), Name([97])@6:1, Assign(Some(Sub), Name([98])@9:1, Assign(Some(Mul), Name([99])@12:1, Name([100])@15:1)@13:1)@10:1)@7:1)@4:1])], end: 17",
    ),
    (
        b"int x=a/=1;",
        "Tree { outers: [Vars([Var { base: Int(Int), name: [120], size: Scalar, init: One(Assign(Some(Div), Name([97])@6:1, Number(1, Int)@9:1)@7:1)@4:1])], end: 11",
    ),
    (
        b"int x=a%=1;",
        "Tree { outers: [Vars([Var { base: Int(Int), name: [120], size: Scalar, init: One(Assign(Some(Rem), Name([97])@6:1, Number(1, Int)@9:1)@7:1)@4:1])], end: 11",
    ),
    (
        b"int x=a&=1;",
        "Tree { outers: [Vars([Var { base: Int(Int), name: [120], size: Scalar, init: One(Assign(Some(And), Name([97])@6:1, Number(1, Int)@9:1)@7:1)@4:1])], end: 11",
    ),
    (
        b"int x=a^=b|=c;",
        "Tree { outers: [Vars([Var { base: Int(Int), name: [120], size: Scalar, init: One(Assign(Some(Xor), Name([97])@6:1, Assign(Some(Or), Name([98])@9:1, Name([99])@12:1)@10:1)@7:1)@4:1])], end: 14",
    ),
    (
        b"int x=a<<=1;",
        "Tree { outers: [Vars([Var { base: Int(Int), name: [120], size: Scalar, init: One(Assign(Some(Shl), Name([97])@6:1, Number(1, Int)@10:1)@7:1)@4:1])], end: 12",
    ),
    (
        b"int x=a>>=1;",
        "Tree { outers: [Vars([Var { base: Int(Int), name: [120], size: Scalar, init: One(Assign(Some(Shr), Name([97])@6:1, Number(1, Int)@10:1)@7:1)@4:1])], end: 12",
    ),
    (
        b"int x=(a)=1;",
        "Tree { outers: [Vars([Var { base: Int(Int), name: [120], size: Scalar, init: One(Assign(None, Paren(Name([97])@7:1)@6:1, Number(1, Int)@10:1)@9:1)@4:1])], end: 12",
    ),
    (
        b"int x=a[1]=2;",
        "Tree { outers: [Vars([Var { base: Int(Int), name: [120], size: Scalar, init: One(Assign(None, Index([97], 6, 1, Number(1, Int)@8:1)@7:1, Number(2, Int)@11:1)@10:1)@4:1])], end: 13",
    ),
    (
        b"int x=f()=1;",
        "Tree { outers: [Vars([Var { base: Int(Int), name: [120], size: Scalar, init: One(Assign(None, Call([102], [])@6:1, Number(1, Int)@10:1)@9:1)@4:1])], end: 12",
    ),
    (
        b"int x=++a=1;",
        "Tree { outers: [Vars([Var { base: Int(Int), name: [120], size: Scalar, init: One(Assign(None, Before(Add, Name([97])@8:1)@6:1, Number(1, Int)@10:1)@9:1)@4:1])], end: 12",
    ),
    (
        b"int x=a++=1;",
        "Tree { outers: [Vars([Var { base: Int(Int), name: [120], size: Scalar, init: One(Assign(None, After(Add, Name([97])@6:1)@7:1, Number(1, Int)@10:1)@9:1)@4:1])], end: 12",
    ),
    (
        b"int x=1=2;",
        "Tree { outers: [Vars([Var { base: Int(Int), name: [120], size: Scalar, init: One(Assign(None, Number(1, Int)@6:1, Number(2, Int)@8:1)@7:1)@4:1])], end: 10",
    ),
    (
        b"int x=-a=1;",
        "Tree { outers: [Vars([Var { base: Int(Int), name: [120], size: Scalar, init: One(Assign(None, Minus(Name([97])@7:1)@6:1, Number(1, Int)@9:1)@8:1)@4:1])], end: 11",
    ),
    (
        b"int x=EOF=1;",
        "Tree { outers: [Vars([Var { base: Int(Int), name: [120], size: Scalar, init: One(Assign(None, EofName@6:1, Number(1, Int)@10:1)@9:1)@4:1])], end: 12",
    ),
];

pub const CAST_TREES: [(&[u8], &str); 9] = [
    (
        b"int x=(int)a;",
        "Tree { outers: [Vars([Var { base: Int(Int), name: [120], size: Scalar, init: One(Cast(Int(Int), Name([97])@11:1)@6:1)@4:1])], end: 13",
    ),
    (
        b"int x=(int)-a;",
        "Tree { outers: [Vars([Var { base: Int(Int), name: [120], size: Scalar, init: One(Cast(Int(Int), Minus(Name([97])@12:1)@11:1)@6:1)@4:1])], end: 14",
    ),
    (
        b"int x=-(int)a;",
        "Tree { outers: [Vars([Var { base: Int(Int), name: [120], size: Scalar, init: One(Minus(Cast(Int(Int), Name([97])@12:1)@7:1)@6:1)@4:1])], end: 14",
    ),
    (
        b"int x=(unsigned char)(long)a;",
        "Tree { outers: [Vars([Var { base: Int(Int), name: [120], size: Scalar, init: One(Cast(Int(UnsignedChar), Cast(Int(Long), Name([97])@27:1)@21:1)@6:1)@4:1])], end: 29",
    ),
    (
        b"int x=(int)a+b;",
        "Tree { outers: [Vars([Var { base: Int(Int), name: [120], size: Scalar, init: One(Binary(Add, Cast(Int(Int), Name([97])@11:1)@6:1, Name([98])@13:1)@12:1)@4:1])], end: 15",
    ),
    (
        b"int x=(int)(a+b);",
        "Tree { outers: [Vars([Var { base: Int(Int), name: [120], size: Scalar, init: One(Cast(Int(Int), Paren(Binary(Add, Name([97])@12:1, Name([98])@14:1)@13:1)@11:1)@6:1)@4:1])], end: 17",
    ),
    (
        b"int x=(long unsigned int)1;",
        "Tree { outers: [Vars([Var { base: Int(Int), name: [120], size: Scalar, init: One(Cast(Int(UnsignedLong), Number(1, Int)@25:1)@6:1)@4:1])], end: 27",
    ),
    (
        b"int x=(void)0;",
        "Tree { outers: [Vars([Var { base: Int(Int), name: [120], size: Scalar, init: One(Cast(Void, Number(0, Int)@12:1)@6:1)@4:1])], end: 14",
    ),
    (
        b"int x=(a)+b;",
        "Tree { outers: [Vars([Var { base: Int(Int), name: [120], size: Scalar, init: One(Binary(Add, Paren(Name([97])@7:1)@6:1, Name([98])@10:1)@9:1)@4:1])], end: 12",
    ),
];

pub const POSTFIX_TREES: [(&[u8], &str); 17] = [
    (
        b"int x=++a;",
        "Tree { outers: [Vars([Var { base: Int(Int), name: [120], size: Scalar, init: One(Before(Add, Name([97])@8:1)@6:1)@4:1])], end: 10",
    ),
    (
        b"int x=--a;",
        "Tree { outers: [Vars([Var { base: Int(Int), name: [120], size: Scalar, init: One(Before(Sub, Name([97])@8:1)@6:1)@4:1])], end: 10",
    ),
    (
        b"int x=a++;",
        "Tree { outers: [Vars([Var { base: Int(Int), name: [120], size: Scalar, init: One(After(Add, Name([97])@6:1)@7:1)@4:1])], end: 10",
    ),
    (
        b"int x=a--;",
        "Tree { outers: [Vars([Var { base: Int(Int), name: [120], size: Scalar, init: One(After(Sub, Name([97])@6:1)@7:1)@4:1])], end: 10",
    ),
    (
        b"int x=++--a;",
        "Tree { outers: [Vars([Var { base: Int(Int), name: [120], size: Scalar, init: One(Before(Add, Before(Sub, Name([97])@10:1)@8:1)@6:1)@4:1])], end: 12",
    ),
    (
        b"int x=a++--;",
        "Tree { outers: [Vars([Var { base: Int(Int), name: [120], size: Scalar, init: One(After(Sub, After(Add, Name([97])@6:1)@7:1)@9:1)@4:1])], end: 12",
    ),
    (
        b"int x=-a++;",
        "Tree { outers: [Vars([Var { base: Int(Int), name: [120], size: Scalar, init: One(Minus(After(Add, Name([97])@7:1)@8:1)@6:1)@4:1])], end: 11",
    ),
    (
        b"int x=!++a;",
        "Tree { outers: [Vars([Var { base: Int(Int), name: [120], size: Scalar, init: One(Not(Before(Add, Name([97])@9:1)@7:1)@6:1)@4:1])], end: 11",
    ),
    (
        b"int x=++a++;",
        "Tree { outers: [Vars([Var { base: Int(Int), name: [120], size: Scalar, init: One(Before(Add, After(Add, Name([97])@8:1)@9:1)@6:1)@4:1])], end: 12",
    ),
    (
        b"int x=a[b[1]];",
        "Tree { outers: [Vars([Var { base: Int(Int), name: [120], size: Scalar, init: One(Index([97], 6, 1, Index([98], 8, 1, Number(1, Int)@10:1)@9:1)@7:1)@4:1])], end: 14",
    ),
    (
        b"int x=a[1,2]++;",
        "Tree { outers: [Vars([Var { base: Int(Int), name: [120], size: Scalar, init: One(After(Add, Index([97], 6, 1, Comma(Number(1, Int)@8:1, Number(2, Int)@10:1)@9:1)@7:1)@12:1)@4:1])], end: 15",
    ),
    (
        b"int x=f();",
        "Tree { outers: [Vars([Var { base: Int(Int), name: [120], size: Scalar, init: One(Call([102], [])@6:1)@4:1])], end: 10",
    ),
    (
        b"int x=f(1);",
        "Tree { outers: [Vars([Var { base: Int(Int), name: [120], size: Scalar, init: One(Call([102], [Number(1, Int)@8:1])@6:1)@4:1])], end: 11",
    ),
    (
        b"int x=f(a,b=2,(3,4));",
        "Tree { outers: [Vars([Var { base: Int(Int), name: [120], size: Scalar, init: One(Call([102], [Name([97])@8:1, Assign(None, Name([98])@10:1, Number(2, Int)@12:1)@11:1, Paren(Comma(Number(3, Int)@15:1, Number(4, Int)@17:1)@16:1)@14:1])@6:1)@4:1])], end: 21",
    ),
    (
        b"int x=f(g(1),h(2))++;",
        "Tree { outers: [Vars([Var { base: Int(Int), name: [120], size: Scalar, init: One(After(Add, Call([102], [Call([103], [Number(1, Int)@10:1])@8:1, Call([104], [Number(2, Int)@15:1])@13:1])@6:1)@18:1)@4:1])], end: 21",
    ),
    (
        b"int x=f(1)+f(2);",
        "Tree { outers: [Vars([Var { base: Int(Int), name: [120], size: Scalar, init: One(Binary(Add, Call([102], [Number(1, Int)@8:1])@6:1, Call([102], [Number(2, Int)@13:1])@11:1)@10:1)@4:1])], end: 16",
    ),
    (
        b"int x=-f(-1);",
        "Tree { outers: [Vars([Var { base: Int(Int), name: [120], size: Scalar, init: One(Minus(Call([102], [Minus(Number(1, Int)@10:1)@9:1])@7:1)@6:1)@4:1])], end: 13",
    ),
];

pub const CONSTANT_TREES: [(&[u8], &str); 14] = [
    (
        b"int x=0;",
        "Tree { outers: [Vars([Var { base: Int(Int), name: [120], size: Scalar, init: One(Number(0, Int)@6:1)@4:1])], end: 8",
    ),
    (
        b"int x=017;",
        "Tree { outers: [Vars([Var { base: Int(Int), name: [120], size: Scalar, init: One(Number(15, Int)@6:1)@4:1])], end: 10",
    ),
    (
        b"int x=0xFf;",
        "Tree { outers: [Vars([Var { base: Int(Int), name: [120], size: Scalar, init: One(Number(255, Int)@6:1)@4:1])], end: 11",
    ),
    (
        b"int x=1uL;",
        "Tree { outers: [Vars([Var { base: Int(Int), name: [120], size: Scalar, init: One(Number(1, UnsignedLong)@6:1)@4:1])], end: 10",
    ),
    (
        b"int x=1Lu;",
        "Tree { outers: [Vars([Var { base: Int(Int), name: [120], size: Scalar, init: One(Number(1, UnsignedLong)@6:1)@4:1])], end: 10",
    ),
    (
        b"int x=2147483648;",
        "Tree { outers: [Vars([Var { base: Int(Int), name: [120], size: Scalar, init: One(Number(2147483648, Long)@6:1)@4:1])], end: 17",
    ),
    (
        b"int x=0x80000000;",
        "Tree { outers: [Vars([Var { base: Int(Int), name: [120], size: Scalar, init: One(Number(2147483648, UnsignedInt)@6:1)@4:1])], end: 17",
    ),
    (
        b"int x=18446744073709551615u;",
        "Tree { outers: [Vars([Var { base: Int(Int), name: [120], size: Scalar, init: One(Number(18446744073709551615, UnsignedLong)@6:1)@4:1])], end: 28",
    ),
    (
        b"int x='a';",
        "Tree { outers: [Vars([Var { base: Int(Int), name: [120], size: Scalar, init: One(Number(97, Int)@6:1)@4:1])], end: 10",
    ),
    (
        b"int x='\\n';",
        "Tree { outers: [Vars([Var { base: Int(Int), name: [120], size: Scalar, init: One(Number(10, Int)@6:1)@4:1])], end: 11",
    ),
    (
        b"int x='\\377';",
        "Tree { outers: [Vars([Var { base: Int(Int), name: [120], size: Scalar, init: One(Number(-1, Int)@6:1)@4:1])], end: 13",
    ),
    (
        b"int x='\\x41';",
        "Tree { outers: [Vars([Var { base: Int(Int), name: [120], size: Scalar, init: One(Number(65, Int)@6:1)@4:1])], end: 13",
    ),
    (
        b"int x=EOF;",
        "Tree { outers: [Vars([Var { base: Int(Int), name: [120], size: Scalar, init: One(EofName@6:1)@4:1])], end: 10",
    ),
    (
        b"int x=x;",
        "Tree { outers: [Vars([Var { base: Int(Int), name: [120], size: Scalar, init: One(Name([120])@6:1)@4:1])], end: 8",
    ),
];

pub const DECLARATION_TREES: [(&[u8], &str); 10] = [
    (
        b"int x;",
        "Tree { outers: [Vars([Var { base: Int(Int), name: [120], size: Scalar, init: Absent@4:1])], end: 6",
    ),
    (
        b"int x,y=1,z[2];",
        "Tree { outers: [Vars([Var { base: Int(Int), name: [120], size: Scalar, init: Absent@4:1, Var { base: Int(Int), name: [121], size: Scalar, init: One(Number(1, Int)@8:1)@6:1, Var { base: Int(Int), name: [122], size: Len(Number(2, Int)@12:1), init: Absent@10:1])], end: 15",
    ),
    (
        b"unsigned long long_name;",
        "Tree { outers: [Vars([Var { base: Int(UnsignedLong), name: [108, 111, 110, 103, 95, 110, 97, 109, 101], size: Scalar, init: Absent@14:1])], end: 24",
    ),
    (
        b"char a[]={1,2,};",
        "Tree { outers: [Vars([Var { base: Int(Char), name: [97], size: Unsized, init: List([Number(1, Int)@10:1, Number(2, Int)@12:1])@5:1])], end: 16",
    ),
    (
        b"char a[1?2:3]={1};",
        "Tree { outers: [Vars([Var { base: Int(Char), name: [97], size: Len(Choose(Number(1, Int)@7:1, Number(2, Int)@9:1, Number(3, Int)@11:1)@8:1), init: List([Number(1, Int)@15:1])@5:1])], end: 18",
    ),
    (
        b"int a[1],b=f(1,2),c[2]={3,4};",
        "Tree { outers: [Vars([Var { base: Int(Int), name: [97], size: Len(Number(1, Int)@6:1), init: Absent@4:1, Var { base: Int(Int), name: [98], size: Scalar, init: One(Call([102], [Number(1, Int)@13:1, Number(2, Int)@15:1])@11:1)@9:1, Var { base: Int(Int), name: [99], size: Len(Number(2, Int)@20:1), init: List([Number(3, Int)@24:1, Number(4, Int)@26:1])@18:1])], end: 29",
    ),
    (
        b"short a; long b; _Bool c; signed d; void e;",
        "Tree { outers: [Vars([Var { base: Int(Short), name: [97], size: Scalar, init: Absent@6:1]), Vars([Var { base: Int(Long), name: [98], size: Scalar, init: Absent@14:1]), Vars([Var { base: Int(Bool), name: [99], size: Scalar, init: Absent@23:1]), Vars([Var { base: Int(Int), name: [100], size: Scalar, init: Absent@33:1]), Vars([Var { base: Void, name: [101], size: Scalar, init: Absent@41:1])], end: 43",
    ),
    (
        b"int long unsigned a;",
        "Tree { outers: [Vars([Var { base: Int(UnsignedLong), name: [97], size: Scalar, init: Absent@18:1])], end: 20",
    ),
    (
        b"unsigned a=(1,2);",
        "Tree { outers: [Vars([Var { base: Int(UnsignedInt), name: [97], size: Scalar, init: One(Paren(Comma(Number(1, Int)@12:1, Number(2, Int)@14:1)@13:1)@11:1)@9:1])], end: 17",
    ),
    (
        b"int a[1];",
        "Tree { outers: [Vars([Var { base: Int(Int), name: [97], size: Len(Number(1, Int)@6:1), init: Absent@4:1])], end: 9",
    ),
];

pub const FUNCTION_TREES: [(&[u8], &str); 8] = [
    (
        b"int f();",
        "Tree { outers: [Prototype(Head { base: Int(Int), name: [102], params: []@4:1)], end: 8",
    ),
    (
        b"int f(void);",
        "Tree { outers: [Prototype(Head { base: Int(Int), name: [102], params: []@4:1)], end: 12",
    ),
    (
        b"void f(int,char c);",
        "Tree { outers: [Prototype(Head { base: Void, name: [102], params: [Param { base: Int(Int), name: None@7, Param { base: Int(Char), name: Some([99])@16]@5:1)], end: 19",
    ),
    (
        b"int f(int a,unsigned long b){}",
        "Tree { outers: [Function(Head { base: Int(Int), name: [102], params: [Param { base: Int(Int), name: Some([97])@10, Param { base: Int(UnsignedLong), name: Some([98])@26]@4:1, [])], end: 30",
    ),
    (
        b"int f(void,int);",
        "Tree { outers: [Prototype(Head { base: Int(Int), name: [102], params: [Param { base: Void, name: None@6, Param { base: Int(Int), name: None@11]@4:1)], end: 16",
    ),
    (
        b"int f(void x){}",
        "Tree { outers: [Function(Head { base: Int(Int), name: [102], params: [Param { base: Void, name: Some([120])@11]@4:1, [])], end: 15",
    ),
    (
        b"int f(){return 1;} int g(void){return;}",
        "Tree { outers: [Function(Head { base: Int(Int), name: [102], params: []@4:1, [Return(Some(Number(1, Int)@15:1), 8, 1)]), Function(Head { base: Int(Int), name: [103], params: []@23:1, [Return(None, 31, 1)])], end: 39",
    ),
    (
        b"int f(int a);int b;int f(int a){}",
        "Tree { outers: [Prototype(Head { base: Int(Int), name: [102], params: [Param { base: Int(Int), name: Some([97])@10]@4:1), Vars([Var { base: Int(Int), name: [98], size: Scalar, init: Absent@17:1]), Function(Head { base: Int(Int), name: [102], params: [Param { base: Int(Int), name: Some([97])@29]@23:1, [])], end: 33",
    ),
];

pub const BLOCK_TREES: [(&[u8], &str); 14] = [
    (
        b"void f(){}",
        "Tree { outers: [Function(Head { base: Void, name: [102], params: []@5:1, [])], end: 10",
    ),
    (
        b"void f(){;}",
        "Tree { outers: [Function(Head { base: Void, name: [102], params: []@5:1, [Empty])], end: 11",
    ),
    (
        b"void f(){;;}",
        "Tree { outers: [Function(Head { base: Void, name: [102], params: []@5:1, [Empty, Empty])], end: 12",
    ),
    (
        b"void f(){{}}",
        "Tree { outers: [Function(Head { base: Void, name: [102], params: []@5:1, [Block([])])], end: 12",
    ),
    (
        b"void f(){{{;}{}}}",
        "Tree { outers: [Function(Head { base: Void, name: [102], params: []@5:1, [Block([Block([Empty]), Block([])])])], end: 17",
    ),
    (
        b"void f(){1;}",
        "Tree { outers: [Function(Head { base: Void, name: [102], params: []@5:1, [Value(Number(1, Int)@9:1)])], end: 12",
    ),
    (
        b"void f(){a,b;}",
        "Tree { outers: [Function(Head { base: Void, name: [102], params: []@5:1, [Value(Comma(Name([97])@9:1, Name([98])@11:1)@10:1)])], end: 14",
    ),
    (
        b"void f(){return;}",
        "Tree { outers: [Function(Head { base: Void, name: [102], params: []@5:1, [Return(None, 9, 1)])], end: 17",
    ),
    (
        b"void f(){return a;}",
        "Tree { outers: [Function(Head { base: Void, name: [102], params: []@5:1, [Return(Some(Name([97])@16:1), 9, 1)])], end: 19",
    ),
    (
        b"void f(){break;}",
        "Tree { outers: [Function(Head { base: Void, name: [102], params: []@5:1, [Break(9, 1)])], end: 16",
    ),
    (
        b"void f(){continue;}",
        "Tree { outers: [Function(Head { base: Void, name: [102], params: []@5:1, [Continue(9, 1)])], end: 19",
    ),
    (
        b"void f(){int a;}",
        "Tree { outers: [Function(Head { base: Void, name: [102], params: []@5:1, [Vars([Var { base: Int(Int), name: [97], size: Scalar, init: Absent@13:1])])], end: 16",
    ),
    (
        b"void f(){int a=1;a;}",
        "Tree { outers: [Function(Head { base: Void, name: [102], params: []@5:1, [Vars([Var { base: Int(Int), name: [97], size: Scalar, init: One(Number(1, Int)@15:1)@13:1]), Value(Name([97])@17:1)])], end: 20",
    ),
    (
        b"void f(){int a;{int a;}}",
        "Tree { outers: [Function(Head { base: Void, name: [102], params: []@5:1, [Vars([Var { base: Int(Int), name: [97], size: Scalar, init: Absent@13:1]), Block([Vars([Var { base: Int(Int), name: [97], size: Scalar, init: Absent@20:1])])])], end: 24",
    ),
];

pub const BRANCH_TREES: [(&[u8], &str); 7] = [
    (
        b"void f(){if(1);}",
        "Tree { outers: [Function(Head { base: Void, name: [102], params: []@5:1, [If(Number(1, Int)@12:1, Empty, None)])], end: 16",
    ),
    (
        b"void f(){if(1);else;}",
        "Tree { outers: [Function(Head { base: Void, name: [102], params: []@5:1, [If(Number(1, Int)@12:1, Empty, Some(Empty))])], end: 21",
    ),
    (
        b"void f(){if(1)if(2);else;}",
        "Tree { outers: [Function(Head { base: Void, name: [102], params: []@5:1, [If(Number(1, Int)@12:1, If(Number(2, Int)@17:1, Empty, Some(Empty)), None)])], end: 26",
    ),
    (
        b"void f(){if(1)if(2);else;else;}",
        "Tree { outers: [Function(Head { base: Void, name: [102], params: []@5:1, [If(Number(1, Int)@12:1, If(Number(2, Int)@17:1, Empty, Some(Empty)), Some(Empty))])], end: 31",
    ),
    (
        b"void f(){if(1){if(2);}else;}",
        "Tree { outers: [Function(Head { base: Void, name: [102], params: []@5:1, [If(Number(1, Int)@12:1, Block([If(Number(2, Int)@18:1, Empty, None)]), Some(Empty))])], end: 28",
    ),
    (
        b"void f(){if(1);else if(2);else;}",
        "Tree { outers: [Function(Head { base: Void, name: [102], params: []@5:1, [If(Number(1, Int)@12:1, Empty, Some(If(Number(2, Int)@23:1, Empty, Some(Empty))))])], end: 32",
    ),
    (
        b"void f(){if(1)while(2)if(3);else;}",
        "Tree { outers: [Function(Head { base: Void, name: [102], params: []@5:1, [If(Number(1, Int)@12:1, While(Number(2, Int)@20:1, If(Number(3, Int)@25:1, Empty, Some(Empty))), None)])], end: 34",
    ),
];

pub const LOOP_TREES: [(&[u8], &str); 14] = [
    (
        b"void f(){while(1);}",
        "Tree { outers: [Function(Head { base: Void, name: [102], params: []@5:1, [While(Number(1, Int)@15:1, Empty)])], end: 19",
    ),
    (
        b"void f(){while(1)while(2){}}",
        "Tree { outers: [Function(Head { base: Void, name: [102], params: []@5:1, [While(Number(1, Int)@15:1, While(Number(2, Int)@23:1, Block([])))])], end: 28",
    ),
    (
        b"void f(){do;while(1);}",
        "Tree { outers: [Function(Head { base: Void, name: [102], params: []@5:1, [DoWhile(Empty, Number(1, Int)@18:1, 1)])], end: 22",
    ),
    (
        b"void f(){do do;while(1);while(2);}",
        "Tree { outers: [Function(Head { base: Void, name: [102], params: []@5:1, [DoWhile(DoWhile(Empty, Number(1, Int)@21:1, 1), Number(2, Int)@30:1, 1)])], end: 34",
    ),
    (
        b"void f(){do{}while(1);}",
        "Tree { outers: [Function(Head { base: Void, name: [102], params: []@5:1, [DoWhile(Block([]), Number(1, Int)@19:1, 1)])], end: 23",
    ),
    (
        b"void f(){do if(1);else;while(2);}",
        "Tree { outers: [Function(Head { base: Void, name: [102], params: []@5:1, [DoWhile(If(Number(1, Int)@15:1, Empty, Some(Empty)), Number(2, Int)@29:1, 1)])], end: 33",
    ),
    (
        b"void f(){do\n;\nwhile\n(1);}",
        "Tree { outers: [Function(Head { base: Void, name: [102], params: []@5:1, [DoWhile(Empty, Number(1, Int)@21:4, 3)])], end: 25",
    ),
    (
        b"void f(){for(;;);}",
        "Tree { outers: [Function(Head { base: Void, name: [102], params: []@5:1, [For(ForHead { first: None, test: None, step: None, Empty)])], end: 18",
    ),
    (
        b"void f(){for(1;2;3);}",
        "Tree { outers: [Function(Head { base: Void, name: [102], params: []@5:1, [For(ForHead { first: Some(Value(Number(1, Int)@13:1)), test: Some(Number(2, Int)@15:1), step: Some(Number(3, Int)@17:1), Empty)])], end: 21",
    ),
    (
        b"void f(){for(int i=0;i<1;i++){}}",
        "Tree { outers: [Function(Head { base: Void, name: [102], params: []@5:1, [For(ForHead { first: Some(Vars([Var { base: Int(Int), name: [105], size: Scalar, init: One(Number(0, Int)@19:1)@17:1])), test: Some(Binary(Less, Name([105])@21:1, Number(1, Int)@23:1)@22:1), step: Some(After(Add, Name([105])@25:1)@26:1), Block([]))])], end: 32",
    ),
    (
        b"void f(){for(a,b;;);}",
        "Tree { outers: [Function(Head { base: Void, name: [102], params: []@5:1, [For(ForHead { first: Some(Value(Comma(Name([97])@13:1, Name([98])@15:1)@14:1)), test: None, step: None, Empty)])], end: 21",
    ),
    (
        b"void f(){for(;;c,d)for(;;);}",
        "Tree { outers: [Function(Head { base: Void, name: [102], params: []@5:1, [For(ForHead { first: None, test: None, step: Some(Comma(Name([99])@15:1, Name([100])@17:1)@16:1), For(ForHead { first: None, test: None, step: None, Empty))])], end: 28",
    ),
    (
        b"void f(){for(int i,j;;);}",
        "Tree { outers: [Function(Head { base: Void, name: [102], params: []@5:1, [For(ForHead { first: Some(Vars([Var { base: Int(Int), name: [105], size: Scalar, init: Absent@17:1, Var { base: Int(Int), name: [106], size: Scalar, init: Absent@19:1])), test: None, step: None, Empty)])], end: 25",
    ),
    (
        b"void f(){for(;1;);}",
        "Tree { outers: [Function(Head { base: Void, name: [102], params: []@5:1, [For(ForHead { first: None, test: Some(Number(1, Int)@14:1), step: None, Empty)])], end: 19",
    ),
];

pub const SWITCH_TREES: [(&[u8], &str); 7] = [
    (
        b"void f(){switch(1){}}",
        "Tree { outers: [Function(Head { base: Void, name: [102], params: []@5:1, [Switch(Number(1, Int)@16:1, [])])], end: 21",
    ),
    (
        b"void f(){switch(1){case 1:}}",
        "Tree { outers: [Function(Head { base: Void, name: [102], params: []@5:1, [Switch(Number(1, Int)@16:1, [Case(Number(1, Int)@24:1, 19)])])], end: 28",
    ),
    (
        b"void f(){switch(1){case 1:case 2:;default:;}}",
        "Tree { outers: [Function(Head { base: Void, name: [102], params: []@5:1, [Switch(Number(1, Int)@16:1, [Case(Number(1, Int)@24:1, 19), Case(Number(2, Int)@31:1, 26), Item(Empty), Default(34), Item(Empty)])])], end: 45",
    ),
    (
        b"void f(){switch(a){int b;case 1?2:3:b;break;}}",
        "Tree { outers: [Function(Head { base: Void, name: [102], params: []@5:1, [Switch(Name([97])@16:1, [Item(Vars([Var { base: Int(Int), name: [98], size: Scalar, init: Absent@23:1])), Case(Choose(Number(1, Int)@30:1, Number(2, Int)@32:1, Number(3, Int)@34:1)@31:1, 25), Item(Value(Name([98])@36:1)), Item(Break(38, 1))])])], end: 46",
    ),
    (
        b"void f(){switch(1){{case_;}default:}}",
        "Tree { outers: [Function(Head { base: Void, name: [102], params: []@5:1, [Switch(Number(1, Int)@16:1, [Item(Block([Value(Name([99, 97, 115, 101, 95])@20:1)])), Default(27)])])], end: 37",
    ),
    (
        b"void f(){switch(1){case 1:switch(2){default:;}}}",
        "Tree { outers: [Function(Head { base: Void, name: [102], params: []@5:1, [Switch(Number(1, Int)@16:1, [Case(Number(1, Int)@24:1, 19), Item(Switch(Number(2, Int)@33:1, [Default(36), Item(Empty)]))])])], end: 48",
    ),
    (
        b"void f(){while(1)switch(2){case 3:break;}continue;}",
        "Tree { outers: [Function(Head { base: Void, name: [102], params: []@5:1, [While(Number(1, Int)@15:1, Switch(Number(2, Int)@24:1, [Case(Number(3, Int)@32:1, 27), Item(Break(34, 1))])), Continue(41, 1)])], end: 51",
    ),
];
