//! Faults of names and types.

ghost use Rattle.std.specs.Prelude.{◌≡◌};
ghost use Rattle.c_typing.specs.FaultWords as spec;

/// A fault of names or types in a source, with its place: a byte of the text.
#[derive(Clone, Copy, Debug, PartialEq, Eq)]
pub enum TypeFault {
    /// A name that is used has no declaration in scope before it.
    Unknown(u32),
    /// A name is declared twice in one scope, two declarations of a function differ in a type, or
    /// a function is defined twice.
    Redeclared(u32),
    /// A function is called that is never defined.
    NoBody(u32),
    /// A call has another number of arguments than the function has parameters.
    ArgCount(u32),
    /// A variable is called.
    NotAFunction(u32),
    /// A name is indexed that is no array.
    NotAnArray(u32),
    /// A function's name stands as a value; or what is assigned or stepped is no variable and no
    /// element, parentheses aside.
    NotAVariable(u32),
    /// An array's name stands without an index, an array has a single initialiser, or a scalar a
    /// list.
    ArrayValue(u32),
    /// A void expression stands where a value is wanted, a variable or a parameter is void, or a
    /// `return` doesn't fit the result.
    VoidValue(u32),
    /// A case value isn't a constant expression, or traps.
    BadCase(u32),
    /// A global's initialiser isn't a constant expression, or traps.
    NotConstant(u32),
    /// Two case values of a switch are equal after conversion, or it has two defaults: at the
    /// later.
    TwiceCase(u32),
    /// `break` stands outside a loop or switch, or `continue` outside a loop.
    OutsideLoop(u32),
    /// An array's length isn't a constant from 1 to the limit, is told by nothing, or is passed
    /// by the initialisers.
    ArraySize(u32),
    /// A function has more parameters than the limit.
    TooManyParameters(u32),
    /// No `int main(void)` is defined: at the end of the last token.
    NoMain(u32),
}

impl TypeFault {
    /// The fault in words, as messages have it.
    pub fn words(self) -> &'static str
        ensures { result.now ≡ spec.words self }
    {
        match self {
            TypeFault::Unknown(_) => "unknown",
            TypeFault::Redeclared(_) => "redeclared",
            TypeFault::NoBody(_) => "no body",
            TypeFault::ArgCount(_) => "arg count",
            TypeFault::NotAFunction(_) => "not a function",
            TypeFault::NotAnArray(_) => "not an array",
            TypeFault::NotAVariable(_) => "not a variable",
            TypeFault::ArrayValue(_) => "array value",
            TypeFault::VoidValue(_) => "void value",
            TypeFault::BadCase(_) => "bad case",
            TypeFault::NotConstant(_) => "not constant",
            TypeFault::TwiceCase(_) => "twice case",
            TypeFault::OutsideLoop(_) => "outside loop",
            TypeFault::ArraySize(_) => "array size",
            TypeFault::TooManyParameters(_) => "too many parameters",
            TypeFault::NoMain(_) => "no main",
        }
    }

    /// The place of the fault.
    pub fn place(self) -> u32
        ensures { result ≡ spec.place self }
    {
        match self {
            TypeFault::Unknown(place)
            | TypeFault::Redeclared(place)
            | TypeFault::NoBody(place)
            | TypeFault::ArgCount(place)
            | TypeFault::NotAFunction(place)
            | TypeFault::NotAnArray(place)
            | TypeFault::NotAVariable(place)
            | TypeFault::ArrayValue(place)
            | TypeFault::VoidValue(place)
            | TypeFault::BadCase(place)
            | TypeFault::NotConstant(place)
            | TypeFault::TwiceCase(place)
            | TypeFault::OutsideLoop(place)
            | TypeFault::ArraySize(place)
            | TypeFault::TooManyParameters(place)
            | TypeFault::NoMain(place) => place,
        }
    }
}
