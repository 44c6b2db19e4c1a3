//! The typed forms of expressions, made from their parts.

ghost use Rattle.std.specs.Prelude.{◌≡◌, drop, IfOk};
ghost use Rattle.c_tree.specs.declared.expr.Base.TheVariants as base;
ghost use Rattle.c_tree.specs.TypedExpr.{TypedExpr as Plain, TypedKind as PlainKind};
ghost use Rattle.c_tree.specs.TypedView.{typed_expr_view};
ghost use Rattle.c_values.specs.Checks.{passed_first, args_view};
ghost use Rattle.c_tree.specs.TypedParts.{class, base_of};
ghost use Rattle.c_typing.specs.TypedForms as spec;

use c_tree::{Base, Callee, CellAt, TypedExpr, TypedKind};
use int_ops::{BinOp, IntType, common_type, promoted};
use sqlite_items::{Boxed, Items};
use std::alloc::{AllocError, Global};

/// The type int.
pub const INT: Base = Base::Int(IntType::Int);

/// Whether two types are the same.
pub fn same_base(a: Base, b: Base) -> bool
    ensures { result ≡ spec.same_base a b }
{
    match (a, b) {
        (Base::Void, Base::Void) => true,
        (Base::Int(t), Base::Int(u)) => t.code() == u.code(),
        _ => false,
    }
}

/// Whether the type is void.
pub fn is_void(base: Base) -> bool
    ensures { result ≡ spec.is_void base }
{
    match base {
        Base::Void => true,
        Base::Int(_) => false,
    }
}

/// The integer type; void counts as int.
pub fn number_type(base: Base) -> IntType
    ensures { result ≡ spec.number_type base }
{
    match base {
        Base::Void => IntType::Int,
        Base::Int(t) => t,
    }
}

/// The promoted type.
pub fn promoted_base(base: Base) -> Base
    ensures { result ≡ spec.promoted_base base }
{
    Base::Int(promoted(number_type(base)))
}

/// The type that two operands have in common.
pub fn common_base(a: Base, b: Base) -> Base
    ensures { result ≡ spec.common_base a b }
{
    Base::Int(common_type(number_type(a), number_type(b)))
}

/// The expression in this type: as it is where it has it, and otherwise converted at its own place.
pub fn converted(alloc: Global, operand: TypedExpr, to: Base) -> Result<TypedExpr, AllocError>
    ensures { IfOk result (λ e. typed_expr_view e ≡ spec.converted (typed_expr_view operand) to) }
{
    if same_base(operand.base, to) {
        return Ok(operand);
    }
    let (place, line) = (operand.place, operand.line);
    Ok(TypedExpr {
        kind: TypedKind::Convert(Boxed::new(alloc, operand)?),
        base: to,
        place,
        line,
    })
}

/// An argument as the parameter at a place of these takes it.
pub fn passed(
    alloc: Global,
    arg: TypedExpr,
    params: &[Base],
    at: usize,
) -> Result<TypedExpr, AllocError>
    ensures { IfOk result
        (λ e. typed_expr_view e ≡ passed_first (drop at params.now) (typed_expr_view arg)) }
{
    match params.get(at) {
        Some(to) => converted(alloc, arg, *to),
        None => Ok(arg),
    }
}

/// A variable.
pub fn name(cell: CellAt, t: IntType, place: u32, line: u32) -> TypedExpr
    ensures { typed_expr_view result ≡ Plain.At (PlainKind.Name cell) (base.Int t) place line }
{
    TypedExpr {
        kind: TypedKind::Name(cell),
        base: Base::Int(t),
        place,
        line,
    }
}

/// A number of a type.
pub fn number(number: i128, t: IntType, place: u32, line: u32) -> TypedExpr
    ensures { typed_expr_view result
        ≡ Plain.At (PlainKind.Number number t) (base.Int t) place line }
{
    TypedExpr {
        kind: TypedKind::Number(number, t),
        base: Base::Int(t),
        place,
        line,
    }
}

/// `EOF`
pub fn eof_name(place: u32, line: u32) -> TypedExpr
    ensures { typed_expr_view result ≡ Plain.At PlainKind.EofName spec.int place line }
{
    TypedExpr {
        kind: TypedKind::EofName,
        base: INT,
        place,
        line,
    }
}

/// A call with these arguments, of this type.
pub fn call(callee: Callee, args: Items<TypedExpr>, base: Base, place: u32, line: u32) -> TypedExpr
    ensures { typed_expr_view result ≡ Plain.At (PlainKind.Call callee (args_view args)) base place
        line }
{
    TypedExpr {
        kind: TypedKind::Call(callee, args),
        base,
        place,
        line,
    }
}

/// An element of the array with this first cell, length and type; its name has this place and line.
pub fn element(
    alloc: Global,
    array: (CellAt, u64, IntType),
    name: (u32, u32),
    index: TypedExpr,
    place: u32,
    line: u32,
) -> Result<TypedExpr, AllocError>
    ensures { IfOk result (λ e. typed_expr_view e ≡ Plain.At
        (PlainKind.Index array.0 array.1 name.0 name.1 (typed_expr_view index)) (base.Int array.2)
        place line) }
{
    let index = Boxed::new(alloc, index)?;
    Ok(TypedExpr {
        kind: TypedKind::Index(array.0, array.1, name.0, name.1, index),
        base: Base::Int(array.2),
        place,
        line,
    })
}

/// An operator over its two operands, each in a type.
fn both(
    alloc: Global,
    op: BinOp,
    left: (TypedExpr, Base),
    right: (TypedExpr, Base),
    base: Base,
    place: u32,
    line: u32,
) -> Result<TypedExpr, AllocError>
    ensures { IfOk result (λ e. typed_expr_view e
        ≡ spec.both op left.1 (typed_expr_view left.0) right.1 (typed_expr_view right.0) base place
        line) }
{
    let l = converted(alloc, left.0, left.1)?;
    let r = converted(alloc, right.0, right.1)?;
    let l = Boxed::new(alloc, l)?;
    Ok(TypedExpr {
        kind: TypedKind::Binary(op, l, Boxed::new(alloc, r)?),
        base,
        place,
        line,
    })
}

/// An operator: in the common type, and comparisons give an int; a shift takes each operand
/// promoted.
pub fn operated(
    alloc: Global,
    op: BinOp,
    l: TypedExpr,
    r: TypedExpr,
    place: u32,
    line: u32,
) -> Result<TypedExpr, AllocError>
    ensures { IfOk result (λ e. typed_expr_view e
        ≡ spec.operated (class op) op (typed_expr_view l) (typed_expr_view r) place line) }
{
    let (left, right) = (promoted_base(l.base), promoted_base(r.base));
    let common = common_base(l.base, r.base);
    match op {
        BinOp::Less
        | BinOp::Greater
        | BinOp::LessEqual
        | BinOp::GreaterEqual
        | BinOp::Equal
        | BinOp::NotEqual => both(alloc, op, (l, common), (r, common), INT, place, line),
        BinOp::Shl | BinOp::Shr => both(alloc, op, (l, left), (r, right), left, place, line),
        BinOp::Mul
        | BinOp::Div
        | BinOp::Rem
        | BinOp::Add
        | BinOp::Sub
        | BinOp::And
        | BinOp::Xor
        | BinOp::Or => both(alloc, op, (l, common), (r, common), common, place, line),
    }
}

/// The operand promoted.
fn lifted(alloc: Global, operand: TypedExpr) -> Result<TypedExpr, AllocError>
    ensures { IfOk result (λ e. typed_expr_view e
        ≡ spec.converted (typed_expr_view operand)
        (spec.promoted_base (base_of (typed_expr_view operand)))) }
{
    let to = promoted_base(operand.base);
    converted(alloc, operand, to)
}

/// `+` operand
pub fn plus(
    alloc: Global,
    operand: TypedExpr,
    place: u32,
    line: u32,
) -> Result<TypedExpr, AllocError>
    ensures { IfOk result (λ e. typed_expr_view e ≡ spec.signed PlainKind.Plus
        (spec.promoted_base (base_of (typed_expr_view operand))) (typed_expr_view operand) place
        line) }
{
    let base = promoted_base(operand.base);
    let operand = lifted(alloc, operand)?;
    let kind = TypedKind::Plus(Boxed::new(alloc, operand)?);
    Ok(TypedExpr {
        kind,
        base,
        place,
        line,
    })
}

/// `-` operand
pub fn minus(
    alloc: Global,
    operand: TypedExpr,
    place: u32,
    line: u32,
) -> Result<TypedExpr, AllocError>
    ensures { IfOk result (λ e. typed_expr_view e ≡ spec.signed PlainKind.Minus
        (spec.promoted_base (base_of (typed_expr_view operand))) (typed_expr_view operand) place
        line) }
{
    let base = promoted_base(operand.base);
    let operand = lifted(alloc, operand)?;
    let kind = TypedKind::Minus(Boxed::new(alloc, operand)?);
    Ok(TypedExpr {
        kind,
        base,
        place,
        line,
    })
}

/// `~` operand
pub fn complement(
    alloc: Global,
    operand: TypedExpr,
    place: u32,
    line: u32,
) -> Result<TypedExpr, AllocError>
    ensures { IfOk result (λ e. typed_expr_view e ≡ spec.signed PlainKind.Complement
        (spec.promoted_base (base_of (typed_expr_view operand))) (typed_expr_view operand) place
        line) }
{
    let base = promoted_base(operand.base);
    let operand = lifted(alloc, operand)?;
    let kind = TypedKind::Complement(Boxed::new(alloc, operand)?);
    Ok(TypedExpr {
        kind,
        base,
        place,
        line,
    })
}

/// `!` operand
pub fn not(
    alloc: Global,
    operand: TypedExpr,
    place: u32,
    line: u32,
) -> Result<TypedExpr, AllocError>
    ensures { IfOk result (λ e. typed_expr_view e ≡ Plain.At
        (PlainKind.Not (typed_expr_view operand)) spec.int place line) }
{
    let kind = TypedKind::Not(Boxed::new(alloc, operand)?);
    Ok(TypedExpr {
        kind,
        base: INT,
        place,
        line,
    })
}

/// `(` type `)` operand
pub fn cast(
    alloc: Global,
    to: Base,
    operand: TypedExpr,
    place: u32,
    line: u32,
) -> Result<TypedExpr, AllocError>
    ensures { IfOk result (λ e. typed_expr_view e ≡ Plain.At
        (PlainKind.Cast to (typed_expr_view operand)) to place line) }
{
    let kind = TypedKind::Cast(to, Boxed::new(alloc, operand)?);
    Ok(TypedExpr {
        kind,
        base: to,
        place,
        line,
    })
}

/// left `&&` right
pub fn and_also(
    alloc: Global,
    l: TypedExpr,
    r: TypedExpr,
    place: u32,
    line: u32,
) -> Result<TypedExpr, AllocError>
    ensures { IfOk result (λ e. typed_expr_view e
        ≡ Plain.At (PlainKind.AndAlso (typed_expr_view l) (typed_expr_view r)) spec.int place
        line) }
{
    let l = Boxed::new(alloc, l)?;
    let kind = TypedKind::AndAlso(l, Boxed::new(alloc, r)?);
    Ok(TypedExpr {
        kind,
        base: INT,
        place,
        line,
    })
}

/// left `||` right
pub fn or_else(
    alloc: Global,
    l: TypedExpr,
    r: TypedExpr,
    place: u32,
    line: u32,
) -> Result<TypedExpr, AllocError>
    ensures { IfOk result (λ e. typed_expr_view e
        ≡ Plain.At (PlainKind.OrElse (typed_expr_view l) (typed_expr_view r)) spec.int place line) }
{
    let l = Boxed::new(alloc, l)?;
    let kind = TypedKind::OrElse(l, Boxed::new(alloc, r)?);
    Ok(TypedExpr {
        kind,
        base: INT,
        place,
        line,
    })
}

/// `?:` with these three operands, of this type.
fn choose(
    alloc: Global,
    c: TypedExpr,
    x: TypedExpr,
    y: TypedExpr,
    base: Base,
    place: u32,
    line: u32,
) -> Result<TypedExpr, AllocError>
    ensures { IfOk result (λ e. typed_expr_view e ≡ Plain.At
        (PlainKind.Choose (typed_expr_view c) (typed_expr_view x) (typed_expr_view y)) base place
        line) }
{
    let c = Boxed::new(alloc, c)?;
    let x = Boxed::new(alloc, x)?;
    let kind = TypedKind::Choose(c, x, Boxed::new(alloc, y)?);
    Ok(TypedExpr {
        kind,
        base,
        place,
        line,
    })
}

/// `?:`: void where the second and third operand are, and otherwise in their common type.
pub fn chosen(
    alloc: Global,
    c: TypedExpr,
    x: TypedExpr,
    y: TypedExpr,
    place: u32,
    line: u32,
) -> Result<TypedExpr, AllocError>
    ensures { IfOk result (λ e. typed_expr_view e
        ≡ spec.chosen (typed_expr_view c) (typed_expr_view x) (typed_expr_view y) place line) }
{
    let void = is_void(x.base) && is_void(y.base);
    if void {
        return choose(alloc, c, x, y, Base::Void, place, line);
    }
    let to = common_base(x.base, y.base);
    let x = converted(alloc, x, to)?;
    let y = converted(alloc, y, to)?;
    choose(alloc, c, x, y, to, place, line)
}

/// The type in which a value is taken that is assigned.
fn taken(op: Option<BinOp>, target: Base, value: Base) -> Base
    ensures { result ≡ spec.taken op target value }
{
    match op {
        None => target,
        Some(BinOp::Shl | BinOp::Shr) => promoted_base(value),
        Some(_) => common_base(target, value),
    }
}

/// An assignment, which has the type of what is assigned to.
pub fn assigned(
    alloc: Global,
    op: Option<BinOp>,
    target: TypedExpr,
    value: TypedExpr,
    place: u32,
    line: u32,
) -> Result<TypedExpr, AllocError>
    ensures { IfOk result (λ e. typed_expr_view e
        ≡ spec.assigned op (typed_expr_view target) (typed_expr_view value) place line) }
{
    let base = target.base;
    let to = taken(op, base, value.base);
    let value = converted(alloc, value, to)?;
    let target = Boxed::new(alloc, target)?;
    let kind = TypedKind::Assign(op, target, Boxed::new(alloc, value)?);
    Ok(TypedExpr {
        kind,
        base,
        place,
        line,
    })
}

/// `++` or `--` before its operand.
pub fn before(
    alloc: Global,
    op: BinOp,
    operand: TypedExpr,
    place: u32,
    line: u32,
) -> Result<TypedExpr, AllocError>
    ensures { IfOk result (λ e. typed_expr_view e
        ≡ Plain.At (PlainKind.Before op (typed_expr_view operand))
        (base_of (typed_expr_view operand)) place line) }
{
    let base = operand.base;
    let kind = TypedKind::Before(op, Boxed::new(alloc, operand)?);
    Ok(TypedExpr {
        kind,
        base,
        place,
        line,
    })
}

/// `++` or `--` behind its operand.
pub fn after(
    alloc: Global,
    op: BinOp,
    operand: TypedExpr,
    place: u32,
    line: u32,
) -> Result<TypedExpr, AllocError>
    ensures { IfOk result (λ e. typed_expr_view e
        ≡ Plain.At (PlainKind.After op (typed_expr_view operand))
        (base_of (typed_expr_view operand)) place line) }
{
    let base = operand.base;
    let kind = TypedKind::After(op, Boxed::new(alloc, operand)?);
    Ok(TypedExpr {
        kind,
        base,
        place,
        line,
    })
}

/// left `,` right
pub fn comma(
    alloc: Global,
    l: TypedExpr,
    r: TypedExpr,
    place: u32,
    line: u32,
) -> Result<TypedExpr, AllocError>
    ensures { IfOk result (λ e. typed_expr_view e
        ≡ Plain.At (PlainKind.Comma (typed_expr_view l) (typed_expr_view r))
        (base_of (typed_expr_view r)) place line) }
{
    let base = r.base;
    let l = Boxed::new(alloc, l)?;
    let kind = TypedKind::Comma(l, Boxed::new(alloc, r)?);
    Ok(TypedExpr {
        kind,
        base,
        place,
        line,
    })
}
