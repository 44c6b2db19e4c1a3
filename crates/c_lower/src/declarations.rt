//! Declarations with their initialisers.

ghost use Rattle.std.specs.Prelude.{◌≡◌, ◌+◌, ◌-◌, ◌∷◌, Some, OnOk, map, pos};
ghost use Rattle.c_tree.specs.TypedParts as parts;
ghost use Rattle.c_tree.specs.TypedView.{typed_expr_view, typed_var_view};
ghost use Rattle.stack_ops.specs.declared.operation.Op.TheVariants as op;
ghost use Rattle.c_lower.specs.Items.{Item, ways, nodes, sum, init_nodes, vars_nodes, plainly};
ghost use Rattle.c_lower.specs.Items.{zeros, elements, initialised, declarations};
ghost use Rattle.c_lower.specs.Building.{Puts};

use crate::blocks::Blocks;
use crate::operations::cell_number;
use crate::pieces::push;
use crate::values::value;
use c_tree::{TypedExpr, TypedInit, TypedVar};
use stack_ops::Op;
use std::alloc::AllocError;

/// The index of an element.
fn push_index(out: &mut Blocks, index: u64) -> Result<(), AllocError>
    ensures { OnOk result (Puts out.old out.new (λ rest. plainly (op.Push (pos index)) rest)) }
{
    push(out, i128::from(index), None)
}

/// A local array: its first cell and its length.
#[derive(Clone, Copy, Debug)]
struct Array {
    first: u32,
    count: u32,
}

impl Array {
    /// The element with an index, and then its value, are on the stack; it is set.
    fn set(self, out: &mut Blocks, line: Option<u32>) -> Result<(), AllocError>
        ensures { OnOk result (Puts out.old out.new
            (λ rest. Item.Do (op.StoreLocalAt self.first self.count) line ∷
            plainly op.Drop rest)) }
    {
        out.put(Op::StoreLocalAt(self.first, self.count), line)?;
        out.put(Op::Drop, None)
    }

    fn set_to_zero(self, out: &mut Blocks, index: u64, line: Option<u32>) -> Result<(), AllocError>
        ensures { OnOk result (Puts out.old out.new
            (λ rest. plainly (op.Push (pos index)) (plainly (op.Push (pos 0))
            (Item.Do (op.StoreLocalAt self.first self.count) line ∷ plainly op.Drop rest)))) }
    {
        push_index(out, index)?;
        out.put(Op::Push(0), None)?;
        self.set(out, line)
    }

    /// The elements from an index on become 0.
    #[tactic(auto, using(crate::proofs::ZeroLaws::one_more, crate::proofs::ZeroLaws::no_more))]
    fn clear(self, out: &mut Blocks, from: u64, line: Option<u32>) -> Result<(), AllocError>
        ensures { OnOk result (Puts out.old out.new
            (λ rest. zeros (self.count - from) self.first self.count from line rest)) }
    {
        let mut index = from;
        let mut line = line;
        while index < self.count as u64 {
            self.set_to_zero(out, index, line)?;
            index += 1;
            line = None;
        }
        Ok(())
    }

    fn set_one(
        self,
        out: &mut Blocks,
        next: &mut u32,
        index: u64,
        line: Option<u32>,
        e: &TypedExpr,
    ) -> Result<(), AllocError>
        ensures code { OnOk result (Puts out.old out.new
            (λ rest. plainly (op.Push (pos index)) ((ways (typed_expr_view e.now) next.old).value
            (Item.Do (op.StoreLocalAt self.first self.count) line ∷ plainly op.Drop rest)))) }
        ensures next { OnOk result (next.new ≡ next.old + nodes (typed_expr_view e.now)) }
    {
        push_index(out, index)?;
        value(out, next, e)?;
        self.set(out, line)
    }

    /// The first elements become these values, and the others 0; the first has the line.
    fn fill(
        self,
        out: &mut Blocks,
        next: &mut u32,
        es: &[TypedExpr],
        line: u32,
    ) -> Result<(), AllocError>
        ensures code { OnOk result (Puts out.old out.new
            (λ rest. elements (map typed_expr_view es.now) next.old self.first self.count 0
            (Some line) rest)) }
        ensures next { OnOk result (next.new ≡ next.old + sum (map typed_expr_view es.now)) }
    {
        let mut index = 0;
        let mut line = Some(line);
        for e in es {
            self.set_one(out, next, index, line, e)?;
            index += 1;
            line = None;
        }
        self.clear(out, index, line)
    }
}

/// How many cells a variable takes.
fn size(var: &TypedVar) -> u64
    ensures { result ≡ parts.size (typed_var_view var.now) }
{
    match var.length {
        Some(length) => length,
        None => 1,
    }
}

/// A variable with an initialiser is set.
fn initialise(out: &mut Blocks, next: &mut u32, var: &TypedVar) -> Result<(), AllocError>
    ensures code { OnOk result (Puts out.old out.new (λ rest. initialised (typed_var_view var.now)
        (typed_var_view var.now).init next.old rest)) }
    ensures next { OnOk result
        (next.new ≡ next.old + init_nodes (typed_var_view var.now).init) }
{
    match &var.init {
        TypedInit::Absent => Ok(()),
        TypedInit::One(e) => {
            let store = Op::StoreLocal(cell_number(var.cell)?);
            value(out, next, e)?;
            out.put(store, Some(var.line))?;
            out.put(Op::Drop, None)
        }
        TypedInit::List(es) => {
            let array = Array {
                first: cell_number(var.cell)?,
                count: cell_number(size(var))?,
            };
            array.fill(out, next, es.as_slice(), var.line)
        }
    }
}

/// The variables of a declaration, one after another.
pub fn declare(out: &mut Blocks, next: &mut u32, vars: &[TypedVar]) -> Result<(), AllocError>
    ensures code { OnOk result (Puts out.old out.new
        (λ rest. declarations (map typed_var_view vars.now) next.old rest)) }
    ensures next { OnOk result (next.new ≡ next.old + vars_nodes (map typed_var_view vars.now)) }
{
    for var in vars {
        initialise(out, next, var)?;
    }
    Ok(())
}
