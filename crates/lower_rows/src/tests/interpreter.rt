//! A plain interpreter of graphs, written from the tables of operations and endings apart from the machine.

ghost use Rattle.std.specs.Prelude.{IfOk};
ghost use Rattle.int_ops.specs.Ranges.{IsNumber};

use cov_base::NoMemory;
use flow_graph::{Ending, Graph, GraphUnit};
use int_ops::{ArithTrap, BinOp, IntType, UnOp, binary, convert, greatest, least, unary};
use stack_ops::{Op, Outcome, Trap};
use std::alloc::{AllocError, AllocFailed, Global};
use std::mem;

/// How many calls may be live at once.
const MOST_FRAMES: usize = 2000;

/// How many bytes may be put.
const MOST_OUTPUT: usize = 16_777_216;

/// Why a run doesn't go on.
#[derive(Clone, Copy, Debug, PartialEq, Eq)]
pub enum Stop {
    /// It is over.
    Over(Outcome),
    /// Something that a block needs isn't there.
    Broken,
    /// Memory ran out.
    NoMemory,
}

impl From<AllocError> for Stop {
    fn from(_: AllocError) -> Self {
        Stop::NoMemory
    }
}

impl<T: Drop> From<AllocFailed<T>> for Stop {
    fn from(_: AllocFailed<T>) -> Self {
        Stop::NoMemory
    }
}

/// A call: its function, the block that comes next in it, its operands and its cells.
#[derive(Drop)]
struct Frame {
    function: u32,
    block: u32,
    operands: Vec<i128>,
    cells: Vec<i128>,
}

/// Where a run is: the innermost call, those that wait for it, and what they share.
#[derive(Drop)]
struct State {
    alloc: Global,
    frame: Frame,
    callers: Vec<Frame>,
    globals: Vec<i128>,
    input: Vec<u8>,
    place: usize,
    output: Vec<u8>,
    turns: u64,
}

/// A trap at a line.
fn trapped(why: Trap, line: u32) -> Stop {
    Stop::Over(Outcome::Trapped(why, line))
}

fn arith_trap(why: ArithTrap, line: u32) -> Stop {
    match why {
        ArithTrap::Overflow => trapped(Trap::Overflow, line),
        ArithTrap::DivideByZero => trapped(Trap::DivideByZero, line),
        ArithTrap::ShiftRange => trapped(Trap::ShiftRange, line),
    }
}

/// The number, where it is one of the machine's.
fn number(n: i128) -> Result<i128, Stop>
    ensures { IfOk result IsNumber }
{
    if n < least(IntType::Long) {
        return Err(Stop::Broken);
    }
    if n > greatest(IntType::UnsignedLong) {
        return Err(Stop::Broken);
    }
    Ok(n)
}

fn low_byte(n: i128) -> u8 {
    n.rem_euclid(256) as u8
}

/// The cell of an element, where the index is one of its array.
fn element(base: u32, size: u32, index: i128, line: u32) -> Result<u32, Stop> {
    if index < 0 {
        return Err(trapped(Trap::BadIndex, line));
    }
    if index >= size as i128 {
        return Err(trapped(Trap::BadIndex, line));
    }
    base.checked_add(index as u32).ok_or(Stop::Broken)
}

fn cell(cells: &[i128], at: u32) -> Result<i128, Stop> {
    cells.get(at as usize).copied().ok_or(Stop::Broken)
}

fn set(cells: &mut [i128], at: u32, n: i128) -> Result<(), Stop> {
    let at = at as usize;
    if at >= cells.len() {
        return Err(Stop::Broken);
    }
    cells[at] = n;
    Ok(())
}

impl Frame {
    fn push(&mut self, n: i128) -> Result<(), Stop> {
        self.operands.push(n)?;
        Ok(())
    }

    fn pop(&mut self) -> Result<i128, Stop> {
        self.operands.pop().ok_or(Stop::Broken)
    }

    /// Dup, Drop, Swap and Over.
    fn shuffle(&mut self, op: &Op) -> Result<(), Stop> {
        let top = self.pop()?;
        if *op == Op::Drop {
            return Ok(());
        }
        if *op == Op::Dup {
            self.push(top)?;
            return self.push(top);
        }
        let below = self.pop()?;
        if *op == Op::Over {
            self.push(below)?;
            self.push(top)?;
            return self.push(below);
        }
        self.push(top)?;
        self.push(below)
    }

    /// The operator on the two operands at the top.
    fn combine(&mut self, op: BinOp, t: IntType, line: u32) -> Result<(), Stop> {
        let right = number(self.pop()?)?;
        let left = number(self.pop()?)?;
        match binary(op, t, left, right) {
            Ok(n) => self.push(n),
            Err(why) => Err(arith_trap(why, line)),
        }
    }

    /// The sign on the operand at the top.
    fn sign(&mut self, op: UnOp, t: IntType, line: u32) -> Result<(), Stop> {
        let n = number(self.pop()?)?;
        match unary(op, t, n) {
            Ok(n) => self.push(n),
            Err(why) => Err(arith_trap(why, line)),
        }
    }

    fn operate(&mut self, op: &Op) -> Result<(), Stop> {
        match *op {
            Op::Mul(t, line) => self.combine(BinOp::Mul, t, line),
            Op::Div(t, line) => self.combine(BinOp::Div, t, line),
            Op::Rem(t, line) => self.combine(BinOp::Rem, t, line),
            Op::Add(t, line) => self.combine(BinOp::Add, t, line),
            Op::Sub(t, line) => self.combine(BinOp::Sub, t, line),
            Op::Shl(t, line) => self.combine(BinOp::Shl, t, line),
            Op::Shr(t, line) => self.combine(BinOp::Shr, t, line),
            Op::Less(t, line) => self.combine(BinOp::Less, t, line),
            Op::Greater(t, line) => self.combine(BinOp::Greater, t, line),
            Op::LessEqual(t, line) => self.combine(BinOp::LessEqual, t, line),
            Op::GreaterEqual(t, line) => self.combine(BinOp::GreaterEqual, t, line),
            Op::Equal(t, line) => self.combine(BinOp::Equal, t, line),
            Op::NotEqual(t, line) => self.combine(BinOp::NotEqual, t, line),
            Op::And(t, line) => self.combine(BinOp::And, t, line),
            Op::Xor(t, line) => self.combine(BinOp::Xor, t, line),
            Op::Or(t, line) => self.combine(BinOp::Or, t, line),
            _ => Err(Stop::Broken),
        }
    }

    /// What acts on operands and cells of the frame alone.
    fn act(&mut self, op: &Op) -> Result<(), Stop> {
        match *op {
            Op::Push(n) => self.push(n),
            Op::Dup | Op::Drop | Op::Swap | Op::Over => self.shuffle(op),
            Op::Convert(t) => {
                let n = number(self.pop()?)?;
                self.push(convert(t, n))
            }
            Op::Not => {
                let n = self.pop()?;
                self.push(if n == 0 { 1 } else { 0 })
            }
            Op::LoadLocal(w) => {
                let n = cell(&self.cells, w)?;
                self.push(n)
            }
            Op::StoreLocal(w) => {
                let n = self.pop()?;
                set(&mut self.cells, w, n)?;
                self.push(n)
            }
            Op::CheckIndex(size, line) => {
                let index = self.pop()?;
                element(0, size, index, line)?;
                self.push(index)
            }
            Op::LoadLocalAt(base, size) => {
                let at = element(base, size, self.pop()?, 0)?;
                let n = cell(&self.cells, at)?;
                self.push(n)
            }
            Op::StoreLocalAt(base, size) => {
                let n = self.pop()?;
                let at = element(base, size, self.pop()?, 0)?;
                set(&mut self.cells, at, n)?;
                self.push(n)
            }
            Op::Minus(t, line) => self.sign(UnOp::Minus, t, line),
            Op::Complement(t, line) => self.sign(UnOp::Complement, t, line),
            _ => self.operate(op),
        }
    }
}

/// The block of the case that has the number, or the default.
fn chosen(cases: &[(i128, u32)], n: i128, default: u32) -> u32 {
    for case in cases {
        if case.0 == n {
            return case.1;
        }
    }
    default
}

/// Cells that hold 0.
fn zeros(alloc: Global, count: u32) -> Result<Vec<i128>, AllocError> {
    let mut cells = Vec::new(alloc);
    for _ in 0..count {
        cells.push(0)?;
    }
    Ok(cells)
}

fn graph_at(unit: &GraphUnit, function: u32) -> Result<&Graph, Stop> {
    unit.graphs.get(function as usize).ok_or(Stop::Broken)
}

/// A call in its first block.
fn entered(alloc: Global, function: u32, graph: &Graph) -> Result<Frame, AllocError> {
    Ok(Frame {
        function,
        block: 2,
        operands: Vec::new(alloc),
        cells: zeros(alloc, graph.cells)?,
    })
}

impl State {
    fn new(alloc: Global, unit: &GraphUnit, input: &[u8], turns: u64) -> Result<State, Stop> {
        Ok(State {
            alloc,
            frame: entered(alloc, unit.main, graph_at(unit, unit.main)?)?,
            callers: Vec::new(alloc),
            globals: Vec::from_slice(alloc, &unit.globals)?,
            input: Vec::from_slice(alloc, input)?,
            place: 0,
            output: Vec::new(alloc),
            turns,
        })
    }

    fn turn(&mut self) -> Result<(), Stop> {
        if self.turns == 0 {
            return Err(Stop::Over(Outcome::OutOfTurns));
        }
        self.turns -= 1;
        Ok(())
    }

    /// The next byte of the input, or -1.
    fn next(&mut self) -> i128 {
        match self.input.get(self.place) {
            Some(byte) => {
                self.place = self.place.saturating_add(1);
                i128::from(*byte)
            }
            None => -1,
        }
    }

    fn act(&mut self, op: &Op) -> Result<(), Stop> {
        match *op {
            Op::LoadGlobal(w) => {
                let n = cell(&self.globals, w)?;
                self.frame.push(n)
            }
            Op::StoreGlobal(w) => {
                let n = self.frame.pop()?;
                set(&mut self.globals, w, n)?;
                self.frame.push(n)
            }
            Op::LoadGlobalAt(base, size) => {
                let at = element(base, size, self.frame.pop()?, 0)?;
                let n = cell(&self.globals, at)?;
                self.frame.push(n)
            }
            Op::StoreGlobalAt(base, size) => {
                let n = self.frame.pop()?;
                let at = element(base, size, self.frame.pop()?, 0)?;
                set(&mut self.globals, at, n)?;
                self.frame.push(n)
            }
            Op::GetChar => {
                let n = self.next();
                self.frame.push(n)
            }
            Op::PutChar(line) => self.put(line),
            _ => self.frame.act(op),
        }
    }

    fn put(&mut self, line: u32) -> Result<(), Stop> {
        if self.output.len() >= MOST_OUTPUT {
            return Err(trapped(Trap::OutputLimit, line));
        }
        let byte = low_byte(self.frame.pop()?);
        self.output.push(byte)?;
        self.frame.push(i128::from(byte))
    }

    /// A call begins with its arguments in its first cells; the caller goes on in the next block.
    fn call(&mut self, unit: &GraphUnit, function: u32, line: u32, next: u32) -> Result<(), Stop> {
        self.turn()?;
        if self.callers.len() >= MOST_FRAMES - 1 {
            return Err(trapped(Trap::CallDepth, line));
        }
        let graph = graph_at(unit, function)?;
        let mut frame = entered(self.alloc, function, graph)?;
        for behind in 0..graph.params {
            let argument = self.frame.pop()?;
            set(&mut frame.cells, graph.params - 1 - behind, argument)?;
        }
        self.frame.block = next;
        let caller = mem::replace(&mut self.frame, frame);
        self.callers.push(caller)?;
        Ok(())
    }

    /// The innermost call ends, with a number where its function gives one.
    fn leave(&mut self, gives: bool) -> Result<(), Stop> {
        let n = if gives { self.frame.pop()? } else { 0 };
        match self.callers.pop() {
            None => Err(Stop::Over(Outcome::Returned(low_byte(n)))),
            Some(caller) => {
                self.frame = caller;
                if gives { self.frame.push(n) } else { Ok(()) }
            }
        }
    }

    fn end(&mut self, unit: &GraphUnit, gives: bool, end: &Ending) -> Result<(), Stop> {
        match end {
            Ending::Jump(to) => self.frame.block = *to,
            Ending::Back(to) => {
                self.turn()?;
                self.frame.block = *to;
            }
            Ending::Branch(nonzero, zero) => {
                let n = self.frame.pop()?;
                self.frame.block = if n == 0 { *zero } else { *nonzero };
            }
            Ending::Switch(cases, default) => {
                let n = self.frame.pop()?;
                self.frame.block = chosen(cases, n, *default);
            }
            Ending::Call(function, line, next) => self.call(unit, *function, *line, *next)?,
            Ending::Return => self.leave(gives)?,
            Ending::Exit => {
                let n = self.frame.pop()?;
                return Err(Stop::Over(Outcome::Exited(low_byte(n))));
            }
        }
        Ok(())
    }

    /// One block.
    fn step(&mut self, unit: &GraphUnit) -> Result<(), Stop> {
        let graph = graph_at(unit, self.frame.function)?;
        let place = self.frame.block.checked_sub(2).ok_or(Stop::Broken)?;
        let block = graph.blocks.get(place as usize).ok_or(Stop::Broken)?;
        for op in &block.ops {
            self.act(op)?;
        }
        self.end(unit, graph.gives, &block.end)
    }

    /// As many blocks as it takes, at most so many.
    fn steps(&mut self, unit: &GraphUnit, blocks: u64) -> Stop {
        for _ in 0..blocks {
            if let Err(stop) = self.step(unit) {
                return stop;
            }
        }
        Stop::Broken
    }
}

/// The output of a run with so many turns, and why it stops. It is `Broken` behind so many blocks.
pub fn run(
    alloc: Global,
    unit: &GraphUnit,
    input: &[u8],
    turns: u64,
    blocks: u64,
) -> Result<(Vec<u8>, Stop), NoMemory> {
    let Ok(mut state) = State::new(alloc, unit, input, turns) else {
        return Err(NoMemory);
    };
    let stop = state.steps(unit, blocks);
    Ok((mem::replace(&mut state.output, Vec::new(alloc)), stop))
}
