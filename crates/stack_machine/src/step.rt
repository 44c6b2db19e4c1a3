//! One instruction.

ghost use Rattle.std.specs.Prelude.{◌≡◌};
ghost use Rattle.code_runs.specs.CodeRun.{does};
ghost use Rattle.stack_machine.specs.Points.{Ghosts, point, told, with_bytes, after, Keeps};
ghost use Rattle.stack_machine.specs.Ready.{Ready};

use crate::rows::RowStarts;
use crate::run::Run;
use crate::streams::Streams;
use int_ops::{BinOp, UnOp};
use stack_ops::{Code, FunctionCode, Op, Outcome};

impl Run {
    /// Does one instruction of a function, the rows of whose table start in these places. None
    /// where the run goes on.
    #[inline(always)]
    pub(crate) fn step<S: Streams>(
        &mut self,
        op: &Op,
        f: &FunctionCode,
        starts: &RowStarts,
        code: &Code,
        io: &mut S,
    ) -> Option<Outcome>
        requires ready { Ready code.now f.now starts.now op.now self.old }
        ensures effect { (s : Ghosts) → does code.now f.now op.now
            (point self.old (with_bytes (S.left io.old) (S.written io.old) s))
            ≡ told result
            (point self.new
            (after op.now result (with_bytes (S.left io.new) (S.written io.new) s))) }
        ensures keeps { Keeps self.old self.new }
    {
        macro_rules! arms {
            (two { $($two:ident)* } one { $($one:ident)* }) => {
                match *op {
                    Op::Push(n) => self.push(n),
                    Op::Dup => self.dup(),
                    Op::Drop => self.drop_top(),
                    Op::Swap => self.swap(),
                    Op::Over => self.over(),
                    Op::Convert(t) => self.convert_top(t),
                    Op::Not => self.not(),
                    Op::LoadLocal(w) => self.load_local(w),
                    Op::StoreLocal(w) => self.store_local(w),
                    Op::LoadGlobal(w) => self.load_global(w),
                    Op::StoreGlobal(w) => self.store_global(w),
                    Op::CheckIndex(size, line) => self.check_index(size, line),
                    Op::LoadLocalAt(base, size) => self.load_local_at(base, size),
                    Op::StoreLocalAt(base, size) => self.store_local_at(base, size),
                    Op::LoadGlobalAt(base, size) => self.load_global_at(base, size),
                    Op::StoreGlobalAt(base, size) => self.store_global_at(base, size),
                    $(Op::$two(t, line) => self.on_two(BinOp::$two, t, line),)*
                    $(Op::$one(t, line) => self.on_one(UnOp::$one, t, line),)*
                    Op::GetChar => self.get_char(io),
                    Op::PutChar(line) => self.put_char(line, io),
                    Op::Jump(w) => self.jump(w),
                    Op::Back(w) => self.back(w),
                    Op::IfZero(w) => self.if_zero(w),
                    Op::IfNot(w) => self.if_not(w),
                    Op::CaseJump(n, w) => self.case_jump(n, w),
                    Op::Call(g, line) => self.call(g, &code.functions[g as usize], line),
                    Op::Return => self.leave(f.gives),
                    Op::Exit => self.exit(),
                    Op::Count(n) => self.count(n),
                    Op::PathBegin => self.path_begin(&f.table),
                    Op::PathPass(w) => self.path_pass(w, starts.place(w), &f.table),
                }
            };
        }
        arms!(
            two {
                Mul Div Rem Add Sub Shl Shr
                Less Greater LessEqual GreaterEqual Equal NotEqual
                And Xor Or
            }
            one { Minus Complement }
        )
    }
}
