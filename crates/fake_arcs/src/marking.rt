//! The blocks that block 2 reaches.

ghost use Rattle.std.specs.Prelude.{◌≡◌, ◌++◌, [], length, map, IfNone, IfOk, OnOk};
ghost use Rattle.std.specs.Option.{option_to_list};
ghost use Rattle.flow_graph.specs.GraphView.{ending_view};
ghost use Rattle.fake_arcs.specs.Marking.{goals_of, with_mark, with_marks, first_marked};
ghost use Rattle.fake_arcs.specs.Marking.{AreReached};

use flow_graph::{Block, Ending};
use std::alloc::{AllocError, Global};
use std::marker::Model;

/// A mark for each block, and the places of the marked ones whose targets were not marked yet.
#[derive(Drop)]
struct Marking {
    marks: Vec<bool>,
    todo: Vec<u32>,
}

impl Model for Marking {
    ghost use Rattle.fake_arcs.specs.Marking.{MarkingValue};

    ghost Value = { MarkingValue };

    ghost view = { λ m. record { marks = m.marks.items; todo = m.todo.items } };
}

impl Marking {
    /// Block 2 alone is marked.
    fn new(alloc: Global, blocks: usize) -> Result<Marking, AllocError>
        ensures { IfOk result (λ m. m ≡ first_marked blocks) }
    {
        let mut marking = Marking {
            marks: vec![in alloc; false; blocks]?,
            todo: Vec::new(alloc),
        };
        marking.mark(2)?;
        Ok(marking)
    }

    fn next(&mut self) -> Option<u32>
        ensures marks { self.new.marks ≡ self.old.marks }
        ensures todo { self.old.todo ≡ self.new.todo ++ option_to_list result }
        ensures end { IfNone result (self.old.todo ≡ []) }
    {
        self.todo.pop()
    }

    /// The block of this number is marked, if there is one that isn't.
    fn mark(&mut self, target: u32) -> Result<(), AllocError>
        ensures marked { OnOk result (self.new ≡ with_mark target self.old) }
        ensures len { length self.new.marks ≡ length self.old.marks }
    {
        if target < 2
            || (target - 2) as usize >= self.marks.len()
            || self.marks[(target - 2) as usize]
        {
            return Ok(());
        }
        self.todo.push(target - 2)?;
        self.marks[(target - 2) as usize] = true;
        Ok(())
    }

    fn mark_cases(&mut self, cases: &[(i128, u32)]) -> Result<(), AllocError>
        ensures marked { OnOk result (self.new ≡ with_marks (map (λ c. c.1) cases.now) self.old) }
        ensures len { length self.new.marks ≡ length self.old.marks }
    {
        for case in cases {
            self.mark(case.1)?;
        }
        Ok(())
    }

    /// The blocks that an ending goes to are marked.
    fn mark_targets(&mut self, end: &Ending) -> Result<(), AllocError>
        ensures marked { OnOk result
            (self.new ≡ with_marks (goals_of (ending_view end.now)) self.old) }
        ensures len { length self.new.marks ≡ length self.old.marks }
    {
        match end {
            Ending::Jump(target) => self.mark(*target),
            Ending::Back(target) => self.mark(*target),
            Ending::Branch(one, other) => {
                self.mark(*one)?;
                self.mark(*other)
            }
            Ending::Switch(cases, default) => {
                self.mark_cases(cases)?;
                self.mark(*default)?;
                Ok(())
            }
            Ending::Call(_, _, next) => self.mark(*next),
            Ending::Return => Ok(()),
            Ending::Exit => Ok(()),
        }
    }
}

/// Marks the blocks that block 2 reaches.
pub fn mark_reached(alloc: Global, blocks: &[Block]) -> Result<Vec<bool>, AllocError>
    ensures { IfOk result (λ m. AreReached blocks.now m.items) }
{
    let mut marking = Marking::new(alloc, blocks.len())?;
    while let Some(place) = marking.next() {
        let block = &blocks[place as usize];
        marking.mark_targets(&block.end)?;
    }
    Ok(marking.marks)
}
