//! A session under way.

use crate::bytes::{differ, expect_bytes, expect_front, push_hex};
use crate::calls::{Call, outcome_of, words_in};
use crate::lines::{Line, Side, line_of};
use crate::shelf::Shelf;
use crate::step::Step;
use crate::stops::{Stop, told};
use cov_outside::MemFolder;
use std::alloc::Global;
use std::mem;

/// A file whose lines are read: its name, what was read, and whether the lines are hexadecimal.
#[derive(Drop)]
struct Block {
    name: String,
    bytes: Vec<u8>,
    hex: bool,
}

/// The numbers of the calls that fail.
#[derive(Drop)]
struct Fails {
    folder: Vec<u64>,
    input: Vec<u64>,
    out: Vec<u64>,
    err: Vec<u64>,
}

impl Fails {
    fn new(alloc: Global) -> Fails {
        Fails {
            folder: Vec::new(alloc),
            input: Vec::new(alloc),
            out: Vec::new(alloc),
            err: Vec::new(alloc),
        }
    }

    fn is_empty(&self) -> bool {
        let inside = self.folder.is_empty() && self.input.is_empty();
        inside && self.out.is_empty() && self.err.is_empty()
    }
}

/// What lies ready, the file whose lines are read, the folder, what fails next, and the last
/// command.
#[derive(Drop)]
pub(crate) struct Session {
    alloc: Global,
    shelf: Shelf,
    block: Option<Block>,
    folder: MemFolder,
    fails: Fails,
    step: Option<Step>,
}

impl Session {
    pub(crate) fn new(alloc: Global) -> Session {
        Session {
            alloc,
            shelf: Shelf::new(alloc),
            block: None,
            folder: MemFolder::new(alloc, Vec::new(alloc), Vec::new(alloc)),
            fails: Fails::new(alloc),
            step: None,
        }
    }

    /// Plays a line.
    pub(crate) fn play_line(&mut self, text: &str) -> Result<(), Stop> {
        if let Some(block) = mem::replace(&mut self.block, None) {
            return self.play_block(block, text);
        }
        let Some(line) = line_of(text) else {
            return Err(told(self.alloc, "no line of a session is", text));
        };
        self.play_known(line)
    }

    /// Ends the session.
    pub(crate) fn end(&self) -> Result<(), Stop> {
        if let Some(block) = &self.block {
            return Err(told(self.alloc, "no line ends", block.name.as_str()));
        }
        if !self.fails.is_empty() {
            return Err(told(self.alloc, "nothing fails behind the last line", "fail"));
        }
        self.expect_told()
    }

    /// Plays a line of a file.
    fn play_block(&mut self, block: Block, text: &str) -> Result<(), Stop> {
        let Block {
            name,
            mut bytes,
            hex,
        } = block;
        if text == "end" {
            return self.shelf.put(name.as_str(), bytes);
        }
        if hex {
            push_hex(self.alloc, &mut bytes, text)?;
        } else {
            bytes.extend_from_slice(text.as_bytes())?;
            bytes.push(b'\n')?;
        }
        self.block = Some(Block { name, bytes, hex });
        Ok(())
    }

    /// Plays a line of each kind.
    fn play_known(&mut self, line: Line<'_>) -> Result<(), Stop> {
        match line {
            Line::Remark => Ok(()),
            Line::File(name) => self.open(name, false),
            Line::Hex(name) => self.open(name, true),
            Line::Text(name, text) => self.shelf.put_text(name, text),
            Line::Join(name, parts) => self.shelf.join(name, parts),
            Line::Change(name, place, numbers) => self.shelf.change(name, place, numbers),
            Line::Cut(name, count) => self.shelf.cut(name, count),
            Line::Size(name, count) => self.shelf.expect_size(name, count),
            Line::Folder(names) => self.make_folder(names),
            Line::Keep(names) => self.keep(names),
            Line::Fail(side, numbers) => self.fail(side, numbers),
            Line::Command(words, input) => self.run(words, input),
            Line::Output(text) => self.last()?.expect_line(text),
            Line::OutputFile(name) => self.expect_output(name),
            Line::More => self.last()?.expect_more(),
            Line::Errors(text) => self.last()?.expect_error(text),
            Line::Answer(status, end) => self.last()?.expect_answer(status, end),
            Line::Holds(name) => self.expect_holds(name),
            Line::Left(count) => self.last()?.expect_left(count),
            Line::Same(names) => self.expect_same(names),
            Line::Changed(name, other) => self.expect_changed(name, other),
            Line::Begins(name, other) => self.expect_begins(name, other),
            Line::There(names) => self.expect_there(names),
            Line::Absent(names) => self.expect_absent(names),
        }
    }

    /// The last command.
    fn last(&mut self) -> Result<&mut Step, Stop> {
        match &mut self.step {
            Some(step) => Ok(step),
            None => Err(told(self.alloc, "no command stands", "before")),
        }
    }

    /// Takes note of output that is in a file.
    fn expect_output(&mut self, name: &str) -> Result<(), Stop> {
        let bytes = self.shelf.copy(name)?;
        self.last()?.expect_out(&bytes)
    }

    /// Asserts that the last output holds what is in a file.
    fn expect_holds(&mut self, name: &str) -> Result<(), Stop> {
        let piece = self.shelf.copy(name)?;
        self.last()?.expect_piece(&piece)
    }

    /// Begins a file.
    fn open(&mut self, name: &str, hex: bool) -> Result<(), Stop> {
        self.block = Some(Block {
            name: String::from_str(self.alloc, name)?,
            bytes: Vec::new(self.alloc),
            hex,
        });
        Ok(())
    }

    /// Makes a new folder.
    fn make_folder(&mut self, names: &str) -> Result<(), Stop> {
        self.expect_told()?;
        let mut files = Vec::new(self.alloc);
        for entry in names.split_whitespace() {
            let (name, from) = entry.split_once('=').unwrap_or((entry, entry));
            let name = String::from_str(self.alloc, name)?;
            files.push((name, self.shelf.copy(from)?))?;
        }
        let fails = mem::replace(&mut self.fails.folder, Vec::new(self.alloc));
        self.folder = MemFolder::new(self.alloc, files, fails);
        Ok(())
    }

    /// The folder's file.
    fn found(&self, name: &str) -> Result<&[u8], Stop> {
        match self.folder.get(name) {
            Some(bytes) => Ok(bytes),
            None => Err(told(self.alloc, "the folder has no", name)),
        }
    }

    /// Puts files of the folder with those that lie ready, or one under another name.
    fn keep(&mut self, names: &str) -> Result<(), Stop> {
        self.expect_told()?;
        if let Some((name, other)) = names.split_once(" as ") {
            return self.keep_as(name, other);
        }
        for name in names.split_whitespace() {
            self.keep_as(name, name)?;
        }
        Ok(())
    }

    /// Puts a file of the folder with those that lie ready.
    fn keep_as(&mut self, name: &str, other: &str) -> Result<(), Stop> {
        let bytes = self.found(name)?.to_vec(self.alloc)?;
        self.shelf.put(other, bytes)
    }

    /// Takes note of calls that fail.
    fn fail(&mut self, side: Side, numbers: &str) -> Result<(), Stop> {
        let mut fails = Vec::new(self.alloc);
        for number in numbers.split_whitespace() {
            let Ok(number) = number.parse::<u64>() else {
                return Err(told(self.alloc, "no number", number));
            };
            fails.push(number)?;
        }
        match side {
            Side::Folder => self.fails.folder = fails,
            Side::Input => self.fails.input = fails,
            Side::Output => self.fails.out = fails,
            Side::Errors => self.fails.err = fails,
        }
        Ok(())
    }

    /// The standard input of this name.
    fn input_of(&self, name: Option<&str>) -> Result<Vec<u8>, Stop> {
        match name {
            Some(name) => self.shelf.copy(name),
            None => Ok(Vec::new(self.alloc)),
        }
    }

    /// Runs a command.
    fn run(&mut self, words: &str, input: Option<&str>) -> Result<(), Stop> {
        self.expect_told()?;
        let alloc = self.alloc;
        let call = Call {
            words: words_in(alloc, words)?,
            input: self.input_of(input)?,
            in_input: mem::replace(&mut self.fails.input, Vec::new(alloc)),
            in_out: mem::replace(&mut self.fails.out, Vec::new(alloc)),
            in_err: mem::replace(&mut self.fails.err, Vec::new(alloc)),
        };
        let came = outcome_of(alloc, call, &mut self.folder)?;
        self.step = Some(Step::new(alloc, came));
        Ok(())
    }

    /// Asserts that the last command's answer was told.
    fn expect_told(&self) -> Result<(), Stop> {
        match &self.step {
            Some(step) => step.expect_told(),
            None => Ok(()),
        }
    }

    /// Asserts that files of the folder are those that lie ready, or that one is another.
    fn expect_same(&self, names: &str) -> Result<(), Stop> {
        self.expect_told()?;
        if let Some((name, other)) = names.split_once(" as ") {
            return self.expect_file(name, other);
        }
        for name in names.split_whitespace() {
            self.expect_file(name, name)?;
        }
        Ok(())
    }

    /// Asserts that a file of the folder is one that lies ready.
    fn expect_file(&self, name: &str, other: &str) -> Result<(), Stop> {
        expect_bytes(self.alloc, name, self.shelf.get(other)?, self.found(name)?)
    }

    /// Asserts that a file of the folder isn't one that lies ready.
    fn expect_changed(&self, name: &str, other: &str) -> Result<(), Stop> {
        self.expect_told()?;
        let expected = self.shelf.get(other)?;
        let came = self.found(name)?;
        if expected == came {
            return Err(differ(self.alloc, "the same file", expected, came));
        }
        Ok(())
    }

    /// Asserts that a file of the folder begins as one that lies ready.
    fn expect_begins(&self, name: &str, other: &str) -> Result<(), Stop> {
        self.expect_told()?;
        expect_front(self.alloc, name, self.shelf.get(other)?, self.found(name)?)
    }

    /// Asserts that the folder has files of these names.
    fn expect_there(&self, names: &str) -> Result<(), Stop> {
        self.expect_told()?;
        for name in names.split_whitespace() {
            self.found(name)?;
        }
        Ok(())
    }

    /// Asserts that the folder has no files of these names.
    fn expect_absent(&self, names: &str) -> Result<(), Stop> {
        self.expect_told()?;
        for name in names.split_whitespace() {
            if self.folder.get(name).is_some() {
                return Err(told(self.alloc, "the folder has", name));
            }
        }
        Ok(())
    }
}
