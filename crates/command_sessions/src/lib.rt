//! Plays sessions of commands, written as texts, over objects in memory, and tells the first step
//! that comes out otherwise. It has no tests of its own.
//!
//! A session reads as one at a terminal:
//!
//! ```text
//! # A program that returns how many bytes `a` its input begins with.
//! file P.c
//! int main(void) {
//! int n = 0;
//! while (getchar() == 'a')
//! n++;
//! return n;
//! }
//! end
//! file aa.txt "aa"
//! folder P.c
//! $ build P.c
//! = 0 Done
//! there P.code P.gcno
//! $ run P < aa.txt
//! = 2 Ran(2)
//! $ report Q
//! ! cov: missing Q.gcno
//! = 120 Missing("Q.gcno")
//! ```
//!
//! Empty lines, and lines that begin with `#`, say nothing. The files of a session lie ready by
//! their names, where no command sees them; of two of one name the last counts:
//!
//! - `file NAME`: the lines up to a line `end` are a file, each with its newline.
//! - `file NAME "TEXT"`: so is what stands between the quotes, as it stands there.
//! - `hex NAME`: so are the bytes of the lines up to a line `end`, two hexadecimal digits each.
//! - `join NAME PART ..`: so are other files, one behind the other; `3*OTHER` is OTHER three times.
//! - `change NAME AT BYTES`: its bytes from number AT on, of which the first is 0, become these.
//! - `cut NAME COUNT`: it loses all but its first bytes, so many.
//! - `size NAME COUNT`: it must have so many bytes.
//!
//! The commands work in a folder, which is empty at first:
//!
//! - `folder NAME ..`: from here on there is a new folder with copies of these files alone;
//!   `NAME=OTHER` is a copy of OTHER under the name NAME.
//! - `keep NAME ..`, `keep NAME as OTHER`: the folder's files lie ready too, under their names or
//!   another.
//! - `fail folder NUMBER ..`: of the calls of the next folder those with these numbers fail, from 0
//!   on.
//! - `fail input NUMBER ..`, `fail output NUMBER ..`, `fail errors NUMBER ..`: so do those of the
//!   next command's standard input, output and error output.
//! - `$ WORDS`, `$ WORDS < NAME`: the command runs, on nothing or on that file as its standard
//!   input.
//!
//! What must have come stands behind the command and ends with its answer:
//!
//! - `> TEXT`: a line of the output; where it ends with `\`, its end has no newline.
//! - `output NAME`: what is in that file, further on in the output.
//! - `more`: at least a byte of output further on, which isn't shown.
//! - `! TEXT`: a line of the error output.
//! - `= STATUS ANSWER`: the exit status, and the answer as `Debug` prints it. No other output, and
//!   no other line of the error output, has come.
//!
//! Behind that line more can be said:
//!
//! - `holds NAME`: what is in that file stands somewhere in the output.
//! - `left COUNT`: so many bytes of standard input were left, up to 9.
//! - `same NAME ..`, `same NAME as OTHER`: the folder's files are the same as those that lie ready
//!   under their names or another.
//! - `changed NAME`, `changed NAME as OTHER`: the folder's file is there, but not the same.
//! - `begins NAME as OTHER`: it begins as the other.
//! - `there NAME ..`, `absent NAME ..`: the folder has files of these names, or none.
#![tactic(auto)]

mod bytes;
mod calls;
mod lines;
mod playing;
mod session;
mod shelf;
mod step;
mod stops;

pub use playing::play;
