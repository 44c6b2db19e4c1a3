//! The lines of sessions.

/// What calls can fail of.
#[derive(Clone, Copy)]
pub(crate) enum Side {
    Folder,
    Input,
    Output,
    Errors,
}

/// What a line of a session says; the crate's page tells each.
#[derive(Clone, Copy)]
pub(crate) enum Line<'a> {
    Remark,
    File(&'a str),
    Text(&'a str, &'a str),
    Hex(&'a str),
    Join(&'a str, &'a str),
    Change(&'a str, usize, &'a str),
    Cut(&'a str, usize),
    Size(&'a str, usize),
    Folder(&'a str),
    Keep(&'a str),
    Fail(Side, &'a str),
    Command(&'a str, Option<&'a str>),
    Output(&'a str),
    OutputFile(&'a str),
    More,
    Errors(&'a str),
    Answer(&'a str, &'a str),
    Holds(&'a str),
    Left(&'a str),
    Same(&'a str),
    Changed(&'a str, &'a str),
    Begins(&'a str, &'a str),
    There(&'a str),
    Absent(&'a str),
}

/// What a line says, if it is a line of a session.
pub(crate) fn line_of(text: &str) -> Option<Line<'_>> {
    if text.is_empty() || text.starts_with('#') {
        return Some(Line::Remark);
    }
    let (word, rest) = text.split_once(' ').unwrap_or((text, ""));
    if let Some(line) = file_line(word, rest) {
        return Some(line);
    }
    if let Some(line) = call_line(word, rest) {
        return Some(line);
    }
    if let Some(line) = written_line(word, rest) {
        return Some(line);
    }
    left_line(word, rest)
}

/// A line that says which file lies ready.
fn file_line<'a>(word: &str, rest: &'a str) -> Option<Line<'a>> {
    match word {
        "file" => text_line(rest),
        "hex" => Some(Line::Hex(rest)),
        "join" => {
            let (name, parts) = rest.split_once(' ')?;
            Some(Line::Join(name, parts))
        }
        "change" => change_line(rest),
        "cut" => {
            let (name, count) = counted(rest)?;
            Some(Line::Cut(name, count))
        }
        "size" => {
            let (name, count) = counted(rest)?;
            Some(Line::Size(name, count))
        }
        _ => None,
    }
}

/// A file by its name, or by its name and its text between quotes.
fn text_line(rest: &str) -> Option<Line<'_>> {
    match rest.split_once(' ') {
        Some((name, quoted)) => {
            let text = quoted.strip_prefix('"')?.strip_suffix('"')?;
            Some(Line::Text(name, text))
        }
        None => Some(Line::File(rest)),
    }
}

/// A name, a place and bytes.
fn change_line(rest: &str) -> Option<Line<'_>> {
    let (name, change) = rest.split_once(' ')?;
    let (place, bytes) = change.split_once(' ')?;
    Some(Line::Change(name, place.parse::<usize>().ok()?, bytes))
}

/// A name and a number.
fn counted(rest: &str) -> Option<(&str, usize)> {
    let (name, count) = rest.split_once(' ')?;
    Some((name, count.parse::<usize>().ok()?))
}

/// Two names, of which the second is the first where none stands there.
fn two_names(rest: &str) -> (&str, &str) {
    rest.split_once(" as ").unwrap_or((rest, rest))
}

/// A line of folders and commands.
fn call_line<'a>(word: &str, rest: &'a str) -> Option<Line<'a>> {
    match word {
        "folder" => Some(Line::Folder(rest)),
        "keep" => Some(Line::Keep(rest)),
        "fail" => {
            let (side, numbers) = rest.split_once(' ')?;
            Some(Line::Fail(side_of(side)?, numbers))
        }
        "$" => Some(command_line(rest)),
        _ => None,
    }
}

/// What has this name.
fn side_of(name: &str) -> Option<Side> {
    match name {
        "folder" => Some(Side::Folder),
        "input" => Some(Side::Input),
        "output" => Some(Side::Output),
        "errors" => Some(Side::Errors),
        _ => None,
    }
}

/// The words of a command, with the name of its input where one stands there.
fn command_line(rest: &str) -> Line<'_> {
    if let Some(name) = rest.strip_prefix("< ") {
        return Line::Command("", Some(name));
    }
    match rest.split_once(" < ") {
        Some((words, name)) => Line::Command(words, Some(name)),
        None => Line::Command(rest, None),
    }
}

/// A line of what a command wrote and answered.
fn written_line<'a>(word: &str, rest: &'a str) -> Option<Line<'a>> {
    match word {
        ">" => Some(Line::Output(rest)),
        "output" => Some(Line::OutputFile(rest)),
        "more" => Some(Line::More),
        "!" => Some(Line::Errors(rest)),
        "=" => {
            let (status, answer) = rest.split_once(' ')?;
            Some(Line::Answer(status, answer))
        }
        _ => None,
    }
}

/// A line of what a command left.
fn left_line<'a>(word: &str, rest: &'a str) -> Option<Line<'a>> {
    let (name, other) = two_names(rest);
    match word {
        "holds" => Some(Line::Holds(rest)),
        "left" => Some(Line::Left(rest)),
        "same" => Some(Line::Same(rest)),
        "changed" => Some(Line::Changed(name, other)),
        "begins" => Some(Line::Begins(name, other)),
        "there" => Some(Line::There(rest)),
        "absent" => Some(Line::Absent(rest)),
        _ => None,
    }
}
