//! What `clap` is told of each command: its options, and the names behind them.

ghost use Rattle.std.specs.Prelude.{◌≡◌, false, IfOk};
ghost use Rattle.clap.specs.Words.{app_of, rule_of};
ghost use Rattle.cov_words.specs.Syntax as spec;

use clap::{Arg, ArgAction, Command};
use std::alloc::{AllocError, Global};

/// The name of a command.
#[derive(Clone, Copy)]
pub enum CommandName {
    Cover,
    Build,
    Run,
    Report,
    Merge,
    Make,
}

/// The command of this name, if there is one.
pub fn named(name: &str) -> Option<CommandName>
    ensures { result ≡ spec.named name.now }
{
    if name == "cover" {
        Some(CommandName::Cover)
    } else if name == "build" {
        Some(CommandName::Build)
    } else if name == "run" {
        Some(CommandName::Run)
    } else if name == "report" {
        Some(CommandName::Report)
    } else if name == "merge" {
        Some(CommandName::Merge)
    } else if name == "make" {
        Some(CommandName::Make)
    } else {
        None
    }
}

/// An option with a value, as `--turns N`.
fn option<'a>(alloc: Global, name: &'a str) -> Arg<'a>
    ensures rule { rule_of result ≡ spec.option_rule name.entry.now }
    ensures local { result.global ≡ false }
{
    Arg::new(alloc, name).long(name).action(ArgAction::Set)
}

/// An option without a value, as `--plain`.
fn flag<'a>(alloc: Global, name: &'a str) -> Arg<'a>
    ensures rule { rule_of result ≡ spec.flag_rule name.entry.now }
    ensures local { result.global ≡ false }
{
    Arg::new(alloc, name).long(name).action(ArgAction::SetTrue)
}

/// A word that must stand there.
fn word<'a>(alloc: Global, id: &'a str) -> Arg<'a>
    ensures rule { rule_of result ≡ spec.word_rule id.entry.now }
    ensures local { result.global ≡ false }
{
    Arg::new(alloc, id).required(true).action(ArgAction::Set)
}

/// One or more words, behind all others.
fn words<'a>(alloc: Global, id: &'a str) -> Arg<'a>
    ensures rule { rule_of result ≡ spec.words_rule id.entry.now }
    ensures local { result.global ≡ false }
{
    Arg::new(alloc, id)
        .required(true)
        .num_args(1..)
        .action(ArgAction::Append)
}

/// A command of this name, without help and version.
fn bare<'a>(alloc: Global, name: &'a str) -> Command<'a>
    ensures { app_of result ≡ spec.bare_app name.entry.now }
{
    Command::new(alloc, name)
        .disable_help_flag(true)
        .disable_version_flag(true)
}

fn cover<'a>(alloc: Global) -> Result<Command<'a>, AllocError>
    ensures { IfOk result (λ command. app_of command ≡ spec.cover_app) }
{
    let command = bare(alloc, "cover")
        .arg(option(alloc, "turns"))?
        .arg(option(alloc, "path-limit"))?
        .arg(word(alloc, "SRC"))?
        .arg(words(alloc, "IN"))?;
    Ok(command)
}

fn build<'a>(alloc: Global) -> Result<Command<'a>, AllocError>
    ensures { IfOk result (λ command. app_of command ≡ spec.build_app) }
{
    let command = bare(alloc, "build")
        .arg(flag(alloc, "plain"))?
        .arg(option(alloc, "path-limit"))?
        .arg(word(alloc, "SRC"))?;
    Ok(command)
}

fn run<'a>(alloc: Global) -> Result<Command<'a>, AllocError>
    ensures { IfOk result (λ command. app_of command ≡ spec.run_app) }
{
    let command = bare(alloc, "run")
        .arg(option(alloc, "turns"))?
        .arg(word(alloc, "NAME"))?;
    Ok(command)
}

fn report<'a>(alloc: Global) -> Result<Command<'a>, AllocError>
    ensures { IfOk result (λ command. app_of command ≡ spec.report_app) }
{
    let command = bare(alloc, "report").arg(word(alloc, "NAME"))?;
    Ok(command)
}

fn merge<'a>(alloc: Global) -> Result<Command<'a>, AllocError>
    ensures { IfOk result (λ command. app_of command ≡ spec.merge_app) }
{
    let command = bare(alloc, "merge")
        .arg(word(alloc, "A"))?
        .arg(word(alloc, "B"))?
        .arg(word(alloc, "OUT"))?;
    Ok(command)
}

fn make<'a>(alloc: Global) -> Result<Command<'a>, AllocError>
    ensures { IfOk result (λ command. app_of command ≡ spec.make_app) }
{
    let command = bare(alloc, "make").arg(word(alloc, "N"))?;
    Ok(command)
}

/// What `clap` is told of the command.
pub fn syntax_of<'a>(alloc: Global, name: CommandName) -> Result<Command<'a>, AllocError>
    ensures { IfOk result (λ command. app_of command ≡ spec.app_for name) }
{
    match name {
        CommandName::Cover => cover(alloc),
        CommandName::Build => build(alloc),
        CommandName::Run => run(alloc),
        CommandName::Report => report(alloc),
        CommandName::Merge => merge(alloc),
        CommandName::Make => make(alloc),
    }
}
