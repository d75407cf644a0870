//! The parts of a command line, as a table, and the command that clap makes of them.
ghost use Rattle.std.specs.Prelude.{◌≡◌, IfOk, false};
ghost use Rattle.clap.specs.Words.{app_of, rule_of};
ghost use Rattle.fmp_cli.specs.Parts.{IsArg, IsLine, IsNumber, IsOptional, IsRequired, IsStart, IsTaking, AddsParts};
ghost use Rattle.fmp_cli.specs.Parts.{choice_rule, flag_rule, name_rule, number_rule, path_rule, seed_rule, value_rule, wanted_rule};

use clap::builder::ValueParser;
use clap::{Arg, ArgAction, Command};
use std::alloc::{AllocError, Global};

/// How a part of a command line is given. A text in it is what the help calls its value.
#[derive(Clone, Copy)]
pub enum Form<'a> {
    /// By its place, and it has to be given.
    Path,
    /// By its place, and it may be left out.
    Name,
    /// As an option with a value, which has to be given.
    Wanted(&'a str),
    /// As an option with a value, which may be left out.
    Value(&'a str),
    /// As an option with a number from one to another, which has to be given.
    Number(u32, u32),
    /// As an option with a number of 64 bits, which may be left out.
    Seed,
    /// As an option without a value.
    Flag,
    /// As an option without a value, which goes without the part of this id.
    Choice(&'a str),
    /// As an option without a value, which goes without the parts of these ids.
    OneOfThree(&'a str, &'a str),
}

/// A part of a command line.
#[derive(Clone, Copy)]
pub struct Part<'a> {
    /// By it clap finds what is given, and an option is called so.
    pub id: &'a str,
    pub form: Form<'a>,
    /// What the help says of it.
    pub about: &'a str,
}

/// The path of the configuration.
pub const CONFIG_PART: Part<'static> = Part {
    id: "CFG",
    form: Form::Path,
    about: "Path of the configuration",
};

/// The path of scripts.
pub const SCRIPTS_PART: Part<'static> = Part {
    id: "SCRIPTS",
    form: Form::Path,
    about: "Path of the scripts, or - for standard input",
};

/// The path of a list of events.
pub const EVENTS_PART: Part<'static> = Part {
    id: "EVENTS",
    form: Form::Path,
    about: "Path of the list of events, or - for standard input",
};

/// The flag to show what stands beside a fault.
pub const CONTEXT_PART: Part<'static> = Part {
    id: "context",
    form: Form::Flag,
    about: "Shows below a fault its line, its place and what is expected there; at a terminal by itself, unless there is --no-context",
};

/// The option that has it told how far a long run has come.
pub const PROGRESS_PART: Part<'static> = Part {
    id: "progress",
    form: Form::Flag,
    about: "Tells on standard error how far it has come, a line a second; at a terminal by itself",
};

/// The option that ends a search.
pub const SECONDS_PART: Part<'static> = Part {
    id: "seconds",
    form: Form::Seed,
    about: "After how many seconds a search ends that has found nothing",
};

/// The option that says when a trace is coloured.
pub const COLOUR_PART: Part<'static> = Part {
    id: "color",
    form: Form::Value("WHEN"),
    about: "When the trace is coloured: auto, always or never",
};

/// What a subcommand is called, and what the help says of it.
#[derive(Clone, Copy)]
pub struct Title<'a> {
    pub name: &'a str,
    /// With the program's name before it.
    pub bin_name: &'a str,
    /// In a line.
    pub about: &'a str,
    /// Below its parts.
    pub help: &'a str,
}

/// What is given by its place, and may be left out.
fn name<'a>(alloc: Global, id: &'a str, about: &'a str) -> Arg<'a>
    ensures kind { IsTaking result id.entry.now }
    ensures rule { rule_of result ≡ name_rule id.entry.now }
{
    Arg::new(alloc, id).action(ArgAction::Set).help(about)
}

/// What is given by its place, and has to be given.
fn path<'a>(alloc: Global, id: &'a str, about: &'a str) -> Arg<'a>
    ensures kind { IsRequired result id.entry.now }
    ensures rule { rule_of result ≡ path_rule id.entry.now }
{
    name(alloc, id, about).required(true)
}

/// An option with a value that may be left out.
fn value<'a>(alloc: Global, id: &'a str, value: &'a str, about: &'a str) -> Arg<'a>
    ensures kind { IsTaking result id.entry.now }
    ensures rule { rule_of result ≡ value_rule id.entry.now }
{
    name(alloc, id, about).long(id).value_name(value)
}

/// An option with a value that has to be given.
fn wanted<'a>(alloc: Global, id: &'a str, word: &'a str, about: &'a str) -> Arg<'a>
    ensures kind { IsRequired result id.entry.now }
    ensures rule { rule_of result ≡ wanted_rule id.entry.now }
{
    value(alloc, id, word, about).required(true)
}

/// An option with a number from low to high, which has to be given.
fn number<'a>(alloc: Global, id: &'a str, low: u32, high: u32, about: &'a str) -> Arg<'a>
    ensures kind { IsNumber result id.entry.now low high }
    ensures rule { rule_of result ≡ number_rule id.entry.now low high }
{
    let parser = ValueParser::signed(i64::from(low), i64::from(high));
    wanted(alloc, id, "N", about).value_parser(parser)
}

/// An option with a number of 64 bits, which may be left out.
fn seed<'a>(alloc: Global, id: &'a str, about: &'a str) -> Arg<'a>
    ensures kind { IsOptional result id.entry.now }
    ensures rule { rule_of result ≡ seed_rule id.entry.now }
{
    value(alloc, id, "N", about).value_parser(clap::value_parser!(u64))
}

/// An option without a value.
fn flag<'a>(alloc: Global, id: &'a str, about: &'a str) -> Arg<'a>
    ensures kind { IsOptional result id.entry.now }
    ensures rule { rule_of result ≡ flag_rule id.entry.now }
{
    Arg::new(alloc, id)
        .long(id)
        .action(ArgAction::SetTrue)
        .help(about)
}

/// An option without a value, which goes without the other two.
fn one_of_three<'a>(
    alloc: Global,
    id: &'a str,
    second: &'a str,
    third: &'a str,
    about: &'a str,
) -> Result<Arg<'a>, AllocError>
    ensures kind { IfOk result (λ a. (a.id.now ≡ id.entry.now) × (a.global ≡ false)) }
    ensures rule { IfOk result (λ a. rule_of a ≡ choice_rule id.entry.now) }
{
    flag(alloc, id, about)
        .conflicts_with(second)?
        .conflicts_with(third)
}

/// The argument that a part is.
fn arg_of<'a>(alloc: Global, part: Part<'a>) -> Result<Arg<'a>, AllocError>
    ensures { IfOk result (IsArg part.entry) }
{
    let Part { id, form, about } = part;
    match form {
        Form::Path => Ok(path(alloc, id, about)),
        Form::Name => Ok(name(alloc, id, about)),
        Form::Wanted(word) => Ok(wanted(alloc, id, word, about)),
        Form::Value(word) => Ok(value(alloc, id, word, about)),
        Form::Number(low, high) => Ok(number(alloc, id, low, high, about)),
        Form::Seed => Ok(seed(alloc, id, about)),
        Form::Flag => Ok(flag(alloc, id, about)),
        Form::Choice(other) => flag(alloc, id, about).conflicts_with(other),
        Form::OneOfThree(second, third) => one_of_three(alloc, id, second, third, about),
    }
}

/// The command without its parts.
fn start<'a>(alloc: Global, title: Title<'a>) -> Result<Command<'a>, AllocError>
    ensures { IfOk result (IsStart title.entry.name.now) }
{
    Command::new(alloc, title.name)
        .about(title.about)
        .after_help(title.help)
        .bin_name(title.bin_name)
}

/// The command with its parts.
fn with_parts<'a>(
    alloc: Global,
    empty: Command<'a>,
    parts: &[Part<'a>],
) -> Result<Command<'a>, AllocError>
    ensures { IfOk result (AddsParts empty.entry parts.now) }
{
    let mut command = empty;
    for part in parts {
        command = command.arg(arg_of(alloc, *part)?)?;
    }
    Ok(command)
}

/// The command of this title with these parts.
pub fn line<'a>(
    alloc: Global,
    title: Title<'a>,
    parts: &[Part<'a>],
) -> Result<Command<'a>, AllocError>
    ensures { IfOk result (IsLine title.entry.name.now parts.now) }
{
    let empty = start(alloc, title)?;
    with_parts(alloc, empty, parts)
}
