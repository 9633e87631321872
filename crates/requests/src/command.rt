//! The simple command of each tool.

ghost use Rattle.std.specs.Prelude.{◌≡◌, IfOk, false};
ghost use Rattle.clap.specs.Words.{app_of, rule_of};
ghost use Rattle.requests.specs.Commands.{command_of, count_rule, seed_rule, size_rule};
ghost use Rattle.requests.specs.Commands.{openings_rule, concat_rule, ascent_rule, split_rule, pieces_rule, solve_rule, as_stp_rule};
ghost use Rattle.requests.specs.Commands.{above_rule, points_rule, stp_rule, option_rule, operand_rule};
ghost use Rattle.requests.specs.Commands.{search_rules, choice_rules, with_rules};
ghost use Rattle.requests.specs.declared.tool.Tool.TheVariants as tool;

use clap::{Arg, ArgAction, Command, value_parser};
use std::alloc::{AllocError, Global};

/// `points COUNT SEED`
pub(crate) fn points<'a>(alloc: Global) -> Result<Command<'a>, AllocError>
    ensures { IfOk result (λ command. app_of command ≡ command_of tool.Points) }
{
    Command::new(alloc, "points")
        .arg(count(alloc))?
        .arg(seed(alloc))
}

/// `stp2points`
pub(crate) fn stp2points<'a>(alloc: Global) -> Command<'a>
    ensures { app_of result ≡ command_of tool.Stp2points }
{
    Command::new(alloc, "stp2points")
}

/// `rfst [--size SIZE]`
pub(crate) fn rfst<'a>(alloc: Global) -> Result<Command<'a>, AllocError>
    ensures { IfOk result (λ command. app_of command ≡ command_of tool.Rfst) }
{
    Command::new(alloc, "rfst").arg(size(alloc))
}

/// `prunefst`
pub(crate) fn prunefst<'a>(alloc: Global) -> Command<'a>
    ensures { app_of result ≡ command_of tool.Prunefst }
{
    Command::new(alloc, "prunefst")
}

/// `bb` with the options of a search
pub(crate) fn bb<'a>(alloc: Global) -> Result<Command<'a>, AllocError>
    ensures { IfOk result (λ command. app_of command ≡ command_of tool.Bb) }
{
    searching(alloc, Command::new(alloc, "bb"))
}

/// `solve [--size SIZE]` with the options of a search
pub(crate) fn solve<'a>(alloc: Global) -> Result<Command<'a>, AllocError>
    ensures { IfOk result (λ command. app_of command ≡ command_of tool.Solve) }
{
    searching(alloc, Command::new(alloc, "solve").arg(size(alloc))?)
}

/// `check POINTS`
pub(crate) fn check<'a>(alloc: Global) -> Result<Command<'a>, AllocError>
    ensures { IfOk result (λ command. app_of command ≡ command_of tool.Check) }
{
    Command::new(alloc, "check").arg(points_file(alloc))
}

/// `dumpfst [--pieces]`
pub(crate) fn dumpfst<'a>(alloc: Global) -> Result<Command<'a>, AllocError>
    ensures { IfOk result (λ command. app_of command ≡ command_of tool.Dumpfst) }
{
    Command::new(alloc, "dumpfst").arg(pieces(alloc))
}

/// `fst2graph`
pub(crate) fn fst2graph<'a>(alloc: Global) -> Command<'a>
    ensures { app_of result ≡ command_of tool.Fst2graph }
{
    Command::new(alloc, "fst2graph")
}

/// `plot POINTS`
pub(crate) fn plot<'a>(alloc: Global) -> Result<Command<'a>, AllocError>
    ensures { IfOk result (λ command. app_of command ≡ command_of tool.Plot) }
{
    Command::new(alloc, "plot").arg(points_file(alloc))
}

/// `trial COUNT SEED`
pub(crate) fn trial<'a>(alloc: Global) -> Result<Command<'a>, AllocError>
    ensures { IfOk result (λ command. app_of command ≡ command_of tool.Trial) }
{
    Command::new(alloc, "trial")
        .arg(count(alloc))?
        .arg(seed(alloc))
}

/// `upgrade POINTS`
pub(crate) fn upgrade<'a>(alloc: Global) -> Result<Command<'a>, AllocError>
    ensures { IfOk result (λ command. app_of command ≡ command_of tool.Upgrade) }
{
    Command::new(alloc, "upgrade").arg(points_file(alloc))
}

/// `graph [--openings COUNT] [--ascent RULE] [--split RULE]`
pub(crate) fn graph<'a>(alloc: Global) -> Result<Command<'a>, AllocError>
    ensures { IfOk result (λ command. app_of command ≡ command_of tool.Graph) }
{
    choosing(alloc, Command::new(alloc, "graph").arg(openings(alloc))?)
}

/// `checkgraph STP`
pub(crate) fn checkgraph<'a>(alloc: Global) -> Result<Command<'a>, AllocError>
    ensures { IfOk result (λ command. app_of command ≡ command_of tool.Checkgraph) }
{
    Command::new(alloc, "checkgraph").arg(stp_file(alloc))
}

/// `reduce [--solve]`
pub(crate) fn reduce<'a>(alloc: Global) -> Result<Command<'a>, AllocError>
    ensures { IfOk result (λ command. app_of command ≡ command_of tool.Reduce) }
{
    Command::new(alloc, "reduce").arg(solving(alloc))
}

/// `obstacles [--stp] [--openings COUNT] [--ascent RULE] [--split RULE]`
pub(crate) fn obstacles<'a>(alloc: Global) -> Result<Command<'a>, AllocError>
    ensures { IfOk result (λ command. app_of command ≡ command_of tool.Obstacles) }
{
    let command = Command::new(alloc, "obstacles");
    choosing(alloc, command.arg(as_stp(alloc))?.arg(openings(alloc))?)
}

/// `slack [--above LENGTH] [--ascent RULE]`
pub(crate) fn slack<'a>(alloc: Global) -> Result<Command<'a>, AllocError>
    ensures { IfOk result (λ command. app_of command ≡ command_of tool.Slack) }
{
    Command::new(alloc, "slack")
        .arg(above(alloc))?
        .arg(ascent(alloc))
}

// The command with the options of a search: `[--openings COUNT] [--concat COUNT] [--ascent RULE] [--split RULE]`.
fn searching<'a>(alloc: Global, command: Command<'a>) -> Result<Command<'a>, AllocError>
    ensures { IfOk result (λ searching. app_of searching ≡ with_rules (app_of command.entry) search_rules) }
{
    choosing(alloc, command.arg(openings(alloc))?.arg(concat(alloc))?)
}

// The command with the options that choose rules: `[--ascent RULE] [--split RULE]`.
fn choosing<'a>(alloc: Global, command: Command<'a>) -> Result<Command<'a>, AllocError>
    ensures { IfOk result (λ choosing. app_of choosing ≡ with_rules (app_of command.entry) choice_rules) }
{
    command.arg(ascent(alloc))?.arg(split(alloc))
}

fn openings<'a>(alloc: Global) -> Arg<'a>
    ensures rule { rule_of result ≡ openings_rule }
    ensures own { result.global ≡ false }
{
    option(alloc, "openings", "100").value_parser(value_parser!(u8))
}

fn concat<'a>(alloc: Global) -> Arg<'a>
    ensures rule { rule_of result ≡ concat_rule }
    ensures own { result.global ≡ false }
{
    option(alloc, "concat", "4000").value_parser(value_parser!(u32).range(0..=20_000))
}

fn ascent<'a>(alloc: Global) -> Arg<'a>
    ensures rule { rule_of result ≡ ascent_rule }
    ensures own { result.global ≡ false }
{
    option(alloc, "ascent", "least")
}

fn split<'a>(alloc: Global) -> Arg<'a>
    ensures rule { rule_of result ≡ split_rule }
    ensures own { result.global ≡ false }
{
    option(alloc, "split", "longest")
}

fn size<'a>(alloc: Global) -> Arg<'a>
    ensures rule { rule_of result ≡ size_rule }
    ensures own { result.global ≡ false }
{
    option(alloc, "size", "6").value_parser(value_parser!(u8).range(2..=8))
}

fn above<'a>(alloc: Global) -> Arg<'a>
    ensures rule { rule_of result ≡ above_rule }
    ensures own { result.global ≡ false }
{
    Arg::new(alloc, "above")
        .long("above")
        .value_parser(value_parser!(u64))
}

fn pieces<'a>(alloc: Global) -> Arg<'a>
    ensures rule { rule_of result ≡ pieces_rule }
    ensures own { result.global ≡ false }
{
    Arg::new(alloc, "pieces")
        .long("pieces")
        .action(ArgAction::SetTrue)
}

fn solving<'a>(alloc: Global) -> Arg<'a>
    ensures rule { rule_of result ≡ solve_rule }
    ensures own { result.global ≡ false }
{
    Arg::new(alloc, "solve")
        .long("solve")
        .action(ArgAction::SetTrue)
}

fn as_stp<'a>(alloc: Global) -> Arg<'a>
    ensures rule { rule_of result ≡ as_stp_rule }
    ensures own { result.global ≡ false }
{
    Arg::new(alloc, "stp")
        .long("stp")
        .action(ArgAction::SetTrue)
}

fn count<'a>(alloc: Global) -> Arg<'a>
    ensures rule { rule_of result ≡ count_rule }
    ensures own { result.global ≡ false }
{
    operand(alloc, "count").value_parser(value_parser!(u8).range(1..=50))
}

fn seed<'a>(alloc: Global) -> Arg<'a>
    ensures rule { rule_of result ≡ seed_rule }
    ensures own { result.global ≡ false }
{
    operand(alloc, "seed").value_parser(value_parser!(u64))
}

fn points_file<'a>(alloc: Global) -> Arg<'a>
    ensures rule { rule_of result ≡ points_rule }
    ensures own { result.global ≡ false }
{
    operand(alloc, "points")
}

fn stp_file<'a>(alloc: Global) -> Arg<'a>
    ensures rule { rule_of result ≡ stp_rule }
    ensures own { result.global ≡ false }
{
    operand(alloc, "stp")
}

// The option `--NAME VALUE`, with the value that stands where it is not given.
fn option<'a>(alloc: Global, name: &'a str, default: &'a str) -> Arg<'a>
    ensures rule { rule_of result ≡ option_rule name.entry.now default.entry.now }
    ensures own { result.global ≡ false }
{
    Arg::new(alloc, name).long(name).default_value(default)
}

// A word without a name, which has to be given.
fn operand<'a>(alloc: Global, name: &'a str) -> Arg<'a>
    ensures rule { rule_of result ≡ operand_rule name.entry.now }
    ensures own { result.global ≡ false }
{
    Arg::new(alloc, name).required(true)
}
