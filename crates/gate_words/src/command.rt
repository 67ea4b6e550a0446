ghost use Rattle.std.specs.Prelude.{◌≡◌, false, pos, map, codes, IfOk};
ghost use Rattle.clap.specs.Words.{FailsBy, app_of, fault_of, new_app, rule_of, subcommand_of, subcommand_rows_of, with_rule, with_subcommand};
ghost use Rattle.clap.specs.declared.builder.command.Command.TheViews.{out-Command as fields_of};
ghost use Rattle.clap.specs.declared.builder.value_parser.ValueParser.TheVariants.{Signed};
ghost use Rattle.gate_words.specs.Words.{bare_words, db_rule, file_rule, flag_rule, gate_words, guard_words, guarded_words, number_rule, numbered_words, patience_rule, report_words, run_words, serve_words, token_rule};

use clap::builder::ValueParser;
use clap::{Arg, ArgAction, ArgMatches, Command, Error, value_parser};
use std::alloc::{AllocError, Global};

/// The greatest count of connections.
pub const MAX_COUNT: u32 = 1_000_000;

/// The patience if none is given, in seconds.
pub const PATIENCE: u32 = 30;

/// The greatest patience.
pub const MAX_PATIENCE: u32 = 3_600;

// What is told of the whole program. Its version comes first, and CHANGELOG.md begins with the same.
const ABOUT: &str = "\
gate 1.0.0
A merge bot: it is told what happened to the changes of a project, and answers each delivery with what is to be done.
It keeps its records in a database file, or in memory, and then they are gone when it ends.";

const USAGE: &str = "\
gate [run [--db <FILE>]]
       gate guard [--db <FILE>]
       gate serve --port <N> --count <N> [--patience <SECONDS>] [--db <FILE>] [--token <FILE>] [--log] [--until-input-ends]
       gate report <FILE>";

const MORE: &str = "\
Examples:
  gate < deliveries.jsonl
  gate run --db gate.db < deliveries.jsonl
  gate guard --db gate.db < deliveries.jsonl
  gate serve --port 8080 --count 100 --db gate.db
  gate report deliveries.jsonl

docs/formats.md describes deliveries and their answers.";

// What is told of each job.
const RUN: &str =
    "Answer the deliveries on standard input, one on each line; gate without words does it in memory";

const GUARD: &str =
    "Answer the deliveries on standard input, one on each line, and tell what a host has to do for each branch then";

const SERVE: &str =
    "Answer deliveries over HTTP on 127.0.0.1, on so many connections one after the other";

const REPORT: &str = "Print the queue as it is after the deliveries of a file, one on each line";

// What is told of their options.
const PORT: &str = "The port to listen on, from 1 to 65535";

const COUNT: &str = "How many connections to serve, from 1 to 1000000";

const SECONDS: &str =
    "How long a client may be silent before its connection is given up, from 1 to 3600, 30 if left out";

const DB: &str = "The database file that keeps the records; it is made if it isn't there";

const TOKEN: &str =
    "A file with the token that each request has to bear; none is needed if left out";

const LOG: &str = "Write a line about each request to standard error";

const UNTIL_INPUT_ENDS: &str =
    "End when standard input is closed, after the requests that are whole";

const FILE: &str = "The file with the deliveries";

// A command without options.
fn command<'a>(alloc: Global, name: &'a str, usage: &'a str, about: &'a str) -> Command<'a>
    ensures words { app_of result ≡ new_app name.entry.now }
    ensures local { (fields_of result).has_globals ≡ false }
{
    Command::new(alloc, name).override_usage(usage).about(about)
}

// An option that takes a number, in these limits.
fn number<'a>(alloc: Global, name: &'a str, help: &'a str, limits: ValueParser<'a>) -> Arg<'a>
    ensures rule { rule_of result ≡ number_rule name.entry.now limits.entry }
    ensures local { result.global ≡ false }
{
    Arg::new(alloc, name)
        .long(name)
        .value_name("N")
        .help(help)
        .required(true)
        .value_parser(limits)
}

// The option that names a database file. It may be left out.
fn db<'a>(alloc: Global) -> Arg<'a>
    ensures rule { rule_of result ≡ db_rule }
    ensures local { result.global ≡ false }
{
    Arg::new(alloc, "db").long("db").value_name("FILE").help(DB)
}

// The option that names a file with a token. It may be left out.
fn token<'a>(alloc: Global) -> Arg<'a>
    ensures rule { rule_of result ≡ token_rule }
    ensures local { result.global ≡ false }
{
    Arg::new(alloc, "token")
        .long("token")
        .value_name("FILE")
        .help(TOKEN)
}

// An option that is there or isn't.
fn flag<'a>(alloc: Global, name: &'a str, help: &'a str) -> Arg<'a>
    ensures rule { rule_of result ≡ flag_rule name.entry.now }
    ensures local { result.global ≡ false }
{
    Arg::new(alloc, name)
        .long(name)
        .action(ArgAction::SetTrue)
        .help(help)
}

// The option that says how long a client is waited for. It may be left out.
fn patience<'a>(alloc: Global) -> Arg<'a>
    ensures rule { rule_of result ≡ patience_rule }
    ensures local { result.global ≡ false }
{
    Arg::new(alloc, "patience")
        .long("patience")
        .value_name("SECONDS")
        .help(SECONDS)
        .value_parser(waits())
}

fn waits<'a>() -> ValueParser<'a>
    ensures { result ≡ Signed (pos 1) (pos 3600) }
{
    value_parser!(u32).range(1..=i64::from(MAX_PATIENCE))
}

fn ports<'a>() -> ValueParser<'a>
    ensures { result ≡ Signed (pos 1) (pos 65535) }
{
    value_parser!(u16).range(1..)
}

fn counts<'a>() -> ValueParser<'a>
    ensures { result ≡ Signed (pos 1) (pos 1000000) }
{
    value_parser!(u32).range(1..=i64::from(MAX_COUNT))
}

fn run_command<'a>(alloc: Global) -> Result<Command<'a>, AllocError>
    ensures words { IfOk result (λ made. app_of made ≡ run_words) }
    ensures local { IfOk result (λ made. (fields_of made).has_globals ≡ false) }
{
    command(alloc, "run", "gate run [--db <FILE>]", RUN).arg(db(alloc))
}

fn guard_command<'a>(alloc: Global) -> Result<Command<'a>, AllocError>
    ensures words { IfOk result (λ made. app_of made ≡ guard_words) }
    ensures local { IfOk result (λ made. (fields_of made).has_globals ≡ false) }
{
    command(alloc, "guard", "gate guard [--db <FILE>]", GUARD).arg(db(alloc))
}

const SERVE_USAGE: &str =
    "gate serve --port <N> --count <N> [--patience <SECONDS>] [--db <FILE>] [--token <FILE>] [--log] [--until-input-ends]";

// `serve` with its port and its count.
fn numbered_command<'a>(alloc: Global) -> Result<Command<'a>, AllocError>
    ensures words { IfOk result (λ made. app_of made ≡ numbered_words) }
    ensures local { IfOk result (λ made. (fields_of made).has_globals ≡ false) }
{
    command(alloc, "serve", SERVE_USAGE, SERVE)
        .arg(number(alloc, "port", PORT, ports()))?
        .arg(number(alloc, "count", COUNT, counts()))
}

// With its patience besides.
fn patient_command<'a>(alloc: Global) -> Result<Command<'a>, AllocError>
    ensures words { IfOk result (λ made. app_of made ≡ with_rule numbered_words patience_rule) }
    ensures local { IfOk result (λ made. (fields_of made).has_globals ≡ false) }
{
    numbered_command(alloc)?.arg(patience(alloc))
}

// With its database file besides.
fn kept_command<'a>(alloc: Global) -> Result<Command<'a>, AllocError>
    ensures words { IfOk result (λ made. app_of made ≡ with_rule (with_rule numbered_words patience_rule) db_rule) }
    ensures local { IfOk result (λ made. (fields_of made).has_globals ≡ false) }
{
    patient_command(alloc)?.arg(db(alloc))
}

// With its token besides.
fn guarded_command<'a>(alloc: Global) -> Result<Command<'a>, AllocError>
    ensures words { IfOk result (λ made. app_of made ≡ guarded_words) }
    ensures local { IfOk result (λ made. (fields_of made).has_globals ≡ false) }
{
    kept_command(alloc)?.arg(token(alloc))
}

// With its log besides.
fn logged_command<'a>(alloc: Global) -> Result<Command<'a>, AllocError>
    ensures words { IfOk result (λ made. app_of made ≡ with_rule guarded_words (flag_rule (codes "log"))) }
    ensures local { IfOk result (λ made. (fields_of made).has_globals ≡ false) }
{
    guarded_command(alloc)?.arg(flag(alloc, "log", LOG))
}

fn serve_command<'a>(alloc: Global) -> Result<Command<'a>, AllocError>
    ensures words { IfOk result (λ made. app_of made ≡ serve_words) }
    ensures local { IfOk result (λ made. (fields_of made).has_globals ≡ false) }
{
    logged_command(alloc)?.arg(flag(alloc, "until-input-ends", UNTIL_INPUT_ENDS))
}

// The file that is to be read.
fn file<'a>(alloc: Global) -> Arg<'a>
    ensures rule { rule_of result ≡ file_rule }
    ensures local { result.global ≡ false }
{
    Arg::new(alloc, "FILE").help(FILE).required(true)
}

fn report_command<'a>(alloc: Global) -> Result<Command<'a>, AllocError>
    ensures words { IfOk result (λ made. app_of made ≡ report_words) }
    ensures local { IfOk result (λ made. (fields_of made).has_globals ≡ false) }
{
    command(alloc, "report", "gate report <FILE>", REPORT).arg(file(alloc))
}

// The command without its subcommands.
fn bare_gate<'a>(alloc: Global) -> Command<'a>
    ensures { app_of result ≡ bare_words }
{
    command(alloc, "gate", USAGE, ABOUT)
        .no_binary_name(true)
        .after_help(MORE)
}

// One subcommand more in each function: a command that may be let go beside others is dear to prove.
fn with_run<'a>(alloc: Global) -> Result<Command<'a>, AllocError>
    ensures { IfOk result (λ made. app_of made ≡ with_subcommand bare_words run_words.top) }
{
    let run = run_command(alloc)?;
    bare_gate(alloc).subcommand(run)
}

fn with_guard<'a>(alloc: Global) -> Result<Command<'a>, AllocError>
    ensures { IfOk result (λ made. app_of made ≡ with_subcommand (with_subcommand bare_words run_words.top) guard_words.top) }
{
    let guard = guard_command(alloc)?;
    with_run(alloc)?.subcommand(guard)
}

fn with_serve<'a>(alloc: Global) -> Result<Command<'a>, AllocError>
    ensures { IfOk result (λ made. app_of made
        ≡ with_subcommand (with_subcommand (with_subcommand bare_words run_words.top) guard_words.top) serve_words.top) }
{
    let serve = serve_command(alloc)?;
    with_guard(alloc)?.subcommand(serve)
}

fn gate_command<'a>(alloc: Global) -> Result<Command<'a>, AllocError>
    ensures { IfOk result (λ made. app_of made ≡ gate_words) }
{
    let report = report_command(alloc)?;
    with_serve(alloc)?.subcommand(report)
}

/// What words come to, by the command.
pub fn matches_in<'a>(alloc: Global, words: &'a [&'a str]) -> Result<ArgMatches<'a>, Error>
    ensures command { IfOk result (λ matches. subcommand_rows_of matches
        ≡ subcommand_of gate_words (map (λ word. word.now) words.entry.now)) }
    ensures faults { FailsBy (fault_of gate_words (map (λ word. word.now) words.entry.now)) result }
{
    gate_command(alloc)?.try_get_matches_from(words)
}
