//! The command line, as `clap` reads it.

ghost use Rattle.std.specs.Prelude.{◌≡◌, IfOk};
ghost use Rattle.clap.specs.Words.{app_of, rule_of, with_rule};
ghost use Rattle.serve_options.specs.Command.{IsLocal, bare_app, number_rule, required_app, required_rule, serve_app};

use clap::builder::ValueParser;
use clap::{Arg, Command};
use std::alloc::{AllocError, Global};
use txt_core::MOST_WORKERS;

/// The program's name.
const NAME: &str = "ns_server";

/// The version that the program tells.
const VERSION: &str = "1.0";

/// How the program is called.
const USAGE: &str = "ns_server serve --root <FOLDER> --start <PATH> --listen <ADDRESS> [OPTIONS]
       ns_server rehearse < FILE
       ns_server load <N>";

/// What the program's words do.
const ABOUT: &str = "A web server whose pages and procedures are Tcl scripts.

serve     serves a site until it has taken --connections connections, or for good
rehearse  plays the events on standard input, and writes the listing of what came of them
load      makes and plays a file of N requests, and tells what was counted";

/// What the help tells of each option.
const ROOT_HELP: &str = "the folder whose files are the site's pages";

const START_HELP: &str = "the page whose script sets the site up, as /start.tcl";

const LISTEN_HELP: &str = "where connections are taken, as 127.0.0.1:8080";

const WORKERS_HELP: &str = "how many threads serve connections, 1 to 16";

const QUEUE_HELP: &str = "how many connections may wait for one of them, 1 to 1024";

const CONNECTIONS_HELP: &str = "the server ends after so many connections; 0 is never";

/// The command with all of its options.
pub(crate) fn serve_command<'a>(alloc: Global) -> Result<Command<'a>, AllocError>
    ensures { IfOk result (λ c. app_of c ≡ serve_app) }
{
    let required = required_command(alloc)?;
    let workers = number_option(alloc, "workers", 1, MOST_WORKERS as i64, "4");
    let queue = number_option(alloc, "queue", 1, 1024, "64");
    let connections = number_option(alloc, "connections", 0, 4294967295, "0");
    let staffed = with_option(required, told(workers, WORKERS_HELP))?;
    let queued = with_option(staffed, told(queue, QUEUE_HELP))?;
    let whole = with_option(queued, told(connections, CONNECTIONS_HELP))?;
    Ok(whole)
}

/// The command with the options that are required.
fn required_command<'a>(alloc: Global) -> Result<Command<'a>, AllocError>
    ensures { IfOk result (λ c. app_of c ≡ required_app) }
{
    let root = required_option(alloc, "root");
    let start = required_option(alloc, "start");
    let listen = required_option(alloc, "listen");
    let rooted = with_option(bare_command(alloc), told(root, ROOT_HELP))?;
    let started = with_option(rooted, told(start, START_HELP))?;
    let listening = with_option(started, told(listen, LISTEN_HELP))?;
    Ok(listening)
}

/// The command without options.
fn bare_command<'a>(alloc: Global) -> Command<'a>
    ensures { app_of result ≡ bare_app }
{
    Command::new(alloc, NAME)
        .version(VERSION)
        .override_usage(USAGE)
        .about(ABOUT)
}

/// The command with one option more.
fn with_option<'a>(command: Command<'a>, option: Arg<'a>) -> Result<Command<'a>, AllocError>
    requires { IsLocal option }
    ensures { IfOk result (λ c.
        app_of c ≡ with_rule (app_of command.entry) (rule_of option.entry)) }
{
    let more = command.arg(option)?;
    Ok(more)
}

/// The option with what the help tells of it.
fn told<'a>(option: Arg<'a>, help: &'a str) -> Arg<'a>
    requires { IsLocal option }
    ensures rule { rule_of result ≡ rule_of option.entry }
    ensures local { IsLocal result }
{
    option.help(help)
}

/// An option that has to be given.
fn required_option<'a>(alloc: Global, id: &'a str) -> Arg<'a>
    ensures rule { rule_of result ≡ required_rule id.entry.now }
    ensures local { IsLocal result }
{
    Arg::new(alloc, id).long(id).required(true)
}

/// An option whose value is a number from `low` to `high`.
fn number_option<'a>(alloc: Global, id: &'a str, low: i64, high: i64, default: &'a str) -> Arg<'a>
    ensures rule { rule_of result ≡ number_rule id.entry.now low high default.entry.now }
    ensures local { IsLocal result }
{
    Arg::new(alloc, id)
        .long(id)
        .value_parser(ValueParser::Signed(low, high))
        .default_value(default)
}
