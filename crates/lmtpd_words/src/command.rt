//! The command that `clap` reads the words by.

ghost use Rattle.std.specs.Prelude.{◌≡◌, false, map, IfOk};
ghost use Rattle.clap.specs.Simple.{new_app};
ghost use Rattle.clap.specs.Words.{App, app_of, with_subcommand};
ghost use Rattle.clap.specs.declared.builder.command.Command.TheViews.{out-Command as fields_of};
ghost use Rattle.lmtpd_words.specs.Arguments.{argument_rule, with_rules};
ghost use Rattle.lmtpd_words.specs.CommandLine.{bare_app, check_app, copy_app, program_app, rehearse_app};
ghost use Rattle.lmtpd_words.specs.CommandLine.{serve_app};

use crate::arguments::{Argument, CHECK, COPY, REHEARSE, SERVE};
use crate::texts::{
    AFTER_HELP_CHECK, AFTER_HELP_COPY, AFTER_HELP_PROGRAM, AFTER_HELP_REHEARSE, AFTER_HELP_SERVE,
    VERSION,
};
use clap::Command;
use std::alloc::{AllocError, Global};

/// The whole command line.
pub fn program<'a>(alloc: Global) -> Result<Command<'a>, AllocError>
    ensures { IfOk result (λ c. app_of c ≡ program_app) }
{
    added(with_check(alloc), copy(alloc))
}

// The program with its first three subcommands.
fn with_check<'a>(alloc: Global) -> Result<Command<'a>, AllocError>
    ensures { IfOk result (λ c. app_of c ≡ with_subcommand (with_subcommand (with_subcommand
        bare_app rehearse_app.top) serve_app.top) check_app.top) }
{
    added(with_serve(alloc), check(alloc))
}

// The program with its first two subcommands.
fn with_serve<'a>(alloc: Global) -> Result<Command<'a>, AllocError>
    ensures { IfOk result (λ c. app_of c ≡ with_subcommand (with_subcommand bare_app rehearse_app.top) serve_app.top) }
{
    added(with_rehearse(alloc), serve(alloc))
}

// The program with its first subcommand.
fn with_rehearse<'a>(alloc: Global) -> Result<Command<'a>, AllocError>
    ensures { IfOk result (λ c. app_of c ≡ with_subcommand bare_app rehearse_app.top) }
{
    added(Ok(bare(alloc)), rehearse(alloc))
}

// The command with that subcommand, where memory lacked for neither.
fn added<'a>(
    command: Result<Command<'a>, AllocError>,
    subcommand: Result<Command<'a>, AllocError>,
) -> Result<Command<'a>, AllocError>
    ensures { (app sub : App) → IfOk command.entry (λ c. app_of c ≡ app)
        → IfOk subcommand.entry (λ c. app_of c ≡ sub)
        → IfOk subcommand.entry (λ c. (fields_of c).has_globals ≡ false)
        → IfOk result (λ c. app_of c ≡ with_subcommand app sub.top) }
{
    command?.subcommand(subcommand?)
}

// The program without subcommands.
fn bare<'a>(alloc: Global) -> Command<'a>
    ensures { app_of result ≡ bare_app }
{
    Command::new(alloc, "lmtpd")
        .about("An LMTP server (RFC 2033) that delivers into mailboxes (RFC 4155)")
        .version(VERSION)
        .after_help(AFTER_HELP_PROGRAM)
        .subcommand_required(true)
}

fn rehearse<'a>(alloc: Global) -> Result<Command<'a>, AllocError>
    ensures shape { IfOk result (λ c. app_of c ≡ rehearse_app) }
    ensures local { IfOk result (λ c. (fields_of c).has_globals ≡ false) }
{
    let about = "Holds one conversation on standard input and output, and prints the mailboxes";
    subcommand(alloc, "rehearse", about, AFTER_HELP_REHEARSE, &REHEARSE)
}

fn serve<'a>(alloc: Global) -> Result<Command<'a>, AllocError>
    ensures shape { IfOk result (λ c. app_of c ≡ serve_app) }
    ensures local { IfOk result (λ c. (fields_of c).has_globals ≡ false) }
{
    let about = "Serves conversations over TCP or a Unix socket, and delivers into mailbox files";
    subcommand(alloc, "serve", about, AFTER_HELP_SERVE, &SERVE)
}

fn check<'a>(alloc: Global) -> Result<Command<'a>, AllocError>
    ensures shape { IfOk result (λ c. app_of c ≡ check_app) }
    ensures local { IfOk result (λ c. (fields_of c).has_globals ≡ false) }
{
    let about = "Counts the letters in mailbox files, or says at which byte a file breaks the form";
    subcommand(alloc, "check", about, AFTER_HELP_CHECK, &CHECK)
}

fn copy<'a>(alloc: Global) -> Result<Command<'a>, AllocError>
    ensures shape { IfOk result (λ c. app_of c ≡ copy_app) }
    ensures local { IfOk result (λ c. (fields_of c).has_globals ≡ false) }
{
    let about =
        "Copies a mailbox file while it is locked, so that no letter is half there or half gone";
    subcommand(alloc, "copy", about, AFTER_HELP_COPY, &COPY)
}

// A subcommand with these arguments, and with what help says before and after them.
fn subcommand<'a>(
    alloc: Global,
    name: &'a str,
    about: &'a str,
    after_help: &'a str,
    arguments: &[Argument],
) -> Result<Command<'a>, AllocError>
    ensures shape { IfOk result (λ c. app_of c
        ≡ with_rules (new_app name.entry.now) (map argument_rule arguments.now)) }
    ensures local { IfOk result (λ c. (fields_of c).has_globals ≡ false) }
{
    let bare = Command::new(alloc, name)
        .about(about)
        .after_help(after_help);
    with_arguments(alloc, bare, arguments)
}

fn with_arguments<'a>(
    alloc: Global,
    bare: Command<'a>,
    arguments: &[Argument],
) -> Result<Command<'a>, AllocError>
    ensures shape { IfOk result (λ c. app_of c ≡ with_rules (app_of bare.entry) (map argument_rule arguments.now)) }
    ensures local { (fields_of bare.entry).has_globals ≡ false
        → IfOk result (λ c. (fields_of c).has_globals ≡ false) }
{
    let mut command = bare;
    for argument in arguments {
        command = command.arg(argument.arg(alloc))?;
    }
    Ok(command)
}
