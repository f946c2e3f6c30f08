//! The program's command line, as `clap` is told of it.

ghost use Rattle.std.specs.Prelude.{◌≡◌, IfOk, false};
ghost use Rattle.clap.specs.Words.{app_of};
ghost use Rattle.clap.specs.declared.builder.command.Command.TheViews.{out-Command as fields_of};
ghost use Rattle.program.specs.Grammar.{stp, bare, run, check, lab, lab_udp, serve};

use clap::{Arg, Command};
use std::alloc::{AllocError, Global};

/// The program's command line.
pub(crate) fn stp<'a>(alloc: Global) -> Result<Command<'a>, AllocError>
    ensures { IfOk result (λ command. app_of command ≡ stp) }
{
    bare(alloc)
        .subcommand(run(alloc)?)?
        .subcommand(check(alloc)?)?
        .subcommand(lab(alloc)?)?
        .subcommand(lab_udp(alloc)?)?
        .subcommand(serve(alloc)?)
}

/// A command line of commands, one of which is required, without a help command.
fn bare<'a>(alloc: Global) -> Command<'a>
    ensures app { app_of result ≡ bare }
    ensures local { (fields_of result).has_globals ≡ false }
{
    Command::new(alloc, "stp")
        .no_binary_name(true)
        .disable_help_flag(true)
        .disable_help_subcommand(true)
        .subcommand_required(true)
}

/// `run [FILE]`.
fn run<'a>(alloc: Global) -> Result<Command<'a>, AllocError>
    ensures app { IfOk result (λ command. app_of command ≡ run) }
    ensures local { IfOk result (λ command. (fields_of command).has_globals ≡ false) }
{
    Command::new(alloc, "run").arg(Arg::new(alloc, "file"))
}

/// `check FILE`.
fn check<'a>(alloc: Global) -> Result<Command<'a>, AllocError>
    ensures app { IfOk result (λ command. app_of command ≡ check) }
    ensures local { IfOk result (λ command. (fields_of command).has_globals ≡ false) }
{
    let file = Arg::new(alloc, "file").required(true);
    Command::new(alloc, "check").arg(file)
}

/// `lab NEAR FAR`.
fn lab<'a>(alloc: Global) -> Result<Command<'a>, AllocError>
    ensures app { IfOk result (λ command. app_of command ≡ lab) }
    ensures local { IfOk result (λ command. (fields_of command).has_globals ≡ false) }
{
    let near = Arg::new(alloc, "near").required(true);
    let far = Arg::new(alloc, "far").required(true);
    Command::new(alloc, "lab").arg(near)?.arg(far)
}

/// `lab-udp NEAR FAR`.
fn lab_udp<'a>(alloc: Global) -> Result<Command<'a>, AllocError>
    ensures app { IfOk result (λ command. app_of command ≡ lab_udp) }
    ensures local { IfOk result (λ command. (fields_of command).has_globals ≡ false) }
{
    let near = Arg::new(alloc, "near").required(true);
    let far = Arg::new(alloc, "far").required(true);
    Command::new(alloc, "lab-udp").arg(near)?.arg(far)
}

/// `serve FILE`.
fn serve<'a>(alloc: Global) -> Result<Command<'a>, AllocError>
    ensures app { IfOk result (λ command. app_of command ≡ serve) }
    ensures local { IfOk result (λ command. (fields_of command).has_globals ≡ false) }
{
    let file = Arg::new(alloc, "file").required(true);
    Command::new(alloc, "serve").arg(file)
}
