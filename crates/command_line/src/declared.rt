//! A command that is being declared to clap.
ghost use Rattle.std.specs.Prelude.{IfOk};
ghost use Rattle.clap.specs.Words.{App, Rule, new_app, with_rule, with_subcommand};
ghost use Rattle.command_line.specs.Words.{IsApp, IsDeclared, IsRuled};

use clap::Arg;
use std::alloc::{AllocError, Global};

/// A command that is being declared, or memory that was refused meanwhile.
#[derive(Drop)]
pub struct Declared<'a> {
    /// The command so far.
    pub command: Result<clap::Command<'a>, AllocError>,
}

impl<'a> Declared<'a> {
    /// A command of that name, with what help says of it.
    pub fn new(alloc: Global, name: &'a str, about: &'a str) -> Self
        ensures { IsDeclared (new_app name.entry.now) result }
    {
        Declared {
            command: Ok(clap::Command::new(alloc, name).about(about)),
        }
    }

    /// It takes one more argument.
    pub fn argument(self, argument: Arg<'a>) -> Self
        ensures { (app : App) (rule : Rule) → IsDeclared app self.entry → IsRuled rule argument.entry → IsDeclared (with_rule app rule) result }
    {
        let command = match self.command {
            Ok(command) => command.arg(argument),
            Err(refused) => Err(refused),
        };
        Declared { command }
    }

    /// It has one more command below it.
    pub fn command(self, other: Declared<'a>) -> Self
        ensures { (app other_app : App) → IsDeclared app self.entry → IsDeclared other_app other.entry → IsDeclared (with_subcommand app other_app.top) result }
    {
        let command = match self.command {
            Ok(command) => added(command, other.command),
            Err(refused) => Err(refused),
        };
        Declared { command }
    }
}

/// A command with one more below it.
fn added<'a>(
    command: clap::Command<'a>,
    other: Result<clap::Command<'a>, AllocError>,
) -> Result<clap::Command<'a>, AllocError>
    ensures { (app other_app : App) → IsApp app command.entry → IfOk other.entry (IsApp other_app) → IfOk result (IsApp (with_subcommand app other_app.top)) }
{
    match other {
        Ok(other) => command.subcommand(other),
        Err(refused) => Err(refused),
    }
}
