// The arguments, read by clap.
ghost use Rattle.std.specs.Prelude.{◌≡◌, false, map, string_bytes, option_map, IfOk};
ghost use Rattle.clap.specs.Words.{app_of, rule_of};
ghost use Rattle.dsv_command.specs.ClapCommand.{command_app, file_rule, option_rule};
ghost use Rattle.dsv_command.specs.ClapCommand.{filled_parts_of};
ghost use Rattle.dsv_command.specs.Options.{command_options};
ghost use Rattle.dsv_command.specs.Parts.{for_option, file_of, has_empty, has_key, value_of};
ghost use Rattle.dsv_command.specs.Views.{option_view};

use crate::options::{CommandOption, command_options, takes_value};
use clap::builder::ValueParser;
use clap::error::ErrorKind;
use clap::parser::ValueSource;
use clap::{Arg, ArgAction, ArgMatches, Command};
use dsv_base::NoMemory;
use std::alloc::Global;
use std::marker::Model;

/// The id of FILE; no option has this name.
const FILE: &str = "FILE";

/// The argument that belongs to no option.
fn file_argument<'a>(alloc: Global) -> Arg<'a>
    ensures rule { rule_of result ≡ file_rule }
    ensures local { result.global ≡ false }
{
    Arg::new(alloc, FILE).value_parser(ValueParser::NonEmptyString)
}

/// The argument of an option.
fn option_argument<'a>(alloc: Global, option: CommandOption) -> Arg<'a>
    ensures rule { rule_of result ≡ option_rule (option_view option) }
    ensures local { result.global ≡ false }
{
    let argument = Arg::new(alloc, option.name).long(option.name);
    if option.takes_value {
        argument.value_parser(ValueParser::NonEmptyString)
    } else {
        argument.action(ArgAction::SetTrue)
    }
}

/// The command: FILE and the options, and no help or version of clap's own.
fn command<'a>(alloc: Global) -> Result<Command<'a>, NoMemory>
    ensures { IfOk result (λ command. app_of command ≡ command_app command_options) }
{
    let mut command = Command::new(alloc, "dsv")
        .no_binary_name(true)
        .disable_help_flag(true)
        .disable_version_flag(true)
        .arg(file_argument(alloc))?;
    let options = command_options();
    for option in options {
        command = command.arg(option_argument(alloc, *option))?;
    }
    Ok(command)
}

/// What arguments give, in their order: the matches that clap made of them.
#[derive(Drop)]
pub struct Arguments<'a> {
    matches: ArgMatches<'a>,
}

impl<'a> Model for Arguments<'a> {
    ghost use Rattle.std.specs.Prelude.{List};
    ghost use Rattle.clap.specs.Words.{found_of, rows_of};
    ghost use Rattle.dsv_command.specs.ClapRows.{TellParts, parts_in};
    ghost use Rattle.dsv_command.specs.Options.{command_options};
    ghost use Rattle.dsv_command.specs.Parts.{PartView};

    ghost Value = { List PartView };

    ghost view = { λ a. parts_in command_options (rows_of (found_of a.matches)) };

    ghost invariant = { λ a. TellParts command_options (rows_of (found_of a.matches)) };
}

impl<'a> Arguments<'a> {
    /// What is given as FILE. No text among the arguments is empty.
    pub fn file(&self) -> Option<&'a str>
        ensures value { option_map (λ text. text.now) result ≡ file_of self.now }
        ensures filled { has_empty self.now ≡ false }
    {
        self.matches.get_str(FILE)
    }

    /// The value that is given for the option of this name.
    pub fn value(&self, name: &str) -> Option<&'a str>
        ensures { option_map (λ value. value.now) result ≡ value_of name.now self.now }
    {
        match takes_value(command_options(), name) {
            Some(true) => self.matches.get_str(name),
            _ => None,
        }
    }

    /// Whether the option of this name is given.
    pub fn is_given(&self, name: &str) -> bool
        ensures { result ≡ has_key (for_option name.now) self.now }
    {
        takes_value(command_options(), name).is_some()
            && self.matches.value_source(name) == Some(ValueSource::CommandLine)
    }
}

/// What arguments give, where they are allowed and no text in them is empty.
pub fn read_arguments<'a>(
    alloc: Global,
    arguments: &'a [String],
) -> Result<Option<Arguments<'a>>, NoMemory>
    ensures { IfOk result (λ found. found
        ≡ filled_parts_of command_options (map string_bytes arguments.entry.now)) }
{
    match command(alloc)?.try_get_matches_from(arguments) {
        Ok(matches) => Ok(Some(Arguments { matches })),
        Err(error) if error.kind() == ErrorKind::OutOfMemory => Err(NoMemory),
        Err(_) => Ok(None),
    }
}
