//! The command line.
ghost use Rattle.std.specs.Prelude.{◌≡◌, IfOk, IfErr, IfSome, IfNone, map, option_map, string_bytes, Option};
ghost use Rattle.clap.specs.Words.{app_of, kind_of};
ghost use Rattle.clap.specs.declared.builder.value_parser.ValueParser.{ValueParser};
ghost use Rattle.txcache_arguments.specs.Program.{AsksForMode, HasMode, HasSettings, IsModeArg, IsRefusedAs, IsSettingsArg, ReadsModes, command_line, mode_text};
ghost use Rattle.txc_script_settings.specs.declared.script.Script.{Script};

use clap::error::ErrorKind;
use clap::{Arg, ArgAction, Command, Error};
use std::alloc::Global;
use txc_script_settings::{Mode, Script};

/// The meaning of a command line.
#[derive(Clone, Copy, Debug, PartialEq, Eq)]
pub struct Arguments<'a> {
    pub script: Script,
    /// The text of the settings, if there is one.
    pub settings: Option<&'a str>,
}

static MODES: [&str; 4] = ["node", "report", "world", "batch"];

/// Makes the argument of the mode.
fn mode_argument<'a>(alloc: Global) -> Arg<'a>
    ensures { IsModeArg result }
{
    Arg::new(alloc, "mode")
        .required(true)
        .action(ArgAction::Set)
        .value_name("MODE")
        .help(
            "The replies of a node (node), counts of them (report), transactions of a world (world), or jobs \
             that run side by side (batch)",
        )
        .value_parser(MODES.as_slice())
}

/// Makes the argument of the settings.
fn settings_argument<'a>(alloc: Global) -> Arg<'a>
    ensures { IsSettingsArg result }
{
    Arg::new(alloc, "settings")
        .long("settings")
        .value_name("TEXT")
        .help("The settings, a TOML document such as 'capacity = 4'")
}

/// Makes the parser of the program's command line.
fn program<'a>(alloc: Global) -> Result<Command<'a>, Error>
    ensures shape { IfOk result (λ c. (parser : Option ValueParser) × ReadsModes parser
        × (app_of c ≡ command_line parser)) }
    ensures asks { IfOk result AsksForMode }
    ensures refused { IfErr result (λ e. kind_of e ≡ ErrorKind.OutOfMemory) }
{
    Ok(
        Command::new(alloc, "txcache")
            .bin_name("txcache")?
            .about("Runs the script on standard input")
            .arg(mode_argument(alloc))?
            .arg(settings_argument(alloc))?,
    )
}

/// Returns the mode of this name.
fn mode_named(name: &str) -> Option<Script>
    ensures answer { IfSome result (λ script. name.now ≡ mode_text script) }
    ensures refused { IfNone result ((script : Script) → name.now ≡ mode_text script → ⊥) }
{
    match name {
        "node" => Some(Script::Node(Mode::Node)),
        "report" => Some(Script::Node(Mode::Report)),
        "world" => Some(Script::World),
        "batch" => Some(Script::Batch),
        _ => None,
    }
}

/// Reads the words of a command line, the first of which is the program's name: `node`, `report`, `world` or
/// `batch`, and at most once `--settings` with a text. A request for help is an error too, of its own kind and
/// with status 0.
pub fn read_arguments<'a>(alloc: Global, words: &'a [String]) -> Result<Arguments<'a>, Error>
    ensures mode { IfOk result (λ a. HasMode (map string_bytes words.entry.now) a.script) }
    ensures settings { IfOk result (λ a. HasSettings (map string_bytes words.entry.now)
        (option_map (λ s. s.now) a.settings)) }
    ensures refused { IfErr result (IsRefusedAs (map string_bytes words.entry.now)) }
{
    let command = program(alloc)?;
    let matches = command.try_get_matches_from(words)?;
    let mode = matches.get_str("mode");
    let settings = matches.get_str("settings");
    let Some(name) = mode else {
        unreachable!();
    };
    match mode_named(name) {
        Some(script) => Ok(Arguments { script, settings }),
        None => unreachable!(),
    }
}
