//! The command line.
use report::names::Names;

/// What the program is asked to do.
pub enum Command<'a> {
    /// Lists the items of a plan.
    Plan { names: Names, file: &'a str },
    /// Does the same for each file.
    Judge { names: Names, files: &'a [String] },
    /// Prints how the program is called.
    Help,
}

/// How the program is called.
pub const USAGE: &str = "usage:
  checker plan [--alphabet loads|types] FILE        lists the items of a line plan
  checker judge [--alphabet loads|types] FILE...    does the same for each file, and ends with status 0
  checker help                                      prints this text

FILE is a text of 32-bit words, in decimal or in hexadecimal after 0x, with white space between; # begins a comment
that runs to the end of the line. - is the standard input. The alphabet is that of loads where none is named.
Status: 0 where all is in order, 1 where something was sent back.";

// The alphabet that the options name, and the words behind them.
fn options_of(words: &[String]) -> Option<(Names, &[String])> {
    match words {
        [option, alphabet, rest @ ..] if option.as_str() == "--alphabet" => {
            Some((alphabet.parse().ok()?, rest))
        }
        _ => Some((Names::Loads, words)),
    }
}

/// The command that the words after the program's name give.
pub fn command_of(words: &[String]) -> Option<Command<'_>> {
    let [verb, rest @ ..] = words else {
        return None;
    };
    match verb.as_str() {
        "plan" => match options_of(rest)? {
            (names, [file]) => Some(Command::Plan {
                names,
                file: file.as_str(),
            }),
            _ => None,
        },
        "judge" => match options_of(rest)? {
            (_, []) => None,
            (names, files) => Some(Command::Judge { names, files }),
        },
        "help" | "--help" | "-h" => Some(Command::Help),
        _ => None,
    }
}
