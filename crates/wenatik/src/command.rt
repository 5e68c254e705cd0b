// What the program is asked to do.
use crate::failure::Failure;

#[derive(Drop)]
pub(crate) enum Command {
    ShowBuiltIn,
    Show(String),
    Report(String),
    Help,
}

impl Command {
    // From the first two words after the program's name: a command, and a file where it needs one.
    pub(crate) fn of(command: Option<String>, file: Option<String>) -> Result<Command, Failure> {
        let Some(command) = command else {
            return Ok(Command::ShowBuiltIn);
        };
        match (command.as_str(), file) {
            ("show", Some(path)) => Ok(Command::Show(path)),
            ("report", Some(path)) => Ok(Command::Report(path)),
            ("help", None) => Ok(Command::Help),
            _ => Err(Failure::NoSuchCommand),
        }
    }
}
