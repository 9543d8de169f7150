ghost use Rattle.std.specs.Prelude.{◌≡◌, ℕ, List, true, map, string_bytes, IfSome, IfNone};
ghost use Rattle.mt_top.specs.FileName.{is_file_name};
ghost use Rattle.mt_top.specs.Words.{Asks, AsksNothing, asked_by};

/// A command, with the names of its files.
#[derive(Clone, Copy, Debug)]
pub enum Command<'a> {
    /// `check APP`
    Check(&'a str),
    /// `start APP`
    Start(&'a str),
    /// `replay APP SCHEDULE`
    Replay(&'a str, &'a str),
}

fn is_file_name(word: &str) -> bool
    ensures { result ≡ is_file_name word.now }
{
    match word.as_bytes().split_first() {
        Some((first, _rest)) => *first != b'-',
        None => false,
    }
}

/// The command that the words ask for. None where they ask for none.
pub fn read_words(words: &[String]) -> Option<Command<'_>>
    ensures found { IfSome result (λ command. Asks (map string_bytes words.now) (asked_by command)) }
    ensures none { IfNone result (AsksNothing (map string_bytes words.now)) }
{
    match words {
        [command, application] => {
            let application = application.as_str();
            let command = command.as_str();
            if command == "check" && is_file_name(application) {
                Some(Command::Check(application))
            } else if command == "start" && is_file_name(application) {
                Some(Command::Start(application))
            } else {
                None
            }
        }
        [command, application, schedule] => {
            let application = application.as_str();
            let schedule = schedule.as_str();
            if command.as_str() == "replay" && is_file_name(application) && is_file_name(schedule) {
                Some(Command::Replay(application, schedule))
            } else {
                None
            }
        }
        _ => None,
    }
}
