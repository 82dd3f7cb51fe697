//! What the words of the program ask for.

ghost use Rattle.std.specs.Prelude.{◌≡◌};
ghost use Rattle.cdx_canon.specs.Words.{command_of};

/// What the words ask for: the text of a bill, or whether two bills have one text.
#[derive(Clone, Copy)]
pub(crate) enum Command {
    Text,
    Equal,
}

/// The command of the words: `text` or `equal`, each alone.
pub(crate) fn read_command(words: &[String]) -> Option<Command>
    ensures { result ≡ command_of words.now }
{
    match words {
        [word] => match word.as_str() {
            "text" => Some(Command::Text),
            "equal" => Some(Command::Equal),
            _ => None,
        },
        _ => None,
    }
}
