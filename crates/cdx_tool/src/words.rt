//! What the words of the program ask for.

ghost use Rattle.std.specs.Prelude.{◌≡◌, option_map};
ghost use Rattle.cdx_tool.specs.Words.{is_led, counted_if, count_of, command_of};
ghost use Rattle.cdx_tool.specs.Commands.{command_in};

const MOST: u32 = 20_000;

/// What the words ask for: to answer the request that the source holds, or to make a bill of so many components.
#[derive(Clone, Copy)]
pub(crate) enum Command {
    Road,
    Make(u32),
}

fn if_count(number: u32) -> Option<u32>
    ensures { result ≡ counted_if number }
{
    if 0 < number && number <= MOST {
        Some(number)
    } else {
        None
    }
}

// Neither 0 nor a sign stands first.
fn is_led(bytes: &[u8]) -> bool
    ensures { result ≡ is_led bytes.now }
{
    match bytes {
        [] => false,
        [first, ..] => *first != b'0' && *first != b'+',
    }
}

// A number from 1 to 20,000, in decimal, without sign or leading zero.
fn read_count(word: &str) -> Option<u32>
    ensures { result ≡ count_of word.now }
{
    if !is_led(word.as_bytes()) {
        return None;
    }
    match word.parse::<u32>() {
        Ok(number) => if_count(number),
        Err(_) => None,
    }
}

/// The command of the words: `road`, or `make` and a number.
pub(crate) fn read_command(words: &[String]) -> Option<Command>
    ensures { option_map command_in result ≡ command_of words.now }
{
    match words {
        [word] => {
            if word.as_str() == "road" {
                Some(Command::Road)
            } else {
                None
            }
        }
        [word, count] => {
            if word.as_str() == "make" {
                Some(Command::Make(read_count(count.as_str())?))
            } else {
                None
            }
        }
        _ => None,
    }
}
