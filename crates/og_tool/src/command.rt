ghost use Rattle.std.specs.Prelude.{◌≡◌, Some, None, MatchOption, map, string_bytes};
ghost use Rattle.og_tool.specs.Command.{is_file_name, command_of};

/// `check GAME STRATEGY`, by the names of its files.
#[derive(Clone, Copy, Debug)]
pub(crate) struct Command<'a> {
    pub game: &'a str,
    pub strategy: &'a str,
}

/// Whether a word can name a file: it isn't empty, and doesn't begin with a hyphen.
fn is_file_name(word: &str) -> bool
    ensures { result ≡ is_file_name word.now }
{
    match word.as_bytes() {
        [] => false,
        [first, ..] => *first != b'-',
    }
}

/// The command that the words are, if they are one.
pub(crate) fn command_of(words: &[String]) -> Option<Command<'_>>
    ensures { MatchOption result (command_of (map string_bytes words.now) ≡ None)
        (λ c. command_of (map string_bytes words.now)
        ≡ Some (record { game = c.game.now; strategy = c.strategy.now })) }
{
    match words {
        [verb, game, strategy] => {
            let game = game.as_str();
            let strategy = strategy.as_str();
            if verb.as_str() == "check" && is_file_name(game) && is_file_name(strategy) {
                Some(Command { game, strategy })
            } else {
                None
            }
        }
        _ => None,
    }
}
