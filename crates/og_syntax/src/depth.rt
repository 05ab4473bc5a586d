ghost use Rattle.std.specs.Prelude.{◌≡◌, ◌<◌, ◌≤◌, ◌^◌, length, MatchOption};
ghost use Rattle.og_syntax.specs.Deep.{FindsDeep};
ghost use Rattle.og_syntax.specs.Counts.{IsFull, Passes};

use og_lex::{Kind, Mark, Token, Word};

/// How many brackets may be open at once.
const MOST_OPEN: usize = 64;
/// How many operators a game expression may have outside inner brackets.
const MOST_OPERATORS: u8 = 32;

/// What a token does to the brackets and the game expression that it stands in.
#[derive(Clone, Copy)]
enum Role {
    /// Opens a bracket: `(`, `[`, `{` and `if`.
    Opens,
    /// Closes a bracket: `)`, `]`, `}` and `end`.
    Closes,
    /// Composes games: `>>>` and `&&&`.
    Composes,
    /// Ends a game expression: `;`.
    Ends,
    /// Anything else.
    Other,
}

impl Role {
    ghost use Rattle.og_syntax.specs.Deep.{role_of};

    /// What a token of the kind does.
    fn of(kind: Kind) -> Role
        ensures { result ≡ role_of kind }
    {
        match kind {
            Kind::Mark(Mark::LeftParen | Mark::LeftBracket | Mark::LeftBrace) => Role::Opens,
            Kind::Word(Word::If) => Role::Opens,
            Kind::Mark(Mark::RightParen | Mark::RightBracket | Mark::RightBrace) => Role::Closes,
            Kind::Word(Word::End) => Role::Closes,
            Kind::Mark(Mark::Then | Mark::Beside) => Role::Composes,
            Kind::Mark(Mark::Semicolon) => Role::Ends,
            _ => Role::Other,
        }
    }
}

/// The number of the first token that is too deep: it opens a bracket while 64 are open, or it is the 33rd
/// operator of a game expression outside inner brackets. In 65 times `(` it is the last, 64.
pub fn first_deep(tokens: &[Token]) -> Option<u32>
    requires { length tokens.now < 2 ^ 32 }
    ensures { FindsDeep tokens.now result }
{
    // the operators of each game expression that isn't over, the outermost first
    let mut counts = [0; MOST_OPEN + 1];
    let mut depth = 0;
    'tokens: for (at, token) in tokens.iter().enumerate() {
        match pass(Role::of(token.kind), depth, &mut counts) {
            Some(after) => depth = after,
            None => return Some(at as u32),
        }
    }
    None
}

/// Passes a token: how many brackets are open behind it, or `None` where there is no room for it.
fn pass(role: Role, depth: usize, counts: &mut [u8; MOST_OPEN + 1]) -> Option<usize>
    requires { depth ≤ 64 }
    ensures { MatchOption result
        (IsFull role depth counts.old)
        (λ after. Passes role depth counts.old after counts.new) }
{
    match role {
        Role::Opens => {
            if depth >= MOST_OPEN {
                return None;
            }
            counts[depth + 1] = 0;
            Some(depth + 1)
        }
        Role::Closes => {
            if depth == 0 {
                counts[0] = 0;
                return Some(0);
            }
            Some(depth - 1)
        }
        Role::Composes => {
            if counts[depth] >= MOST_OPERATORS {
                return None;
            }
            counts[depth] += 1;
            Some(depth)
        }
        Role::Ends => {
            counts[depth] = 0;
            Some(depth)
        }
        Role::Other => Some(depth),
    }
}
