// The words that begin commands.
ghost use Rattle.std.specs.Prelude.{◌≡◌};
ghost use Rattle.fleet_commands.specs.Keywords.{keyword_of};

// The command that a line gives.
#[derive(Clone, Copy, Debug, PartialEq, Eq)]
pub(crate) enum Keyword {
    Propose,
    Retry,
    Cancel,
    Withdraw,
    Replan,
    Report,
    Look,
}

// The command that a word begins; none where it begins no command.
pub(crate) fn keyword_of(word: &[u8]) -> Option<Keyword>
    ensures { result ≡ keyword_of word.now }
{
    match word {
        b"propose" => Some(Keyword::Propose),
        b"retry" => Some(Keyword::Retry),
        b"cancel" => Some(Keyword::Cancel),
        b"withdraw" => Some(Keyword::Withdraw),
        b"replan" => Some(Keyword::Replan),
        b"report" => Some(Keyword::Report),
        b"look" => Some(Keyword::Look),
        _ => None,
    }
}
