// The forms of the program: lists of words.
ghost use Rattle.std.specs.Prelude.{◌≡◌, ◌^◌, ◌-◌, ◌<◌, IfSome};
ghost use Rattle.std.specs.Option.{option_map};
ghost use Rattle.fleet_cli.specs.Forms.{form_asked, form_view, one_word, spec_of, three_words};

// What the words ask for.
#[derive(Clone, Copy, Debug, PartialEq, Eq)]
pub(crate) enum Form<'a> {
    // The canonical text of a scenario.
    Check,
    // The least route from a cell to a cell or an area.
    Route { from: &'a str, to: &'a str },
    // A scenario with commands behind it, carried out.
    Script,
    // A scenario with a journal behind it, replayed.
    Replay,
    // Which robot should go to which first goal.
    Assign,
}

// The form that the words are, if they are one.
pub(crate) fn form_from<'a>(words: &[&'a str]) -> Option<Form<'a>>
    ensures { option_map form_view result ≡ form_asked words.now }
{
    match words {
        [word] => from_one(word),
        [word, from, to] => from_three(word, from, to),
        _ => None,
    }
}

fn from_one(word: &str) -> Option<Form<'static>>
    ensures { option_map form_view result ≡ one_word word.now }
{
    match word {
        "check" => Some(Form::Check),
        "script" => Some(Form::Script),
        "replay" => Some(Form::Replay),
        "assign" => Some(Form::Assign),
        _ => None,
    }
}

fn from_three<'a>(word: &str, from: &'a str, to: &'a str) -> Option<Form<'a>>
    ensures { option_map form_view result ≡ three_words word.now from.now to.now }
{
    match word {
        "route" => Some(Form::Route { from, to }),
        _ => None,
    }
}

impl Form<'_> {
    // The most bytes of input that the form takes. None where it reads nothing.
    pub(crate) fn limit(self) -> Option<u64>
        ensures is { result ≡ (spec_of (form_view self.entry)).limit }
        ensures small { IfSome result (λ limit. limit < 2 ^ 32 - 1) }
    {
        match self {
            Form::Check | Form::Route { .. } | Form::Script | Form::Assign => Some(4_194_304),
            Form::Replay => Some(67_108_864),
        }
    }
}
