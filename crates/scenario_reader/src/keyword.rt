// The keywords of a scenario's lines.
ghost use Rattle.std.specs.Prelude.{◌≡◌};
ghost use Rattle.scenario_reader.specs.Keywords.{keyword_of, other_word, site_word};

// A line that declares a part of the site.
#[derive(Clone, Copy, Debug, PartialEq, Eq)]
pub(crate) enum SiteWord {
    Cell,
    Crossing,
    Area,
    Flow,
    Link,
    Lane,
}

// A line that adds to a mission.
#[derive(Clone, Copy, Debug, PartialEq, Eq)]
pub(crate) enum LegWord {
    Visit,
    Repeat,
    Again,
}

// The keyword of a line. The header's word is none.
#[derive(Clone, Copy, Debug, PartialEq, Eq)]
pub(crate) enum Keyword {
    Site(SiteWord),
    Robot,
    Mission,
    Leg(LegWord),
    Done,
    End,
}

// The keyword that a word is.
pub(crate) fn keyword_of(word: &[u8]) -> Option<Keyword>
    ensures { result ≡ keyword_of word.now }
{
    match site_word(word) {
        Some(keyword) => Some(keyword),
        None => other_word(word),
    }
}

// The keyword of a site line that a word is.
fn site_word(word: &[u8]) -> Option<Keyword>
    ensures { result ≡ site_word word.now }
{
    if word == b"cell".as_slice() {
        return Some(Keyword::Site(SiteWord::Cell));
    }
    if word == b"crossing".as_slice() {
        return Some(Keyword::Site(SiteWord::Crossing));
    }
    if word == b"area".as_slice() {
        return Some(Keyword::Site(SiteWord::Area));
    }
    if word == b"flow".as_slice() {
        return Some(Keyword::Site(SiteWord::Flow));
    }
    if word == b"link".as_slice() {
        return Some(Keyword::Site(SiteWord::Link));
    }
    if word == b"lane".as_slice() {
        return Some(Keyword::Site(SiteWord::Lane));
    }
    None
}

// The keyword of another line that a word is.
fn other_word(word: &[u8]) -> Option<Keyword>
    ensures { result ≡ other_word word.now }
{
    if word == b"robot".as_slice() {
        return Some(Keyword::Robot);
    }
    if word == b"mission".as_slice() {
        return Some(Keyword::Mission);
    }
    if word == b"visit".as_slice() {
        return Some(Keyword::Leg(LegWord::Visit));
    }
    if word == b"repeat".as_slice() {
        return Some(Keyword::Leg(LegWord::Repeat));
    }
    if word == b"again".as_slice() {
        return Some(Keyword::Leg(LegWord::Again));
    }
    if word == b"done".as_slice() {
        return Some(Keyword::Done);
    }
    if word == b"end".as_slice() {
        return Some(Keyword::End);
    }
    None
}
