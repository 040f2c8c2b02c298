//! What the words of the command line ask for.

ghost use Rattle.std.specs.Prelude.{◌≡◌, map, option_map, string_bytes};
ghost use Rattle.command_line.specs.Command as spec;

use crate::session_words::{is_session_name, parts_of, version_of};

/// A command line.
#[derive(Clone, Copy, PartialEq, Eq)]
pub enum Command<'a> {
    /// `check P`: writes of which kind the page file P is.
    Check(&'a str),
    /// `instrument P`: writes the page file P with opened scopes.
    Instrument(&'a str),
    /// `replay P E`: writes the lines of loading the page file P and then those of the event file E.
    Replay(&'a str, &'a str),
    /// `save P E`: writes the page file P as it is after the event file E.
    Save(&'a str, &'a str),
    /// `park P E NAME`: keeps the page file P as it is after the event file E, as the next version of the name.
    Park(&'a str, &'a str, &'a str),
    /// `fetch NAME V`: writes the page that is kept under this name and version.
    Fetch(&'a str, u64),
    /// `parked`: lists what is kept.
    Parked,
    /// `drop NAME V`: drops what is kept under this name and version.
    Drop(&'a str, u64),
    /// `stress N`: writes how the generated page with N parts fares.
    Stress(u32),
}

// `check P` and `instrument P`.
fn page_of(words: &[String]) -> Option<&str>
    ensures check { option_map (λ page. spec.check page.now) result
        ≡ spec.page_of spec.check (map string_bytes words.now) }
    ensures instrument { option_map (λ page. spec.instrument page.now) result
        ≡ spec.page_of spec.instrument (map string_bytes words.now) }
{
    match words {
        [page] => Some(page.as_str()),
        _ => None,
    }
}

// `replay P E` and `save P E`.
fn session_of(words: &[String]) -> Option<(&str, &str)>
    ensures replay { option_map (λ both. spec.replay both.0.now both.1.now) result
        ≡ spec.session_of spec.replay (map string_bytes words.now) }
    ensures save { option_map (λ both. spec.save both.0.now both.1.now) result
        ≡ spec.session_of spec.save (map string_bytes words.now) }
{
    match words {
        [page, events] => Some((page.as_str(), events.as_str())),
        _ => None,
    }
}

// `park P E NAME`.
fn park_of(words: &[String]) -> Option<Command<'_>>
    ensures { option_map spec.view result ≡ spec.park_of (map string_bytes words.now) }
{
    match words {
        [page, events, name] if is_session_name(name) => Some(Command::Park(
            page.as_str(),
            events.as_str(),
            name.as_str(),
        )),
        _ => None,
    }
}

// `fetch NAME V` and `drop NAME V`.
fn row_of(words: &[String]) -> Option<(&str, u64)>
    ensures fetch { option_map (λ row. spec.fetch row.0.now row.1) result
        ≡ spec.row_of spec.fetch (map string_bytes words.now) }
    ensures dropped { option_map (λ row. spec.drop_row row.0.now row.1) result
        ≡ spec.row_of spec.drop_row (map string_bytes words.now) }
{
    match words {
        [name, version] if is_session_name(name) => match version_of(version) {
            Some(version) => Some((name.as_str(), version)),
            None => None,
        },
        _ => None,
    }
}

// `parked`.
fn parked_of(words: &[String]) -> Option<Command<'_>>
    ensures { option_map spec.view result ≡ spec.parked_of (map string_bytes words.now) }
{
    match words {
        [] => Some(Command::Parked),
        _ => None,
    }
}

// `stress N`.
fn stress_of(words: &[String]) -> Option<Command<'_>>
    ensures { option_map spec.view result ≡ spec.stress_of (map string_bytes words.now) }
{
    match words {
        [parts] => match parts_of(parts) {
            Some(parts) => Some(Command::Stress(parts)),
            None => None,
        },
        _ => None,
    }
}

/// The command of these words, or `None` where they are no command line. The verb comes first.
pub fn command_of(words: &[String]) -> Option<Command<'_>>
    ensures { option_map spec.view result ≡ spec.command_of (map string_bytes words.now) }
{
    let [verb, words @ ..] = words else {
        return None;
    };
    match verb.as_str() {
        "check" => page_of(words).map(Command::Check),
        "instrument" => page_of(words).map(Command::Instrument),
        "replay" => session_of(words).map(|(page, events)| Command::Replay(page, events)),
        "save" => session_of(words).map(|(page, events)| Command::Save(page, events)),
        "park" => park_of(words),
        "fetch" => row_of(words).map(|(name, version)| Command::Fetch(name, version)),
        "parked" => parked_of(words),
        "drop" => row_of(words).map(|(name, version)| Command::Drop(name, version)),
        "stress" => stress_of(words),
        _ => None,
    }
}
