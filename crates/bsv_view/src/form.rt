use bsv_waves::Asked;

/// The names of a file and of its top.
#[derive(Clone, Copy)]
pub(crate) struct Entry<'a> {
    pub(crate) file: &'a str,
    pub(crate) top: &'a str,
}

/// What the words after the program's name ask for.
#[derive(Clone, Copy)]
pub(crate) enum Form<'a> {
    Waves(Asked<'a>),
    Graph(Entry<'a>),
    Why(Entry<'a>),
}

/// A command line of the form `waves FILE TOP TRACE`, where it is watched or not.
fn waves_of(words: &[String], is_watched: bool) -> Option<Form<'_>> {
    let [command, file, top, trace] = words else {
        return None;
    };
    if command.as_str() != "waves" {
        return None;
    }
    Some(Form::Waves(Asked {
        file: file.as_str(),
        top: top.as_str(),
        trace: trace.as_str(),
        is_watched,
    }))
}

/// A command line of the form `graph FILE TOP` or `why FILE TOP`.
fn entry_of(words: &[String]) -> Option<Form<'_>> {
    let [command, file, top] = words else {
        return None;
    };
    let entry = Entry {
        file: file.as_str(),
        top: top.as_str(),
    };
    if command.as_str() == "graph" {
        return Some(Form::Graph(entry));
    }
    if command.as_str() == "why" {
        return Some(Form::Why(entry));
    }
    None
}

/// The form that the words have, where they have one; a run is watched or not.
pub(crate) fn form_of(words: &[String], is_watched: bool) -> Option<Form<'_>> {
    match waves_of(words, is_watched) {
        Some(form) => Some(form),
        None => entry_of(words),
    }
}
