//! What the program is asked for.

ghost use Rattle.std.specs.Option.{option_map};
ghost use Rattle.clean.specs.Requests.{Asks};

use crate::form::Form;

/// What the first argument asks for.
#[derive(Clone, Copy)]
pub enum Request<'a> {
    /// The cleaned card, in a form.
    Card(Form),
    /// How the program is used.
    Usage,
    /// The argument is none that the program knows.
    Unknown(&'a str),
}

impl<'a> Request<'a> {
    /// What a first argument asks for, or that there is none.
    pub fn of(argument: Option<&'a str>) -> Request<'a>
        ensures { Asks (option_map (λ word. word.now) argument.entry) result }
    {
        match argument {
            None => Request::Card(Form::Plain),
            Some("raw") => Request::Card(Form::Raw),
            Some("--help" | "-h") => Request::Usage,
            Some(word) => Request::Unknown(word),
        }
    }
}
