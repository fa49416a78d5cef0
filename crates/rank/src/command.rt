//! What a line of a script asks for.
use selectors::{SelectorCall, SelectorKind};

/// One line of a script.
#[derive(Clone, Copy)]
pub enum Command {
    Choose(SelectorKind),
    Ask(SelectorCall),
}
