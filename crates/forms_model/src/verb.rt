// The words that begin forms.

// What is asked of a nest with a key.
#[derive(Clone, Copy)]
pub enum NestVerb {
    Add,
    Drop,
    Find,
}

// What an operation asks.
#[derive(Clone, Copy)]
pub enum Verb {
    Nest(NestVerb),
    Put,
    Take,
}

// Which call a form makes.
#[derive(Clone, Copy)]
pub enum CallName {
    Start,
    Touch,
    Collect,
    Close,
}
