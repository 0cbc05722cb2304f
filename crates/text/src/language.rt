// The languages of the texts that are read.
#[derive(Clone, Copy, Debug, PartialEq)]
pub enum Language {
    Json,
    Graphql,
}
