// What a call that fills a lent slice did.
#[derive(Clone, Copy, Debug, PartialEq, Eq)]
pub enum Verb {
    Loaded,
    Wrote,
    Joined,
}
