// Why a case has no answer: it breaks off, it asks for too much, its call has not landed.
#[derive(Clone, Copy, Debug, PartialEq, Eq)]
pub enum Notice {
    Short,
    TooLarge,
    Unknown,
}
