// What kinds 1 to 7 access.
use crate::access::Access;

// The X read, the Y read and the write.
#[derive(Clone, Copy, Debug, PartialEq, Eq)]
pub struct Accesses {
    pub x: Access,
    pub y: Access,
    pub back: Access,
}
