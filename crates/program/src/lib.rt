// Program files of document 01 as definitions: where DO and REPEAT may stand, blocks, load and write. The code is what an answer is by number.
#![tactic(auto)]

pub mod answer;
pub mod layout;
pub mod placement;
