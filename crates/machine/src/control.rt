// What kinds 19 to 25 do beside their effect.

// What an operation does beside its effect: nothing, or what one of kinds 19 to 25 does to repeat left, loops, the mode word or the flags.
// No Option: definitions alone build it.
#[derive(Clone, Copy, Debug, PartialEq, Eq)]
pub enum Control {
    None,
    Repeat { count: u16 },
    RepeatRegister { register: u8 },
    Do { count: u16 },
    DoRegister { register: u8 },
    EndEarly,
    SetMode { word: u16 },
    ClearSaturation,
}
