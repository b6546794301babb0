// A call of a board; devices are named by route number.
#[derive(Clone, Copy, PartialEq, Eq, Debug)]
pub enum Call {
    // Drives a device high (true) or low.
    Drive(usize, bool),
    // Masks (true) or unmasks a device.
    Mask(usize, bool),
    // Asks for a device that waits.
    Claim,
    // Ends the service of a device.
    Complete(usize),
}

// What a call was answered.
#[derive(Clone, Copy, PartialEq, Eq, Debug)]
pub enum Answer {
    Done,
    // A claim named this device, or none.
    Named(Option<usize>),
    // The call was refused, with its number. Any number: an enum of them would take fewer lists than a history may be.
    Refused(u8),
}

// A call with its answer.
#[derive(Clone, Copy, PartialEq, Eq, Debug)]
pub struct Event {
    pub call: Call,
    pub answer: Answer,
}
