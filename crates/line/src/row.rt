// How the level of a line makes requests.
#[derive(Clone, Copy, PartialEq, Eq, Debug)]
pub enum Sense {
    // A rise makes a request, which stays until a claim.
    Edge,
    // The request is the level.
    Following,
    // A rise makes a request unless the line is in service, and a completion makes one while the level is high.
    Gated,
}

// A line as plain data, without the rule about which records can exist.
#[derive(Clone, Copy, PartialEq, Eq, Debug)]
pub struct Row {
    pub sense: Sense,
    // What the device drives; true is high.
    pub level: bool,
    // The device asks for a claim.
    pub request: bool,
    // A claim named the line and no completion came since.
    pub service: bool,
    // The line is not offered.
    pub mask: bool,
}

// What happens to one line.
#[derive(Clone, Copy, PartialEq, Eq, Debug)]
pub enum Step {
    // It is driven to a level.
    Drive(bool),
    // It is masked or unmasked.
    Mask(bool),
    // Its sense is changed.
    Sense(Sense),
    // A claim names it.
    Claim,
    // It is completed.
    Complete,
    // It is reset.
    Reset,
}
