use table::one_to::OneTo;

// How many lines a PLIC has: 1 to 64.
pub type PlicWidth = OneTo<64>;
