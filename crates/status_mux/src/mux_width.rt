use table::one_to::OneTo;

// How many lines a status multiplexer has: 1 to 32.
pub type MuxWidth = OneTo<32>;
