use table::one_to::OneTo;

// The priority of a line of a PLIC: 1 to 7, where 7 goes first.
pub type Priority = OneTo<7>;
