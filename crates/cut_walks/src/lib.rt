//! The law of walks that are cut into parts, of Customizable Route Planning (D. Delling, A. V. Goldberg, T. Pajor and
//! R. F. Werneck, 2017): where each shortcut through a part costs what the cheapest run inside the part does, a cheapest
//! walk over parts and shortcuts costs what a cheapest one over the whole does.
//!
//! There is no code here: the definitions stand in `specs/Cut.antt`, the laws in `specs/Cutting.antt` (how a walk is cut),
//! `specs/Bounds.antt` (costs of cut walks and of whole ones bound each other) and `specs/Answering.antt` (so an answer
//! over shortcuts is one over walks). They speak of any hops and any parts, and so of no graph, no level and no table of
//! shortcuts.
#![tactic(auto)]
