// An edge written at an offset of a buffer (01, "Listing"): its bytes, or no room and the buffer as it was.
#![tactic(auto)]

pub mod head; // head.rt: what every edge begins with
pub mod regular; // regular.rt: a regular edge
pub mod numeric; // numeric.rt: a numeric edge
