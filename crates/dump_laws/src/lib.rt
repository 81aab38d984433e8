//! That services which are found legal are written down as a dump that is read, and judged legal, as the same services.
//!
//! There is no code here: it says of two definitions, of what is written and of what is read and judged, that they agree.
#![tactic(auto)]
