//! Short runs over the two, alone and under two ends.
mod alone;
mod ends;
mod queued;
