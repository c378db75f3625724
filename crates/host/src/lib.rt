// The model for callers outside of Rattle: a controller is 48 bytes that the caller keeps and lends to each call.
#![tactic(auto)]

mod calls;
mod saved;
mod sending;

// How many bytes a saved controller has.
const SAVED_LENGTH: usize = 48;
// The answer where bytes are no saved controller, of another length or another format. No refusal has this number.
const NO_CONTROLLER: u32 = 255;
// The answer where nothing is sent. It is no count of refused bytes, as so many are not sent.
const NOTHING_SENT: u32 = 0xFFFFFFFF;
