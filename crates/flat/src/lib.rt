// 01's sender as a C caller hears it: structs of numbers alone. `replies` gives the flat reply of each answer.
#![tactic(auto)]

pub mod replies;

// A number, or a yes or no.
#[repr(C)]
#[derive(Clone, Copy)]
pub struct Reply {
    pub value: u64,
    pub refusal: u8,
    pub yes: bool,
}

// What an expiry or an abandonment freed, where `some` is set.
#[repr(C)]
#[derive(Clone, Copy)]
pub struct Freed {
    pub message_id: u64,
    pub bytes: u64,
    pub stream: u16,
    pub refusal: u8,
    pub some: bool,
    pub unordered: bool,
}

// A chunk, where `some` is set.
#[repr(C)]
#[derive(Clone, Copy)]
pub struct Fragment {
    pub message_id: u64,
    pub offset: u64,
    pub deadline: u64,
    pub since: u64,
    pub tsn: u32,
    pub length: u32,
    pub protocol: u32,
    pub value: u32,
    pub nsent: u32,
    pub stream: u16,
    pub ssn: u16,
    pub kind: u8,
    pub refusal: u8,
    pub some: bool,
    pub has_deadline: bool,
    pub has_since: bool,
    pub unordered: bool,
    pub beginning: bool,
    pub ending: bool,
    pub acked: bool,
    pub abandoned: bool,
    pub retransmit: bool,
}

// A stream's statistics.
#[repr(C)]
#[derive(Clone, Copy)]
pub struct Counts {
    pub messages: u64,
    pub bytes: u64,
    pub refusal: u8,
}

// What a SACK released, or that it is stale.
// `low` is 0: its place is kept for how many streams fall to their low threshold, so that the struct stays when these are counted.
#[repr(C)]
#[derive(Clone, Copy)]
pub struct Sacked {
    pub bytes: u64,
    pub low: u64,
    pub refusal: u8,
    pub stale: bool,
}
