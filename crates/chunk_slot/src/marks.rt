// The word of a chunk's small fields, its marks: what it holds, and the words when one or two of them change. The 16 bits above the flags
// mean nothing, and a change leaves them as they are.
ghost use Rattle.std.specs.Prelude.{◌≡◌};
ghost use Rattle.chunk_slot.specs.Marks.{marks_in};
ghost use Rattle.chunk_slot.specs.Remarks.{sent_again, left_off, mark_acked, one_lower, with_deadline, with_since};

// What the marks count in their word: the stream below 2^16, then the SSN, the kind, and the flags from 2^40 on.
pub const SSN: u64 = 65_536;

pub const KIND: u64 = 4_294_967_296;

pub const UNORDERED: u64 = 1_099_511_627_776;

pub const BEGINNING: u64 = 2_199_023_255_552;

pub const ENDING: u64 = 4_398_046_511_104;

pub const ACKED: u64 = 8_796_093_022_208;

pub const ABANDONED: u64 = 17_592_186_044_416;

pub const RETRANSMIT: u64 = 35_184_372_088_832;

pub const TIMED: u64 = 70_368_744_177_664;

pub const SENT: u64 = 140_737_488_355_328;

// To be sent again, if neither acknowledged nor abandoned.
pub fn sent_again(marks: u64) -> u64
    ensures { marks_in result ≡ sent_again (marks_in marks) }
{
    if marks / ACKED % 2 == 1 {
        return marks;
    }
    if marks / ABANDONED % 2 == 1 {
        return marks;
    }
    marks - marks / RETRANSMIT % 2 * RETRANSMIT + RETRANSMIT
}

// Abandoned, and not to be sent again.
pub fn left_off(marks: u64) -> u64
    ensures { marks_in result ≡ left_off (marks_in marks) }
{
    let abandoned = marks / ABANDONED % 2 * ABANDONED;
    let retransmit = marks / RETRANSMIT % 2 * RETRANSMIT;
    marks - abandoned - retransmit + ABANDONED
}

// Acknowledged, and not to be sent again.
pub fn acknowledged(marks: u64) -> u64
    ensures { marks_in result ≡ mark_acked (marks_in marks) }
{
    let acked = marks / ACKED % 2 * ACKED;
    let retransmit = marks / RETRANSMIT % 2 * RETRANSMIT;
    marks - acked - retransmit + ACKED
}

// The SSN drops by 1 modulo 2^16.
pub fn one_lower(marks: u64) -> u64
    ensures { marks_in result ≡ one_lower (marks_in marks) }
{
    let ssn = marks / SSN % 65_536;
    let before = (ssn + 65_535) % 65_536;
    marks - ssn * SSN + before * SSN
}

// There is a deadline.
pub fn with_deadline(marks: u64) -> u64
    ensures { marks_in result ≡ with_deadline (marks_in marks) }
{
    marks - marks / TIMED % 2 * TIMED + TIMED
}

// There is a since.
pub fn with_since(marks: u64) -> u64
    ensures { marks_in result ≡ with_since (marks_in marks) }
{
    marks - marks / SENT % 2 * SENT + SENT
}
