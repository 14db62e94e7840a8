// The limits of a plan: each number stands here once for the code, and once in specs/Limits.antt for the contracts. That a port
// has eight classes, 0 to 7, is no limit but the form of every gate line, and is written 8 and 7.

// A plan text has at most this many bytes.
pub const MAX_TEXT: usize = 8_192;

pub const MAX_PORT: u64 = 65_535;

// A gate list has at most this many lines, and its cycle at most this many ticks.
pub const MAX_GATE_LINES: usize = 64;

pub const MAX_CYCLE: u64 = 500_000;

// A class has at most this many slots: no two of them begin with lines that adjoin.
pub const MAX_SLOTS: usize = 32;

// The bytes of a frame, of any class that sends.
pub const MIN_FRAME: u64 = 64;

pub const MAX_FRAME: u64 = 1_522;

// A class has room for at most this many unsent bytes.
pub const MAX_DEPTH: u64 = 16_384;

// A plan has at most this many flows.
pub const MAX_FLOWS: usize = 64;

// The burst of a bucket, in bytes, and the ticks in which it earns its rate.
pub const MIN_BURST: u64 = 64;

pub const MAX_BURST: u64 = 1_000_000;

pub const MAX_RATE_TICKS: u64 = 1_000_000;

// The period and the jitter of a periodic flow, in ticks.
pub const MAX_PERIOD: u64 = 4_000_000;

pub const MAX_JITTER: u64 = 4_000_000;

// A curve is asked about at most this many ticks, and an envelope about at least as many.
pub const MAX_SPAN: u64 = 4_000_000;

// The flows of a plan, and what is made of them, may be asked about spans of up to this many ticks.
pub const FLOW_REACH: u64 = 40_000_000;

// Loads above this many bytes, 2^40, are not told apart.
pub const MAX_LOAD: u64 = 1_099_511_627_776;
