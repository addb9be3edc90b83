// The replay script's table of lines: the place of each word of a line, counted from 0 at the word of the call, and how
// many words the line has; a definition of the same name in specs/ says the same of each. Assumes nothing.

// `start Tset Tqui minTSDR maxTSDR TTD TTR retry TS masters points high low`.
pub const TSET: usize = 1;

pub const TQUI: usize = 2;

pub const MINTSDR: usize = 3;

pub const MAXTSDR: usize = 4;

pub const TTD: usize = 5;

pub const TTR: usize = 6;

pub const RETRY: usize = 7;

pub const TS: usize = 8;

pub const MASTERS: usize = 9;

pub const POINTS: usize = 10;

pub const HIGHROW: usize = 11;

pub const LOWROW: usize = 12;

pub const STARTWORDS: usize = 13;

// How many long numbers follow one another from Tset to TS, and how many row lengths.
pub const LONGS: usize = 8;

pub const ROWS: usize = 2;

// `submit QUEUE SERVICE DA DSAP SSAP DATA`.
pub const QUEUE: usize = 1;

pub const SERVICE: usize = 2;

pub const DA: usize = 3;

pub const DSAP: usize = 4;

pub const SSAP: usize = 5;

pub const DATA: usize = 6;

pub const SUBMITWORDS: usize = 7;

// `frame CLOCK ROOM HIGH LOW OCTETS`.
pub const CLOCK: usize = 1;

pub const ROOM: usize = 2;

pub const HIGH: usize = 3;

pub const LOW: usize = 4;

pub const OCTETS: usize = 5;

pub const FRAMEWORDS: usize = 6;

// `sent CLOCK`, `slot CLOCK`, and `collect QUEUE`.
pub const CLOCKEDWORDS: usize = 2;

pub const COLLECTWORDS: usize = 2;

// `reset` and `show`, which stand alone.
pub const ALONE: usize = 1;
